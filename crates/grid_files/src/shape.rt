// The shape of a grid: the width of a line, the height of a layer and how many layers; and what parts the weights of a line.
ghost use Rattle.std.specs.Prelude.{◌*◌, ◌<◌, ◌≤◌};

use console::faults::Refused;
use messages::{Failure, failed};
use rules::Refusal;
use whole_files::grid::Grid;

// Where a cell is: its column, its line and its layer.
#[derive(Clone, Copy)]
pub struct Spot {
    pub x: usize,
    pub y: usize,
    pub z: usize,
}

#[derive(Clone, Copy)]
pub struct Shape {
    pub width: usize,
    pub height: usize,
    pub layers: usize,
    pub separator: u8,
    pub ghost wide: { 0 < width },
    pub ghost high: { 0 < height },
    pub ghost deep: { 0 < layers },
    pub ghost few: { width * height * layers ≤ 65536 },
}

impl Shape {
    // The shape of a grid, where its sides say how many cells it may have.
    pub(crate) fn of(grid: Grid, separator: u8) -> Option<Shape> {
        let Grid {
            width,
            height,
            layers,
        } = grid;
        if width == 0 || height == 0 || layers == 0 {
            return None;
        }
        let cells = width.checked_mul(height)?.checked_mul(layers)?;
        if 65536 < cells {
            return None;
        }
        Some(Shape {
            width,
            height,
            layers,
            separator,
        })
    }

    // Whether there is one layer alone, so that the grid is in 2D.
    pub fn is_flat(self) -> bool
        ensures { Unit {0} }
    {
        self.layers == 1
    }

    // How many cells a layer has.
    pub fn layer(self) -> usize
        ensures some { 0 < result }
        ensures few { result ≤ 65536 }
    {
        self.width * self.height
    }

    // How many cells there are.
    pub fn cells(self) -> usize
        ensures { result ≤ 65536 }
    {
        self.width * self.height * self.layers
    }

    // Where cell `i` is.
    pub fn spot(self, i: usize) -> Spot
        ensures x { result.x < self.width }
        ensures y { result.y < self.height }
        ensures z { result.z < self.layers }
    {
        let line = i / self.width;
        Spot {
            x: i % self.width,
            y: line % self.height,
            z: line / self.height % self.layers,
        }
    }

    // Says why its halving is refused, with its sides where they are.
    pub fn refused(self, path: &[u8], refusal: Refusal) -> Failure
        ensures { Unit {0} }
    {
        let Shape {
            width,
            height,
            layers,
            ..
        } = self;
        let why = Refused(refusal);
        if refusal == Refusal::Sides {
            return failed(path, format_args!("{width} by {height} by {layers}: {why}"));
        }
        failed(path, why)
    }
}
