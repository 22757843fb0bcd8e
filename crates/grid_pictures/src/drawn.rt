// Where cells are: the boxes of parts in the panels, and the squares of weights.
ghost use Rattle.std.specs.Prelude.{◌<◌, ◌≤◌};

use crate::plan::{Area, Plan};
use grid_files::shape::Spot;

// The halved grid that is drawn: how it is laid out, and the weight and the id of each cell.
#[derive(Clone, Copy)]
pub struct Drawn<'a> {
    pub plan: Plan,
    pub weights: &'a [u64],
    pub ids: &'a [u32],
}

// A part's box on a layer: its first cell, its id, and its area.
#[derive(Clone, Copy)]
pub struct Part {
    pub cell: usize,
    pub spot: Spot,
    pub id: u32,
    pub area: Area,
}

// A square of cells whose mean weight is shown.
#[derive(Clone, Copy)]
pub struct Square {
    pub id: u32,
    pub mean: u64,
    pub area: Area,
}

impl Drawn<'_> {
    // The id of the cell so many before a cell, where there is one.
    pub(crate) fn id_before(self, cell: usize, before: usize) -> Option<u32> {
        self.ids.get(cell.checked_sub(before)?).copied()
    }

    // How many cells from one on, each so far behind the one before it, have its id, of at most so many. By chunks, since step_by goes over all
    // that lies between.
    pub(crate) fn run(self, cell: usize, apart: usize, most: usize) -> usize
        requires { 0 < apart }
        ensures { result ≤ most }
    {
        let cells = self.ids.get(cell..).unwrap_or(&[]);
        let id = cells.first();
        let behind = cells.chunks(apart).take(most);
        behind.take_while(|others| others.first() == id).count()
    }

    // The box that begins at a cell of a layer that is shown.
    pub(crate) fn part_at(self, cell: usize) -> Option<Part> {
        let plan = self.plan;
        let shape = plan.shape;
        let id = *self.ids.get(cell)?;
        let spot = shape.spot(cell);
        let panel = plan.panel(spot)?;
        if spot.x != 0 && self.id_before(cell, 1) == Some(id) {
            return None;
        }
        if spot.y != 0 && self.id_before(cell, shape.width) == Some(id) {
            return None;
        }
        let width = self.run(cell, 1, shape.width - spot.x);
        let height = self.run(cell, shape.width, shape.height - spot.y);
        let area = plan.area(panel, spot.x, spot.y, width, height);
        Some(Part {
            cell,
            spot,
            id,
            area,
        })
    }

    // The square that begins at a cell of a layer that is shown: a group of cells, or what is left of the grid.
    pub(crate) fn square_at(self, cell: usize) -> Option<Square> {
        let plan = self.plan;
        let shape = plan.shape;
        let id = *self.ids.get(cell)?;
        let spot = shape.spot(cell);
        let panel = plan.panel(spot)?;
        if spot.x % plan.group_across != 0 || spot.y % plan.group_down != 0 {
            return None;
        }
        let width = plan.group_across.min(shape.width - spot.x);
        let height = plan.group_down.min(shape.height - spot.y);
        Some(Square {
            id,
            mean: self.mean(cell, width, height),
            area: plan.area(panel, spot.x, spot.y, width, height),
        })
    }

    // The mean weight of so many cells across and down from one on. No sum of weights reaches 2^40.
    fn mean(self, cell: usize, width: usize, height: usize) -> u64
        requires wide { 0 < width }
        requires high { 0 < height }
        requires narrow { width ≤ 65536 }
        requires low { height ≤ 65536 }
    {
        let weights = self.weights.get(cell..).unwrap_or(&[]);
        let mut sum = 0u64;
        for line in weights.chunks(self.plan.shape.width).take(height) {
            for weight in line.iter().take(width) {
                sum = sum.wrapping_add(*weight);
            }
        }
        sum / (width * height) as u64
    }

    // The most that a square shows.
    pub(crate) fn darkest(self) -> u64 {
        let squares = (0..self.ids.len()).filter_map(|cell| self.square_at(cell));
        squares.map(|square| square.mean).max().unwrap_or(0)
    }
}
