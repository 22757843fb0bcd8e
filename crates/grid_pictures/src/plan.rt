// How a grid is laid out, in tenths of a pixel: layers in rows of panels, and how much a cell takes.
ghost use Rattle.std.specs.Prelude.{◌^◌, ◌<◌, ◌≤◌, IfSome};

use grid_files::shape::{Shape, Spot};
use std::fmt;

// The shape of the grid; how much of a cell goes across and down; how many panels there are, and in a row; of how many layers one is drawn; and
// the sides of the groups of cells whose weights are shown as one.
#[derive(Clone, Copy)]
pub struct Plan {
    pub shape: Shape,
    pub across: usize,
    pub down: usize,
    pub panels: usize,
    pub columns: usize,
    pub every: usize,
    pub group_across: usize,
    pub group_down: usize,
    ghost narrow: { across ≤ 1000 },
    ghost low: { down ≤ 1000 },
    ghost few: { panels ≤ 65536 },
    ghost some: { 0 < columns },
    ghost row: { columns ≤ 65536 },
    ghost drawn: { 0 < every },
    ghost near: { every ≤ 65536 },
    ghost wide: { 0 < group_across },
    ghost high: { 0 < group_down },
}

// A rectangle.
#[derive(Clone, Copy)]
pub struct Area {
    pub left: usize,
    pub top: usize,
    pub width: usize,
    pub height: usize,
    ghost across: { left ≤ 2 ^ 60 },
    ghost down: { top ≤ 2 ^ 60 },
}

// As a rectangle whose start is left open.
impl fmt::Display for Area {
    fn fmt<W: fmt::Write>(&self, f: &mut fmt::Formatter<W>) -> fmt::Result {
        let Area {
            left,
            top,
            width,
            height,
        } = *self;
        write!(
            f,
            "<rect x='{left}' y='{top}' width='{width}' height='{height}'"
        )
    }
}

// The room for panels, that of a panel's numbers, and of the titles and at the margins.
const WIDTH: usize = 11600;

const HEIGHT: usize = 7800;

const NUMBERS: usize = 340;

const TITLES: usize = 960;

const MARGIN: usize = 200;

// The most layers that are drawn.
const PANELS: usize = 40;

// The most that a cell takes, and a side of one that is stretched; and the least of a square of weights.
const MOST: usize = 1000;

const STRETCHED: usize = 480;

const LEAST: usize = 80;

impl Plan {
    pub(crate) fn of(shape: Shape) -> Plan {
        let every = shape.layers.div_ceil(PANELS);
        let panels = shape.layers.div_ceil(every);
        let columns = columns_of(shape, panels);
        let (fits_across, fits_down) = fitting(shape, panels, columns);
        let across = side(fits_across, fits_down);
        let down = side(fits_down, fits_across);
        Plan {
            shape,
            across,
            down,
            panels,
            columns,
            every,
            group_across: group(across),
            group_down: group(down),
        }
    }

    // The panel of the layer of a cell, where it is shown.
    pub(crate) fn panel(self, spot: Spot) -> Option<usize>
        requires { spot.z < self.shape.layers }
        ensures { IfSome result (λ panel. panel ≤ 65536) }
    {
        if spot.z % self.every != 0 {
            return None;
        }
        Some(spot.z / self.every)
    }

    // Whether each cell is shown by itself.
    pub(crate) fn is_single(self) -> bool {
        self.group_across == 1 && self.group_down == 1
    }

    // How much a panel takes across and down.
    fn panel_across(self) -> usize
        ensures { result ≤ 65536340 }
    {
        self.shape.width * self.across + NUMBERS
    }

    fn panel_down(self) -> usize
        ensures { result ≤ 65536340 }
    {
        self.shape.height * self.down + NUMBERS
    }

    // The area of so many cells across and down from a cell of a panel on.
    pub(crate) fn area(self, panel: usize, x: usize, y: usize, width: usize, height: usize) -> Area
        requires panel { panel ≤ 65536 }
        requires x { x ≤ 65536 }
        requires y { y ≤ 65536 }
        requires width { width ≤ 65536 }
        requires height { height ≤ 65536 }
    {
        Area {
            left: panel % self.columns * self.panel_across() + x * self.across + NUMBERS + MARGIN,
            top: panel / self.columns * self.panel_down() + y * self.down + NUMBERS + TITLES,
            width: width * self.across,
            height: height * self.down,
        }
    }

    // The area of a whole panel.
    pub(crate) fn frame(self, panel: usize) -> Area
        requires { panel ≤ 65536 }
    {
        self.area(panel, 0, 0, self.shape.width, self.shape.height)
    }

    // How many pixels the picture takes across, at least so many that titles fit, and down.
    pub(crate) fn pixels_across(self) -> usize {
        ((self.columns * self.panel_across() + 2 * MARGIN) / 10).max(760)
    }

    pub(crate) fn pixels_down(self) -> usize {
        let rows = self.panels.div_ceil(self.columns);
        (rows * self.panel_down() + TITLES + MARGIN) / 10
    }
}

// How much of a cell fits, of so many in each of so many panels of a room.
fn fits(room: usize, panels: usize, cells: usize) -> usize
    requires panels { 0 < panels }
    requires cells { 0 < cells }
    ensures { result ≤ 1000 }
{
    ((room / panels).saturating_sub(NUMBERS) / cells).min(MOST)
}

// How much of a cell fits across and down, where so many panels are in a row.
fn fitting(shape: Shape, panels: usize, columns: usize) -> (usize, usize)
    requires panels { 0 < panels }
    requires columns { 0 < columns }
    ensures across { result.0 ≤ 1000 }
    ensures down { result.1 ≤ 1000 }
{
    let rows = panels.div_ceil(columns);
    (
        fits(WIDTH, columns, shape.width),
        fits(HEIGHT, rows, shape.height),
    )
}

// The largest number of panels in a row for which cells are largest.
fn columns_of(shape: Shape, panels: usize) -> usize
    requires { 0 < panels }
    ensures some { 0 < result }
    ensures row { result ≤ panels }
{
    let columns = (1..=panels).max_by_key(|columns| {
        let (across, down) = fitting(shape, panels, *columns);
        across.min(down)
    });
    columns.unwrap_or(1)
}

// A side of a cell, where so much fits, and so much of the other: as long as the other, so that cells are squares; but where it could be more than
// twice as long it is stretched.
fn side(fits: usize, other: usize) -> usize
    requires { fits ≤ 1000 }
    ensures { result ≤ 1000 }
{
    if fits / 2 <= other || STRETCHED < other {
        return fits.min(other);
    }
    fits.min(STRETCHED)
}

// How many cells a square of weights has along a side.
fn group(side: usize) -> usize
    ensures { 0 < result }
{
    if side == 0 {
        return 1;
    }
    LEAST.div_ceil(side)
}
