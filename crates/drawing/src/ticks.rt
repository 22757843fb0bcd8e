// The numbers of cells along an axis.
ghost use Rattle.std.specs.Prelude.{◌<◌};

use std::fmt;

// The cells of a picture: where the first one's corner is, how many go across and down, and how much of either a cell takes. They are printed
// as the numbers of the columns above them, and those of the lines left of them.
#[derive(Clone, Copy)]
pub struct Cells {
    pub x: u64,
    pub y: u64,
    pub columns: u64,
    pub lines: u64,
    pub across: u64,
    pub down: u64,
}

impl fmt::Display for Cells {
    fn fmt<W: fmt::Write>(&self, f: &mut fmt::Formatter<W>) -> fmt::Result {
        let Cells { x, y, .. } = *self;
        f.write_str("<g font-size='100' fill='#444' text-anchor='middle'>\n")?;
        for column in (0..self.columns).step_by(step(self.across, 300)) {
            let middle = middle_of(column, self.across, x);
            let above = y.saturating_sub(50);
            write!(f, "<text x='{middle}' y='{above}'>{column}</text>")?;
        }
        f.write_str("\n</g>\n<g font-size='100' fill='#444' text-anchor='end'>\n")?;
        for line in (0..self.lines).step_by(step(self.down, 160)) {
            let left = x.saturating_sub(50);
            let base = middle_of(line, self.down, y).saturating_add(35);
            write!(f, "<text x='{left}' y='{base}'>{line}</text>")?;
        }
        f.write_str("\n</g>\n")
    }
}

// The step between the numbers that are written, where a cell takes so much and a number so much: the least of 1, 2, 5, 10, .. 500 that is as
// many cells as a number takes.
fn step(cell: u64, number: u64) -> usize
    ensures { 0 < result }
{
    if cell == 0 {
        return 1000;
    }
    let cells = number.div_ceil(cell);
    match cells {
        0..=1 => 1,
        2 => 2,
        3..=5 => 5,
        6..=10 => 10,
        11..=20 => 20,
        21..=50 => 50,
        51..=100 => 100,
        101..=200 => 200,
        201..=500 => 500,
        _ => 1000,
    }
}

// Where the middle of a cell is, from where the first one begins.
fn middle_of(cell: u64, size: u64, start: u64) -> u64 {
    let before = cell.saturating_mul(size);
    start.saturating_add(before).saturating_add(size / 2)
}
