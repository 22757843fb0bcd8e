// A grid of weights: lines of whole numbers, layers parted by blank lines. A line with nothing but a comment is passed over.
use crate::numbers::{Limit, Numbers, read_line};
use console::faults::{Counted, Faults, Wrong};
use console::source::{Line, Source};
use rules::Refusal;

// The width of the first line, the height of the last layer, and how many layers there are.
#[derive(Clone, Copy, Debug, Default, PartialEq, Eq)]
pub struct Grid {
    pub width: usize,
    pub height: usize,
    pub layers: usize,
}

// What has been read: the grid so far, where its first line starts, and how many lines the open layer has.
#[derive(Clone, Copy, Default)]
struct Reading {
    grid: Grid,
    first: Option<usize>,
    lines: usize,
}

impl Reading {
    // Closes the open layer, where there is one, at a place.
    fn close_layer(&mut self, at: usize, faults: &mut Faults) {
        if self.lines == 0 {
            return;
        }
        if self.grid.layers != 0 && self.grid.height != self.lines {
            faults.note_at(Wrong::Layer, at);
        }
        self.grid.height = self.lines;
        self.grid.layers = self.grid.layers.saturating_add(1);
        self.lines = 0;
    }

    // Adds a line of so many weights, which is held against the first one.
    fn add_line(&mut self, source: Source<'_>, line: Line<'_>, count: usize, faults: &mut Faults) {
        match self.first {
            Some(first) => {
                if count != self.grid.width {
                    faults.note_at(Wrong::Ragged(Counted::at(source, first)), line.start);
                }
            }
            None => {
                self.first = Some(line.start);
                self.grid.width = count;
            }
        }
        self.lines = self.lines.saturating_add(1);
    }
}

// Reads a grid, while there is room for faults; what is wrong is kept.
pub fn read(source: Source<'_>, weights: &mut Numbers, faults: &mut Faults) -> Grid
    ensures { Unit {0} }
{
    let limit = Limit {
        most: rules::TOP_WEIGHT,
        refusal: Refusal::Weight,
    };
    let mut reading = Reading::default();
    for line in source.lines(0) {
        if faults.is_full() {
            break;
        }
        let count = read_line(line, limit, None, weights, faults);
        if count != 0 {
            reading.add_line(source, line, count, faults);
        } else if !line.is_comment() {
            reading.close_layer(line.start, faults);
        }
    }
    reading.close_layer(source.text.len(), faults);
    if weights.is_empty() {
        faults.note_at(Wrong::Nothing, source.text.len());
    }
    reading.grid
}
