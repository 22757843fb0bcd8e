// Events out of the lines of a trace: the cell and the amount of each, and where its line starts.
//
// A line has the number of a cell and an amount, or the coordinates of a cell and an amount; which, the first line of numbers says.
use console::faults::{Counted, Faults, Wrong};
use console::source::Line;
use console::starts::{MOST, Starts};
use grid_files::shape::Shape;
use knot_files::layout::Layout;
use rules::Refusal;
use whole_files::numbers::{Limit, Numbers, read_field};

// The number of a cell that no grid has: that of an event one of whose coordinates is not in the grid. The library takes cells as numbers, and
// answers such a one with its refusal.
const OUTSIDE: u64 = u64::MAX;

// Each event's number of a cell and amount, which the library takes each as a slice, and the place where its line starts. They are large: lend
// them.
#[derive(Drop)]
pub(crate) struct Events {
    pub(crate) cells: Numbers,
    pub(crate) amounts: Numbers,
    pub(crate) starts: Starts,
}

impl Events {
    pub(crate) fn none() -> Events {
        Events {
            cells: Numbers::new(),
            amounts: Numbers::new(),
            starts: Starts::none(),
        }
    }

    // Reads the events of a trace on a grid, of which there may be none, while there is room for faults. What is wrong is kept.
    pub(crate) fn read(&mut self, layout: Layout<'_>, shape: Shape, faults: &mut Faults) {
        let sides = [shape.width, shape.height, shape.layers];
        let axes = if shape.is_flat() { 2 } else { 3 };
        let first = layout.first_line();
        match first.fields().count() {
            0 => {}
            n if n != 2 && n != axes + 1 => faults.note_at(Wrong::Event(axes + 1), first.start),
            // A text whose every byte is a field counts as one without events.
            n if n == layout.source.text.len() => {}
            2 => self.read_lines(layout, &[shape.cells()], faults),
            _ => self.read_lines(layout, &sides[..axes], faults),
        }
    }

    // Reads lines of coordinates on such sides, each with an amount behind them. They are held against the first one.
    fn read_lines(&mut self, layout: Layout<'_>, sides: &[usize], faults: &mut Faults) {
        let source = layout.source;
        let lines = layout.lines().filter(|line| line.fields().next().is_some());
        for (event, line) in lines.enumerate() {
            if faults.is_full() {
                return;
            }
            if line.fields().count() != sides.len() + 1 {
                let first = Counted::at(source, layout.first);
                faults.note_at(Wrong::Ragged(first), line.start);
            } else if MOST <= event {
                faults.note(Wrong::Many, line.span());
            } else {
                self.read_event(line, sides, faults);
            }
        }
    }

    // Reads a line's event.
    fn read_event(&mut self, line: Line<'_>, sides: &[usize], faults: &mut Faults) {
        let source = line.source;
        self.starts.keep(line);
        let limit = Limit::none(Refusal::Cell);
        let mut cell = Some(0);
        let mut stride = 1;
        let mut fields = line.fields();
        for side in sides {
            let Some(field) = fields.next() else {
                break;
            };
            let side = *side as u64;
            match limit.number_of(source.bytes(field)) {
                Ok(coordinate) => cell = moved(cell, coordinate, side, stride),
                Err(wrong) => faults.note(wrong, field),
            }
            stride = stride.saturating_mul(side);
        }
        if let Some(field) = fields.next() {
            read_field(source, field, limit, &mut self.amounts, faults);
        }
        let _ = self.cells.try_push(cell.unwrap_or(OUTSIDE));
    }
}

// The number of a cell by one coordinate more, each step of which goes on by so many cells; none where it is not in the grid.
fn moved(cell: Option<u64>, coordinate: u64, side: u64, stride: u64) -> Option<u64> {
    if side <= coordinate {
        return None;
    }
    Some(cell?.saturating_add(coordinate.saturating_mul(stride)))
}
