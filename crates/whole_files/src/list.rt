// A list of indices.
use crate::numbers::{Limit, Numbers, read_line};
use console::faults::{Faults, Wrong};
use console::source::Lines;

// Reads the indices of the lines that are left of a text, the first `most` of each where not all are asked for. What is wrong is kept.
pub fn read(
    lines: Lines<'_>,
    limit: Limit,
    most: Option<usize>,
    indices: &mut Numbers,
    faults: &mut Faults,
)
    ensures { Unit {0} }
{
    for line in lines {
        if faults.is_full() {
            break;
        }
        read_line(line, limit, most, indices, faults);
    }
    if indices.is_empty() {
        faults.note_at(Wrong::Nothing, lines.source.text.len());
    }
}
