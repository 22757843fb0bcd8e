// A grid out of a file.
use crate::shape::Shape;
use console::faults::{Faults, Refused};
use console::files;
use console::source::Source;
use messages::{Failure, failed};
use rules::Refusal;
use std::rt::HostRuntime;
use whole_files::grid;
use whole_files::numbers::Numbers;

// Reads a file's grid and its weights, or says what is wrong with it.
pub fn read(
    rt: HostRuntime,
    path: &[u8],
    room: &mut [u8; files::ROOM],
    weights: &mut Numbers,
) -> Result<Shape, Failure>
    ensures { Unit {0} }
{
    let text = files::read(rt, path, room)?;
    let source = Source::of(path, text);
    let mut faults = Faults::none();
    let grid = grid::read(source, weights, &mut faults);
    faults.say_all(source)?;
    // A grid without a fault has a shape; one that had none would be refused as its halving is.
    match Shape::of(grid, source.separator) {
        Some(shape) if shape.cells() == weights.len() => Ok(shape),
        _ => Err(failed(path, Refused(Refusal::Lengths))),
    }
}
