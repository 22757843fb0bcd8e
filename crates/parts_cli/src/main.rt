// The command line's part for parts along the curve: reads a list of indices, and prints each line behind its part, or what the parts hold.
//
// The script skarvolm knows the commands and hands their words on, each in its place (`asked`). A list is read whole, and what is wrong
// with it is said, with file, line and column, before anything is printed. What is right goes out through a buffer. The room for a file is
// made here once, and lent as an array.
#![tactic(auto)]

mod asked;
mod division;
mod points;
mod summary;

use console::faults::Faults;
use console::files;
use console::source::Source;
use divisions::weighed::weights_column;
use knot_files::layout::Layout;
use messages::Outcome;
use points::Points;
use std::rt::HostRuntime;
use whole_files::noted;
use words::Words;
use words::status::report;

fn main(rt: HostRuntime) {
    let words = Words::of_program(rt);
    let mut room = [0u8; files::ROOM];
    let outcome = carry_out(rt, &words, &mut room);
    report(&words, outcome);
}

// Reads the points of a list and goes on with them, or says what is wrong.
fn carry_out(rt: HostRuntime, words: &Words, room: &mut [u8; files::ROOM]) -> Outcome {
    let path = asked::path(words);
    let source = Source::of(path, files::read(rt, path, room)?);
    let note = noted::note_of(source)?;
    let head = source.first_line(0);
    let layout = Layout::of(source, head, noted::is_headed(source, head));
    let column = weights_column(layout, asked::weights(words))?;
    let mut points = Points::none(layout);
    let mut faults = Faults::none();
    points.read(column, &mut faults);
    faults.say_all(source)?;
    division::divide(rt, words, note.as_ref(), &points)
}
