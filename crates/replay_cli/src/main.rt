// The command line's part for bench nights: reads a grid and a trace of events, replays the trace, and shows the ids in force after the
// night, the answer to each event, the weights, a summary or a picture.
//
// The script skarvolm knows the commands and hands their words on, each in its place (`asked`). The grid is read first and its weights are
// kept, then the trace into the same room: what `answers` prints of it still stands there.
#![tactic(auto)]

mod answers;
mod asked;
mod digits;
mod events;
mod night;
mod summary;

use console::faults::Faults;
use console::files;
use console::source::Source;
use events::Events;
use grid_files::file;
use knot_files::layout::Layout;
use messages::Outcome;
use night::Trace;
use std::rt::HostRuntime;
use whole_files::numbers::Numbers;
use words::Words;
use words::status::report;

// Reads a grid and a trace, whose header is one as in a file of knots, replays the trace and shows the night, or says what is wrong.
fn carry_out(rt: HostRuntime, words: &Words, room: &mut [u8; files::ROOM]) -> Outcome {
    let mut weights = Numbers::new();
    let shape = file::read(rt, asked::grid(words), room, &mut weights)?;
    let path = asked::trace(words);
    let text = files::read(rt, path, room)?;
    let source = Source::of(path, text);
    let layout = Layout::of_numbers(source, source.first_line(0), None);
    let mut events = Events::none();
    let mut faults = Faults::none();
    events.read(layout, shape, &mut faults);
    faults.say_all(source)?;
    let trace = Trace {
        layout,
        events: &events,
    };
    night::carry_out(rt, words, shape, weights.as_mut_slice(), trace)
}

fn main(rt: HostRuntime) {
    let words = Words::of_program(rt);
    let mut room = [0u8; files::ROOM];
    let outcome = carry_out(rt, &words, &mut room);
    report(&words, outcome);
}
