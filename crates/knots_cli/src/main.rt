// The command line's part for knots: files them by Hilbert index, and says the box around them.
//
// The script skarvolm knows the commands and hands their words on, each in its place (`asked` of `knot_files`). A file is read whole,
// and what is wrong with it is said, with file, line and column, before anything is printed. What is right goes out through a buffer.
// The room for a file is made here once, and lent as an array.
#![tactic(auto)]

use console::files;
use console::source::Source;
use console::starts::{MOST, Starts};
use knot_files::asked;
use knot_lists::lists::List;
use knot_lists::notes::{print_box, print_given_box};
use knot_rows::knots::Knots;
use knot_rows::sides;
use messages::Outcome;
use printing::Output;
use std::rt::HostRuntime;
use words::Words;
use words::status::report;

fn main(rt: HostRuntime) {
    let words = Words::of_program(rt);
    let mut room = [0u8; files::ROOM];
    let outcome = carry_out(rt, &words, &mut room);
    report(&words, outcome);
}

// Carries out a command on the knots of a file: prints their box, or their indices.
fn carry_out(rt: HostRuntime, words: &Words, room: &mut [u8; files::ROOM]) -> Outcome {
    let path = asked::path(words);
    let text = files::read(rt, path, room)?;
    let (layout, columns) = knot_indices::laid_out(words, Source::of(path, text))?;
    let mut values = [0.0; 3 * MOST];
    let mut starts = Starts::none();
    let knots = knot_indices::read(layout, columns, &mut values, &mut starts)?;
    if asked::extent(words) {
        return print_extent(rt, words, &knots);
    }
    index(rt, words, &knots)
}

// Prints the box around knots, or the one that is given, which the script asks of no `extent`.
fn print_extent(rt: HostRuntime, words: &Words, knots: &Knots<'_>) -> Outcome {
    let mut out = Output::of(rt);
    if asked::ends(words) == 0 {
        print_box(&mut out, sides::around(knots).as_slice())?;
    } else {
        print_given_box(&mut out, words)?;
    }
    out.finish()
}

// Indexes knots and prints them, or says why they are refused.
fn index(rt: HostRuntime, words: &Words, knots: &Knots<'_>) -> Outcome {
    let sides = sides::asked(words, knots)?;
    let sides = sides.as_slice();
    let mut indices = [0u64; MOST];
    let indices = &mut indices[..knots.len().min(MOST)];
    knot_indices::index(words, knots, sides, indices)?;
    let list = List {
        knots,
        sides,
        indices,
    };
    list.print(rt, words)
}
