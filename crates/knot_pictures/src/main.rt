// The command line's part for pictures of knots: draws them as SVG on two of their axes, joined in the order of their index, the cells that
// several share marked, and in the colours of their parts along the curve where parts are asked for.
//
// The script skarvolm knows the commands and hands their words on, each in its place (`asked`). Everything is worked out before anything is
// printed, so that what is wrong is said and no picture is begun. The room for a file is made here once, and lent as an array.
#![tactic(auto)]

mod asked;
mod axes;
mod frame;
mod labels;
mod legend;
mod marks;
mod paths;
mod picture;
mod spots;
mod titles;
mod weighed;

use axes::Axes;
use console::files;
use console::source::Source;
use console::starts::{MOST, Starts};
use divisions::division::Division;
use divisions::sums::Sums;
use knot_files::asked::path;
use knot_rows::knots::Knots;
use knot_rows::sides;
use messages::Outcome;
use spots::Drawn;
use std::rt::HostRuntime;
use whole_files::numbers::Numbers;
use words::Words;
use words::status::report;

fn main(rt: HostRuntime) {
    let words = Words::of_program(rt);
    let mut room = [0u8; files::ROOM];
    let outcome = carry_out(rt, &words, &mut room);
    report(&words, outcome);
}

// Reads the knots of a file and draws them.
fn carry_out(rt: HostRuntime, words: &Words, room: &mut [u8; files::ROOM]) -> Outcome {
    let path = path(words);
    let text = files::read(rt, path, room)?;
    let (layout, columns) = knot_indices::laid_out(words, Source::of(path, text))?;
    let mut values = [0.0; 3 * MOST];
    let mut starts = Starts::none();
    let knots = knot_indices::read(layout, columns, &mut values, &mut starts)?;
    let mut weights = Numbers::new();
    draw(rt, words, &knots, &mut weights)
}

// Indexes knots, divides them and draws them, or says why that is refused.
fn draw(rt: HostRuntime, words: &Words, knots: &Knots<'_>, weights: &mut Numbers) -> Outcome {
    let axes = Axes::of(words, knots)?;
    let sides = sides::asked(words, knots)?;
    let n = knots.len().min(MOST);
    let mut indices = [0u64; MOST];
    knot_indices::index(words, knots, sides.as_slice(), &mut indices[..n])?;
    weighed::read(words, knots, weights)?;
    let mut parts = [0u32; MOST];
    let mut order = [0u32; MOST];
    let count = asked::parts(words).unwrap_or(1);
    let division = Division::of(
        path(words),
        count,
        &indices[..n],
        weights.as_slice(),
        &mut parts[..n],
        &mut order[..n],
    )?;
    let drawn = Drawn {
        knots,
        sides: sides.as_slice(),
        axes,
        division,
    };
    picture::print(rt, words, drawn, &Sums::of(count, division))
}
