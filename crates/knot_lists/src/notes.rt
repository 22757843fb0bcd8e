// The line that says what a list of indices is: dimension, order and box, in the words that `index` takes.
use knot_files::asked;
use knot_rows::sides::Side;
use messages::Outcome;
use printing::Output;
use std::fmt::Write;
use words::Words;

// Prints `box` and the ends of its sides, each as the command or the file has it, so that it names the same number.
pub fn print_box(out: &mut Output, sides: &[Side<'_>]) -> Outcome
    ensures { Unit {0} }
{
    out.write_str("box")?;
    for side in sides {
        for end in [side.low, side.high] {
            out.write_str(" ")?;
            out.bytes(end.written)?;
        }
    }
    out.write_str("\n")?;
    Ok(())
}

// Prints `box` and the ends that a command gives, as it writes them.
pub fn print_given_box(out: &mut Output, words: &Words) -> Outcome
    ensures { Unit {0} }
{
    out.write_str("box")?;
    for i in 0..asked::ends(words) {
        out.write_str(" ")?;
        out.bytes(words.word(asked::BOX + i))?;
    }
    out.write_str("\n")?;
    Ok(())
}

// Prints the line that says what the list is.
pub(crate) fn print_note(out: &mut Output, words: &Words, sides: &[Side<'_>]) -> Outcome {
    let dimension = sides.len();
    let order = asked::order(words);
    write!(out, "# skarvolm {dimension}d order {order} ")?;
    print_box(out, sides)
}
