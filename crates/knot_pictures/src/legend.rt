// The parts beside the picture: the colour of each, how many knots it has and, where weights are asked for, what they weigh.
use crate::asked;
use divisions::sums::{Sum, Sums};
use drawing::colours::Colour;
use messages::Outcome;
use printing::Output;
use std::fmt::Write;
use words::Words;

// How many lines there is room for.
const LINES: usize = 40;

// Prints the parts, where they are asked for.
pub(crate) fn print(out: &mut Output, words: &Words, sums: &Sums) -> Outcome {
    if asked::parts(words).is_none() {
        return Ok(());
    }
    let weighed = !asked::weights(words).is_empty();
    let head = if weighed { ", weight" } else { "" };
    write!(
        out,
        "<g font-size='10'>\n<text x='1045' y='98'>part: knots{head}</text>\n"
    )?;
    let parts = sums.parts();
    let shown = shown(parts.len());
    for (part, sum) in parts.iter().enumerate().take(shown) {
        print_part(out, part, *sum, weighed)?;
    }
    let others = parts.len().saturating_sub(shown);
    if others != 0 {
        let base = base_of(shown);
        writeln!(
            out,
            "<text x='1061' y='{base}'>and {others} parts more</text>"
        )?;
    }
    out.write_str("</g>\n")?;
    Ok(())
}

// How many of so many parts have a line: all, or all that leave room for a line that counts the others.
fn shown(count: usize) -> usize {
    if count <= LINES { count } else { LINES - 1 }
}

// Where the text of line `i` stands.
fn base_of(i: usize) -> usize {
    i.saturating_mul(18).saturating_add(119)
}

// Prints the line of a part, behind a disc in its colour.
fn print_part(out: &mut Output, part: usize, sum: Sum, weighed: bool) -> Outcome {
    let base = base_of(part);
    let middle = base.saturating_sub(4);
    let colour = Colour(part as u64);
    let points = sum.points;
    write!(
        out,
        "<circle cx='1051' r='5' cy='{middle}' fill='{colour}'/><text x='1061' y='{base}'>{part}: {points}"
    )?;
    if weighed {
        let weight = sum.weight;
        write!(out, ", {weight}")?;
    }
    out.write_str("</text>\n")?;
    Ok(())
}
