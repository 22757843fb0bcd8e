// The parts of points, and their lines.
use crate::points::Points;
use crate::{asked, summary};
use console::starts::MOST;
use divisions::division::Division;
use messages::Outcome;
use numbered_lines::{print_header, print_lines, print_lines_in_order};
use printing::Output;
use std::fmt::Write;
use std::rt::HostRuntime;
use whole_files::noted::Note;
use words::Words;

// Divides points and prints what is asked for, or says why that is refused.
pub(crate) fn divide(
    rt: HostRuntime,
    words: &Words,
    note: Option<&Note<'_>>,
    points: &Points<'_>,
) -> Outcome {
    let mut parts = [0u32; MOST];
    let mut order = [0u32; MOST];
    let n = points.indices.len();
    let division = Division::of(
        asked::path(words),
        asked::count(words),
        points.indices.as_slice(),
        points.weights.as_slice(),
        &mut parts[..n],
        &mut order[..n],
    )?;
    if asked::summary(words) {
        return summary::print(rt, asked::count(words), division);
    }
    print(rt, words, note, points, division)
}

// Prints each point's line behind its part.
fn print(
    rt: HostRuntime,
    words: &Words,
    note: Option<&Note<'_>>,
    points: &Points<'_>,
    division: Division<'_>,
) -> Outcome {
    let mut out = Output::of(rt);
    if let Some(note) = note {
        print_note(&mut out, words, note)?;
    }
    print_header(&mut out, "part", points.layout)?;
    let source = points.layout.source;
    let starts = points.starts.places();
    if asked::sorted(words) {
        print_lines_in_order(&mut out, source, division.order(), starts, division.parts())?;
    } else {
        print_lines(&mut out, source, starts, division.parts())?;
    }
    out.finish()
}

// Prints the line that says what is divided, where the list says what it is.
fn print_note(out: &mut Output, words: &Words, note: &Note<'_>) -> Outcome {
    let count = asked::count(words);
    write!(out, "# skarvolm parts {count} of ")?;
    out.bytes(note.said)?;
    out.write_str("\n")?;
    Ok(())
}
