// Lines of a file, each behind a number, as `index`, `parts` and `replay` print them.
//
// Every function is proved safe, and to end; what is written no contract can say, and the gate compares it.
#![tactic(auto)]

use console::source::Source;
use knot_files::layout::Layout;
use messages::Outcome;
use printing::Output;
use std::fmt::{Display, Write};

// Prints the header behind the name of the column that comes before it, where there is one.
pub fn print_header(out: &mut Output, name: &str, layout: Layout<'_>) -> Outcome
    ensures { Unit {0} }
{
    match layout.header() {
        Some(line) => print_line(out, name, layout.source, line.start),
        None => Ok(()),
    }
}

// Prints the line that starts at a place behind a number or a name.
fn print_line<N: Display + Drop>(
    out: &mut Output,
    number: N,
    source: Source<'_>,
    start: usize,
) -> Outcome {
    write!(out, "{number}")?;
    out.bytes(&[source.separator])?;
    out.bytes(source.line(start).bytes())?;
    out.write_str("\n")?;
    Ok(())
}

// Prints the lines that start at these places, each behind its number.
pub fn print_lines<N: Display + Copy>(
    out: &mut Output,
    source: Source<'_>,
    starts: &[u32],
    numbers: &[N],
) -> Outcome
    ensures { Unit {0} }
{
    for (start, number) in starts.iter().zip(numbers) {
        print_line(out, *number, source, *start as usize)?;
    }
    Ok(())
}

// Prints lines in another order, which names each by its place among the starts and the numbers.
pub fn print_lines_in_order<N: Display + Copy>(
    out: &mut Output,
    source: Source<'_>,
    order: &[u32],
    starts: &[u32],
    numbers: &[N],
) -> Outcome
    ensures { Unit {0} }
{
    for line in order {
        let i = *line as usize;
        if let (Some(start), Some(number)) = (starts.get(i), numbers.get(i)) {
            print_line(out, *number, source, *start as usize)?;
        }
    }
    Ok(())
}
