// What the picture is, above it: the file, how many knots, dimension, order, parts, and how many share a cell.
use crate::asked;
use crate::spots::{Drawn, Mark};
use drawing::titles::{Count, FileName};
use knot_files::asked::{order, path};
use messages::Outcome;
use printing::Output;
use std::fmt::Write;
use words::Words;

// Prints the title and, below it, what is marked.
pub(crate) fn print(out: &mut Output, words: &Words, drawn: Drawn<'_>) -> Outcome {
    print_title(out, words, drawn)?;
    out.write_str("<text x='115' y='56' fill='#444'>joined in the order of their index; ")?;
    let mut cells: u64 = 0;
    let mut knots: usize = 0;
    for spot in drawn.spots().filter(|spot| spot.shares()) {
        knots = knots.saturating_add(1);
        if spot.mark == Mark::First {
            cells = cells.saturating_add(1);
        }
    }
    if knots == 0 {
        out.write_str("no two share a cell")?;
    } else {
        let cells = Count {
            n: cells,
            name: "cell",
        };
        write!(out, "ringed: {knots} knots that share {cells}")?;
    }
    out.write_str("</text>\n")?;
    Ok(())
}

fn print_title(out: &mut Output, words: &Words, drawn: Drawn<'_>) -> Outcome {
    let file = FileName {
        path: path(words),
        most: 40,
    };
    let knots = Count {
        n: drawn.knots.len() as u64,
        name: "knot",
    };
    let dimension = drawn.sides.len();
    let order = order(words);
    write!(
        out,
        "<text x='115' y='34' font-size='18' font-weight='bold'>{file}: {knots} in {dimension}d, order {order}"
    )?;
    if let Some(count) = asked::parts(words) {
        let parts = Count {
            n: u64::from(count),
            name: "part",
        };
        write!(out, ", in {parts}")?;
    }
    out.write_str("</text>\n")?;
    Ok(())
}
