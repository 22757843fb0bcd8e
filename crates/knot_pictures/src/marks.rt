// The marks on the knots: the line through them, dots, rings where cells are shared, the first and the last. Sizes are in tenths of a
// pixel, and smaller the more knots there are.
use crate::paths::{print_dots, print_line, print_uses};
use crate::spots::{Drawn, HEIGHT, ROOM, WIDTH};
use drawing::ends::{Ends, Place};
use messages::Outcome;
use printing::Output;
use std::fmt::Write;

// How wide a dot is.
fn dot(n: usize) -> u64 {
    match n {
        0..=400 => 64,
        401..=2000 => 46,
        2001..=10000 => 30,
        _ => 18,
    }
}

// How wide the line is.
fn thin(n: usize) -> u64 {
    match n {
        0..=400 => 8,
        401..=10000 => 5,
        _ => 2,
    }
}

// Prints all marks, dots above the rings, so that no ring hides a knot near it.
pub(crate) fn print(out: &mut Output, drawn: Drawn<'_>) -> Outcome {
    let n = drawn.knots.len();
    let thin = thin(n);
    write!(out, "<path stroke='#888' stroke-width='{thin}' d='")?;
    print_line(out, drawn)?;
    out.write_str("'/>\n")?;
    let dot = dot(n);
    print_rings(out, drawn, dot)?;
    writeln!(out, "<g stroke-width='{dot}'>")?;
    print_dots(out, drawn, false)?;
    write!(out, "</g>\n<g stroke-width='{dot}'>\n")?;
    print_uses(out, drawn)?;
    out.write_str("</g>\n")?;
    print_ends(out, drawn)
}

// Prints a ring around each of the knots that share their cell: all their paths as black discs, and once more as smaller white ones.
fn print_rings(out: &mut Output, drawn: Drawn<'_>, dot: u64) -> Outcome {
    out.write_str("<defs><g id='shared'>\n")?;
    print_dots(out, drawn, true)?;
    out.write_str("</g></defs>\n")?;
    for (colour, more) in [("black", 64), ("white", 40)] {
        let width = dot.saturating_add(more);
        writeln!(
            out,
            "<use href='#shared' stroke='{colour}' stroke-width='{width}'/>"
        )?;
    }
    Ok(())
}

// Prints marks on the first and the last of the knots.
fn print_ends(out: &mut Output, drawn: Drawn<'_>) -> Outcome {
    let mut spots = drawn.spots();
    let Some(first) = spots.next() else {
        return Ok(());
    };
    let ends = Ends {
        first: drawn.place_of(first.knot),
        last: spots.last().map(|spot| drawn.place_of(spot.knot)),
        middle: Place {
            x: ROOM + WIDTH / 2,
            y: ROOM + HEIGHT / 2,
        },
    };
    write!(out, "{ends}")?;
    Ok(())
}
