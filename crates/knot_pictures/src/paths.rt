// The knots as paths: one through all of them, and for each part one of strokes without length, whose round ends are the dots.
use crate::spots::Drawn;
use drawing::colours::Colour;
use drawing::ends::Place;
use messages::Outcome;
use printing::Output;
use std::fmt::Write;

// Prints the spots of all knots as one path, 16 on a line.
pub(crate) fn print_line(out: &mut Output, drawn: Drawn<'_>) -> Outcome {
    for (i, spot) in drawn.spots().enumerate() {
        let before = match i {
            0 => "M",
            i if i % 16 == 0 => "\n",
            _ => " ",
        };
        let Place { x, y } = drawn.place_of(spot.knot);
        write!(out, "{before}{x} {y}")?;
    }
    Ok(())
}

// Prints the dots of the knots that share their cell, in paths with names, or of the others, in paths with colours. A path has the knots
// of a part.
pub(crate) fn print_dots(out: &mut Output, drawn: Drawn<'_>, shared: bool) -> Outcome {
    let mut open = None;
    for spot in drawn.spots() {
        if spot.shares() != shared {
            continue;
        }
        if open != Some(spot.part) {
            end(out, open)?;
            begin(out, spot.part, shared)?;
            open = Some(spot.part);
        }
        let Place { x, y } = drawn.place_of(spot.knot);
        write!(out, "M{x} {y}h0")?;
    }
    end(out, open)
}

// Begins the path of a part: with its name, or with its colour.
fn begin(out: &mut Output, part: u32, named: bool) -> Outcome {
    let colour = Colour(u64::from(part));
    if named {
        write!(out, "<path id='p{part}' d='")?;
    } else {
        write!(out, "<path stroke='{colour}' d='")?;
    }
    Ok(())
}

// Ends the path of a part, where one is open.
fn end(out: &mut Output, open: Option<u32>) -> Outcome {
    if open.is_some() {
        out.write_str("'/>\n")?;
    }
    Ok(())
}

// Prints the paths with names, each in the colour of its part.
pub(crate) fn print_uses(out: &mut Output, drawn: Drawn<'_>) -> Outcome {
    let mut last = None;
    for spot in drawn.spots() {
        let part = spot.part;
        if spot.shares() && last != Some(part) {
            let colour = Colour(u64::from(part));
            writeln!(out, "<use href='#p{part}' stroke='{colour}'/>")?;
            last = Some(part);
        }
    }
    Ok(())
}
