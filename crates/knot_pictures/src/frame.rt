// The frame, its two axes and what is written at them, and at low orders the borders of the cells.
use crate::axes::Axes;
use crate::labels::{Name, Short};
use crate::spots::{Drawn, HEIGHT, ROOM, WIDTH};
use knot_rows::sides::Side;
use messages::Outcome;
use printing::Output;
use std::fmt::Write;

// Prints what is written at the axes, begins the group of what is drawn in tenths of a pixel, and prints the frame.
pub(crate) fn print(out: &mut Output, order: u32, drawn: Drawn<'_>) -> Outcome {
    let across = drawn.side(drawn.axes.across);
    let up = drawn.side(drawn.axes.up);
    print_names(out, drawn)?;
    out.write_str("<g font-size='11'>\n")?;
    let below = [
        "x='140' y='862'",
        "x='1008' y='862' text-anchor='end'",
        "x='574' y='862' text-anchor='middle'",
    ];
    print_ends(out, across, below)?;
    let beside = [
        "x='105' y='814' text-anchor='end'",
        "x='105' y='124' text-anchor='end'",
        "x='105' y='469' text-anchor='end'",
    ];
    print_ends(out, up, beside)?;
    out.write_str(
        "</g>\n<g transform='translate(115 90) scale(.1)' fill='none' stroke-linecap='round' stroke-linejoin='round'>\n",
    )?;
    if drawn.axes.aslant.is_none() {
        print_borders(out, cells(across, order), cells(up, order))?;
    }
    out.write_str("<path stroke='#666' stroke-width='10' d='M0 0h9180v7500h-9180z")?;
    out.write_str(if is_sloped(across) {
        "M300 7500v60M8880 7500v60"
    } else {
        "M4590 7500v60"
    })?;
    out.write_str(if is_sloped(up) {
        "M0 300h-60M0 7200h-60"
    } else {
        "M0 3750h-60"
    })?;
    out.write_str("'/>\n")?;
    Ok(())
}

// Whether a side of the box has a width.
fn is_sloped(side: Side<'_>) -> bool {
    side.low.value < side.high.value
}

// How many cells there are along a side where their borders are drawn, 1 where they are not.
fn cells(side: Side<'_>, order: u32) -> u64 {
    match order {
        1..=5 if is_sloped(side) => 1 << order,
        _ => 1,
    }
}

// Prints the borders between cells across and up.
fn print_borders(out: &mut Output, across: u64, up: u64) -> Outcome {
    out.write_str("<path stroke='#ddd' stroke-width='8' d='M0 0")?;
    for i in 1..across {
        let place = border(i, across, WIDTH);
        write!(out, "M{place} 300v6900")?;
    }
    for i in 1..up {
        let place = border(i, up, HEIGHT);
        write!(out, "M300 {place}h8580")?;
    }
    out.write_str("'/>\n")?;
    Ok(())
}

// Where border `i` between so many cells of a side lies that goes so far.
fn border(i: u64, cells: u64, length: u64) -> u64 {
    let before = i.saturating_mul(length).checked_div(cells).unwrap_or(0);
    before.saturating_add(ROOM)
}

// Prints the names of the axes, and from where to where one goes that goes aslant.
fn print_names(out: &mut Output, drawn: Drawn<'_>) -> Outcome {
    let Axes { across, up, aslant } = drawn.axes;
    let name = name_of(drawn, across);
    writeln!(
        out,
        "<text x='574' y='884' text-anchor='middle'>{name} &#8594;</text>"
    )?;
    let name = name_of(drawn, up);
    writeln!(out, "<text x='115' y='82'>&#8593; {name}</text>")?;
    if let Some(axis) = aslant {
        let name = name_of(drawn, axis);
        let side = drawn.side(axis);
        let low = Short(side.low);
        let high = Short(side.high);
        writeln!(
            out,
            "<text x='1033' y='82' text-anchor='end'>&#8599; {name}, from {low} to {high}</text>"
        )?;
    }
    Ok(())
}

// The name of an axis.
fn name_of(drawn: Drawn<'_>, axis: usize) -> Name<'_> {
    let columns = drawn.knots.columns;
    Name {
        layout: drawn.knots.layout,
        column: columns.places().get(axis).copied().unwrap_or(0),
    }
}

// Prints the ends of a side at the first two places, or its one value at the third where it is flat.
fn print_ends(out: &mut Output, side: Side<'_>, places: [&str; 3]) -> Outcome {
    let [start, end, middle] = places;
    let low = Short(side.low);
    let high = Short(side.high);
    if is_sloped(side) {
        write!(
            out,
            "<text {start}>{low}</text>\n<text {end}>{high}</text>\n"
        )?;
    } else {
        writeln!(out, "<text {middle}>{low}</text>")?;
    }
    Ok(())
}
