// Why knots are refused, with what can be said of the file: the column of a thin axis, the lines outside a box.
//
// Every function is proved safe, and to end; what is said no contract can say, and the gate compares it.
#![tactic(auto)]

use console::faults::{Faults, Refused, Wrong};
use knot_rows::knots::Knots;
use knot_rows::sides::Side;
use messages::{Failure, Quoted, failed};
use rules::{Extent, Refusal};

// Says why knots are refused in a box of these sides.
pub fn refused(knots: &Knots<'_>, sides: &[Side<'_>], refusal: Refusal) -> Failure
    ensures { Unit {0} }
{
    let path = knots.layout.source.path;
    let refused = Refused(refusal);
    for (column, side) in knots.columns.places().iter().zip(sides) {
        if is_refused(side.extent(), refusal) {
            let column = column.saturating_add(1);
            let low = Quoted(side.low.written);
            let high = Quoted(side.high.written);
            return failed(
                path,
                format_args!("column {column} goes from {low} to {high}: {refused}"),
            );
        }
    }
    if refusal == Refusal::Outside {
        return outside(knots, sides);
    }
    failed(path, refused)
}

// Whether an axis is refused for its ends by this refusal.
fn is_refused(side: Extent, refusal: Refusal) -> bool {
    let Extent { low, high } = side;
    match refusal {
        Refusal::Outside => high < low,
        Refusal::Thin => low != high && high - low < rules::LEAST_WIDTH,
        _ => false,
    }
}

// Says which coordinates lie outside a box.
fn outside(knots: &Knots<'_>, sides: &[Side<'_>]) -> Failure {
    let mut faults = Faults::none();
    // By number: a knot's values and fields are asked for by it.
    for knot in 0..knots.len() {
        if faults.is_full() {
            break;
        }
        for (axis, side) in sides.iter().enumerate() {
            let Extent { low, high } = side.extent();
            let value = knots.value(axis, knot);
            if value < low || high < value {
                if let Some(field) = knots.field(axis, knot) {
                    faults.note(Wrong::Refused(Refusal::Outside), field);
                }
            }
        }
    }
    let _ = faults.say_all(knots.layout.source);
    Failure::Failed
}
