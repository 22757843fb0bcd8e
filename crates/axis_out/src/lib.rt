// The cell of a value on the axis of low, high and order, for callers that take no enum: the number of refusal is returned, and the cell goes
// behind a pointer, 0 after a refusal. The C interface calls it.
//
// The tests are those of the axis, 1, 6, 8, 7, then those of the value, 6, 8 (proofs/Between.antt, `between_refuses`). No second outcome fits
// (proofs/Once.antt, `cell_only`).
#![tactic(auto)]

ghost use Rattle.std.specs.Prelude.{◌≡◌};
ghost use Rattle.rules.specs.Refusals.{read_cell};
ghost use Rattle.axis_out.specs.Cells.{cell_between};

use apart::apart;
use rules::Refusal;

// The cell of a value on the axis of low, high and order, or the refusal of either.
#[tactic(auto, unfolding(crate::specs::Cells::cell_from))]
fn cell_between(low: f64, high: f64, order: u32, value: f64) -> Result<u64, Refusal>
    ensures { result ≡ cell_between low high order value }
{
    let axis = axis_make::make_axis(low, high, order)?;
    axis_cell::cell(axis, value)
}

// The number of refusal of a value on the axis of low, high and order; its cell, or 0, in `cell`.
pub fn cell(low: f64, high: f64, order: u32, value: f64, cell: &mut u64) -> u32
    ensures number { result ≡ (read_cell (cell_between low high order value)).number }
    ensures value { cell.new ≡ (read_cell (cell_between low high order value)).value }
{
    let (number, found) = apart(cell_between(low, high, order, value), 0);
    *cell = found;
    number
}
