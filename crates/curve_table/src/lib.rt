// The table of six levels of the 2D curve at once.
//
// Entry 4096 * s + z is 4096 * (end state) + (six digits), for the state s and 12 interleaved bits z. That rule is computed at every entry
// (crates table_states_0_1, table_states_2_3), and only one table keeps it (proofs/Once.antt, `table_only`).
//
// A constant of this size is refused by today's compiler, so that the table is the result of a function, and is filled anew at every call:
// a caller over many cells makes it once, and lends it.
//
// State after state is laid by a function that first calls the one for the states before. So the compiler leaves them as four functions of
// 4,096 constants; laid by one function, all 16,384 are laid out in its caller, and one pass over them takes it half a minute.
#![tactic(auto)]

ghost use Rattle.std.specs.Prelude.{◌+◌, ◌*◌, ◌<◌};
ghost use Rattle.curve_laws.specs.Ruled.{Ruled, RuledBelow, RuledQuarter, RuledState};

use table_states_0_1::{state_0, state_1};
use table_states_2_3::{state_2, state_3};

// Writes quarter n behind the quarters before it. Its place is told by n: of mutable chunks nothing is known of the whole table at the end.
fn lay_quarter(table: &mut [u16; 16384], n: usize, entries: &[u16; 1024])
    requires n_bound { (n < 16) × RuledQuarter n entries.now }
    requires laid { RuledBelow (1024 * n) table.old }
    ensures { RuledBelow (1024 * n + 1024) table.new }
{
    table[1024 * n..1024 * n + 1024].copy_from_slice(entries);
}

// Writes the entries of a state behind those of the states before it.
fn lay(table: &mut [u16; 16384], state: usize, quarters: &[[u16; 1024]; 4])
    requires state_bound { (state < 4) × RuledState state quarters.now }
    requires laid { RuledBelow (4096 * state) table.old }
    ensures { RuledBelow (4096 * state + 4096) table.new }
{
    for (q, entries) in quarters.iter().enumerate() {
        lay_quarter(table, 4 * state + q, entries);
    }
}

// Writes the entries of state 0.
fn lay_state_0(table: &mut [u16; 16384])
    ensures { RuledBelow 4096 table.new }
{
    lay(table, 0, &state_0());
}

// Writes the entries of states 0 and 1.
fn lay_to_state_1(table: &mut [u16; 16384])
    ensures { RuledBelow 8192 table.new }
{
    lay_state_0(table);
    lay(table, 1, &state_1());
}

// Writes the entries of states 0 to 2.
fn lay_to_state_2(table: &mut [u16; 16384])
    ensures { RuledBelow 12288 table.new }
{
    lay_to_state_1(table);
    lay(table, 2, &state_2());
}

// Writes the entries of all states.
fn lay_to_state_3(table: &mut [u16; 16384])
    ensures { Ruled table.new }
{
    lay_to_state_2(table);
    lay(table, 3, &state_3());
}

// The table: each entry is what six steps of the slow machine give.
pub fn table() -> [u16; 16384]
    ensures { Ruled result }
{
    let mut table = [0u16; 16384];
    lay_to_state_3(&mut table);
    table
}
