// From a cell of the 2D curve to its index, six levels at once by the table of `curve_table`.
//
// `encode_2d_with` asks of its caller that the table which it is lent keeps the rule; the other public functions ask nothing, and crate `curve`
// passes them on.
//
// A caller may rely on what curve_laws says of `encode2`: `decode_encode_2d`, `encode_decode_2d` (Demand2), `no_two_cells_share_an_index`;
// each promise has one answer (proofs/Once.antt, `encode_2d_only` and so on). The functions of 2D and of 3D stay apart, since docs/PROMISES.md and
// these laws name each.
#![tactic(auto)]

ghost use Rattle.std.specs.Prelude.{◌≡◌, ◌+◌, ◌*◌, ◌≤◌, ◌<◌};
ghost use Rattle.rules.specs.Curve.{level, encode, group_entry, plane, encode2, default_order};
ghost use Rattle.curve_laws.specs.Ruled.{Ruled};

use cell_tests::tested;
use rules::{DEFAULT_ORDER, Refusal, TOP_ORDER_2D};

// What the table says of a state and six levels of quadrants.
fn group_entry(table: &[u16; 16384], state: u64, quadrants: u64) -> u16
    requires { Ruled table.now × (state < 4) × (quadrants < 4096) }
    ensures { result ≡ group_entry plane 6 (4096 * state + quadrants) }
{
    table[(4096 * state + quadrants) as usize]
}

// The index whose quadrants are the levels of zorder, six levels at a time, from the top. The last group is filled up with zero bits, and
// its digits are shifted back.
fn walk_2d(table: &[u16; 16384], zorder: u64, order: u32) -> u64
    requires { Ruled table.now × (order ≤ 32) }
    ensures { result ≡ encode plane order 0 (λ k. level 2 k zorder) }
{
    let mut state: u64 = 0;
    let mut hilbert: u64 = 0;
    // The quadrants to come, the next of them in the topmost places.
    let mut quadrants = zorder.checked_shl(64 - 2 * order).unwrap_or(0);
    let whole = order.saturating_sub(1) / 6;
    for _group in (0..whole).rev() {
        let entry = group_entry(table, state, quadrants >> 52) as u64;
        hilbert = (hilbert << 12) | (entry & 0xfff);
        state = entry >> 12;
        quadrants <<= 12;
    }
    let left = order - 6 * whole;
    let padding = 12 - 2 * left;
    let entry = group_entry(table, state, quadrants >> 52) as u64;
    (hilbert << (2 * left)) | ((entry & 0xfff) >> padding)
}

// What encode_2d returns, with the table lent: for a caller over many cells. It takes any array that keeps the rule; a type with the rule as its
// invariant would ask callers for more than the array, and README names this function.
#[tactic(auto, using(curve_laws::proofs::Refusals::refused_2d))]
pub fn encode_2d_with(table: &[u16; 16384], x: u64, y: u64, order: u32) -> Result<u64, Refusal>
    requires { Ruled table.now }
    ensures { result ≡ encode2 x y order }
{
    tested([x, y], order, TOP_ORDER_2D)?;
    Ok(walk_2d(table, spread::zorder_2d(x, y, order), order))
}

// The index of the cell (x, y), or why it is refused, by the first test that does. The table is filled anew at every call, some 4,100
// instructions: over many cells, make it once and call encode_2d_with.
pub fn encode_2d(x: u64, y: u64, order: u32) -> Result<u64, Refusal>
    ensures { result ≡ encode2 x y order }
{
    let table = curve_table::table();
    encode_2d_with(&table, x, y, order)
}

// The same at the default order.
pub fn encode_2d_default(x: u64, y: u64) -> Result<u64, Refusal>
    ensures { result ≡ encode2 x y default_order }
{
    encode_2d(x, y, DEFAULT_ORDER)
}
