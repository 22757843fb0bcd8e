// From an index of the curve to its cell, level by level, by the inverses of the rows of 01's tables: one walk for the plane and for space.
//
// A caller may rely on what curve_laws says of `decode2` and `decode3`: `decode_encode_2d`, `encode_decode_2d` (Demand2), and that successive
// indices have neighbouring cells, `neighbours_2d`, `ends_2d` (NeighboursOnTheCurve), and so in 3D; each promise has one answer
// (proofs/Once.antt, `decode_2d_only` and so on). The public functions of 2D and of 3D stay apart, since docs/PROMISES.md and these laws name each.
#![tactic(auto)]

ghost use Rattle.std.specs.Prelude.{◌≡◌, ℕ, ◌+◌, ◌-◌, ◌*◌, ◌%◌, ◌^◌, ◌≤◌, ◌<◌, get_or, length};
ghost use Rattle.rules.specs.Refusals.{decode_tests, answer_by};
ghost use Rattle.rules.specs.Curve.{bit, decode2, decode3, default_order};
ghost use Rattle.curve_laws.specs.Undoes.{curve_in, cell_of, undo_entry, Undoes};

use rules::{DEFAULT_ORDER, Refusal, TOP_ORDER_2D, TOP_ORDER_3D};
use std::array;

// The rows' inverses in 2D, at 4 * state + digit: 4 * (next state) + quadrant.
#[rattlefmt::skip]
static UNDO_2D: [u8; 16] = [
    0b01_00, 0b00_01, 0b00_11, 0b11_10,
    0b00_00, 0b01_10, 0b01_11, 0b10_01,
    0b11_11, 0b10_10, 0b10_00, 0b01_01,
    0b10_11, 0b11_01, 0b11_00, 0b00_10,
];

// The same in 3D, at 8 * state + digit: 8 * (next state) + octant.
#[rattlefmt::skip]
static UNDO_3D: [u8; 96] = [
    0b0110_000, 0b0100_001, 0b0100_011, 0b0011_010, 0b0011_110, 0b1001_111, 0b1001_101, 0b0101_100,
    0b1001_110, 0b1000_100, 0b1000_000, 0b0110_010, 0b0110_011, 0b0011_001, 0b0011_101, 0b0111_111,
    0b0011_011, 0b1010_111, 0b1010_110, 0b1001_010, 0b1001_000, 0b0110_100, 0b0110_101, 0b1011_001,
    0b1010_011, 0b0010_010, 0b0010_000, 0b0000_001, 0b0000_101, 0b0111_100, 0b0111_110, 0b0001_111,
    0b0000_000, 0b0110_100, 0b0110_101, 0b0111_001, 0b0111_011, 0b1010_111, 0b1010_110, 0b1000_010,
    0b0111_101, 0b1011_111, 0b1011_011, 0b1010_001, 0b1010_000, 0b0000_010, 0b0000_110, 0b1001_100,
    0b0100_000, 0b0000_010, 0b0000_110, 0b0001_100, 0b0001_101, 0b1011_111, 0b1011_011, 0b0010_001,
    0b1011_101, 0b0101_001, 0b0101_000, 0b0100_100, 0b0100_110, 0b0001_010, 0b0001_011, 0b0011_111,
    0b0001_110, 0b1001_111, 0b1001_101, 0b1011_100, 0b1011_000, 0b0100_001, 0b0100_011, 0b1010_010,
    0b1000_110, 0b0001_010, 0b0001_011, 0b0010_111, 0b0010_101, 0b0101_001, 0b0101_000, 0b0000_100,
    0b0010_011, 0b0011_001, 0b0011_101, 0b0101_111, 0b0101_110, 0b1000_100, 0b1000_000, 0b0100_010,
    0b0101_101, 0b0111_100, 0b0111_110, 0b1000_111, 0b1000_011, 0b0010_010, 0b0010_000, 0b0110_001,
];

// What the table of inverses says of a state and a digit.
fn undo_entry<const D: usize>(undo: &[u8], state: u64, digit: u64) -> u64
    requires dimensions { (2 ≤ D) × (D ≤ 3) }
    requires undoes { Undoes (curve_in D) undo.now }
    requires within { (state < (curve_in D).states) × (digit < 2 ^ D) }
    ensures { result ≡ undo_entry (curve_in D) (2 ^ D * state + digit) }
{
    undo[((state << D) + digit) as usize] as u64
}

// The cell with one bit more of each coordinate, from the entry's quadrant, in which the last coordinate's bit weighs least.
fn deeper<const D: usize>(cell: [u64; D], entry: u64) -> [u64; D]
    requires dimensions { D ≤ 3 }
    requires room { (i : ℕ) → i < D → get_or cell i 0 < 2 ^ 32 }
    ensures axes { length result ≡ D }
    ensures at { (i : ℕ) → i < D → get_or result i 0 ≡ 2 * get_or cell.entry i 0 + bit (D - 1 - i) entry }
{
    array::from_fn(
        |i: usize| -> u64
            requires { (i < D) × (D ≤ 3) × (get_or cell i 0 < 2 ^ 32) }
            ensures { result ≡ 2 * get_or cell i 0 + bit (D - 1 - i) entry }
        { 2 * cell[i] + (entry >> (D - 1 - i)) % 2 },
    )
}

// The cell whose digits are the levels of index, one level after the other, from the top.
fn back<const D: usize>(undo: &[u8], index: u64, order: u32) -> [u64; D]
    requires dimensions { (2 ≤ D) × (D ≤ 3) }
    requires undoes { Undoes (curve_in D) undo.now }
    requires levels { (order ≤ 32) × (D * order ≤ 64) }
    ensures { result ≡ cell_of (curve_in D) order index D }
{
    let mut cell = [0; D];
    let mut state = 0;
    // The digits to come, the next of them in the topmost places.
    let mut digits = index.checked_shl(64 - D as u32 * order).unwrap_or(0);
    for _level in (0..order).rev() {
        let entry = undo_entry::<D>(undo, state, digits >> (64 - D));
        cell = deeper(cell, entry);
        state = entry >> D;
        digits <<= D;
    }
    cell
}

// The cell of an index, or why it is refused, by the first test that does.
fn decode<const D: usize>(
    undo: &[u8],
    index: u64,
    order: u32,
    most: u32,
) -> Result<[u64; D], Refusal>
    requires dimensions { (2 ≤ D) × (D ≤ 3) }
    requires undoes { Undoes (curve_in D) undo.now }
    requires levels { (most ≤ 32) × (D * most ≤ 64) }
    ensures { result ≡ answer_by (decode_tests D most order index) (cell_of (curve_in D) order index D) }
{
    if most < order {
        return Err(Refusal::Order);
    }
    if 0 < index.checked_shr(D as u32 * order).unwrap_or(0) {
        return Err(Refusal::Index);
    }
    Ok(back(undo, index, order))
}

// The cell of an index of the plane.
pub fn decode_2d(index: u64, order: u32) -> Result<[u64; 2], Refusal>
    ensures { result ≡ decode2 index order }
{
    decode(&UNDO_2D, index, order, TOP_ORDER_2D)
}

// The cell of an index of space.
pub fn decode_3d(index: u64, order: u32) -> Result<[u64; 3], Refusal>
    ensures { result ≡ decode3 index order }
{
    decode(&UNDO_3D, index, order, TOP_ORDER_3D)
}

// The same at the default order.
pub fn decode_2d_default(index: u64) -> Result<[u64; 2], Refusal>
    ensures { result ≡ decode2 index default_order }
{
    decode_2d(index, DEFAULT_ORDER)
}

// The same in 3D.
pub fn decode_3d_default(index: u64) -> Result<[u64; 3], Refusal>
    ensures { result ≡ decode3 index default_order }
{
    decode_3d(index, DEFAULT_ORDER)
}
