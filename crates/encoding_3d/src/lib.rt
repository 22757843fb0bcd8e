// From a cell of the 3D curve to its index, level by level, by the table of 01. The plane's walk is another one, for speed: it takes six levels at
// once, of which a table would have 12 * 8^6 entries here.
//
// A caller may rely on what curve_laws says of `encode3`: `decode_encode_3d`, `encode_decode_3d` (Demand2), `no_two_cells_share_an_index`;
// each promise has one answer (proofs/Once.antt, `encode_3d_only` and so on). The functions of 2D and of 3D stay apart, since docs/PROMISES.md and
// these laws name each.
#![tactic(auto)]

ghost use Rattle.std.specs.Prelude.{◌≡◌, ◌%◌, ◌≤◌, ◌<◌, get_or};
ghost use Rattle.std.specs.Int.Bits.{bit_or};
ghost use Rattle.rules.specs.Refusals.{top3};
ghost use Rattle.rules.specs.Curve.{level, encode, octant_table, space, encode3, default_order};

use cell_tests::tested;
use rules::{DEFAULT_ORDER, Refusal, TOP_ORDER_3D};

// At 8 * state + octant: 8 * (next state) + digit.
#[rattlefmt::skip]
static LUT: [u8; 96] = [
    0b0110_000, 0b0100_001, 0b0011_011, 0b0100_010, 0b0101_111, 0b1001_110, 0b0011_100, 0b1001_101,
    0b1000_010, 0b0011_101, 0b0110_011, 0b0110_100, 0b1000_001, 0b0011_110, 0b1001_000, 0b0111_111,
    0b1001_100, 0b1011_111, 0b1001_011, 0b0011_000, 0b0110_101, 0b0110_110, 0b1010_010, 0b1010_001,
    0b0010_010, 0b0000_011, 0b0010_001, 0b1010_000, 0b0111_101, 0b0000_100, 0b0111_110, 0b0001_111,
    0b0000_000, 0b0111_011, 0b1000_111, 0b0111_100, 0b0110_001, 0b0110_010, 0b1010_110, 0b1010_101,
    0b1010_100, 0b1010_011, 0b0000_101, 0b1011_010, 0b1001_111, 0b0111_000, 0b0000_110, 0b1011_001,
    0b0100_000, 0b0010_111, 0b0000_001, 0b1011_110, 0b0001_011, 0b0001_100, 0b0000_010, 0b1011_101,
    0b0101_010, 0b0101_001, 0b0001_101, 0b0001_110, 0b0100_011, 0b1011_000, 0b0100_100, 0b0011_111,
    0b1011_100, 0b0100_101, 0b1010_111, 0b0100_110, 0b1011_011, 0b1001_010, 0b0001_000, 0b1001_001,
    0b0101_110, 0b0101_101, 0b0001_001, 0b0001_010, 0b0000_111, 0b0010_100, 0b1000_000, 0b0010_011,
    0b1000_110, 0b0011_001, 0b0100_111, 0b0010_000, 0b1000_101, 0b0011_010, 0b0101_100, 0b0101_011,
    0b0010_110, 0b0110_111, 0b0010_101, 0b1000_100, 0b0111_001, 0b0101_000, 0b0111_010, 0b1000_011,
];

// What the table says of config, which is 8 * state, and an octant.
fn octant_entry(lut: &[u8; 96], config: u64, octant: u64) -> u8
    requires { (lut.now ≡ octant_table) × (config % 8 ≡ 0) × (config < 96) × (octant < 8) }
    ensures { result ≡ get_or octant_table (bit_or config octant) 0 }
{
    lut[(config | octant) as usize]
}

// The index whose octants are the levels of zorder, one level after the other, from the top.
fn walk_3d(lut: &[u8; 96], zorder: u64, order: u32) -> u64
    requires { (lut.now ≡ octant_table) × (order ≤ top3) }
    ensures { result ≡ encode space order 0 (λ k. level 3 k zorder) }
{
    let mut config: u64 = 0;
    let mut hilbert: u64 = 0;
    // The octants to come, the next of them in the topmost places.
    let mut octants = zorder.checked_shl(64 - 3 * order).unwrap_or(0);
    for _level in (0..order).rev() {
        let entry = octant_entry(lut, config, octants >> 61) as u64;
        hilbert = (hilbert << 3) | (entry & 7);
        config = entry & !7;
        octants <<= 3;
    }
    hilbert
}

// The index of the cell (x, y, z), or why it is refused, by the first test that does.
#[tactic(auto, using(curve_laws::proofs::Refusals::refused_3d))]
pub fn encode_3d(x: u64, y: u64, z: u64, order: u32) -> Result<u64, Refusal>
    ensures { result ≡ encode3 x y z order }
{
    tested([x, y, z], order, TOP_ORDER_3D)?;
    Ok(walk_3d(&LUT, spread::zorder_3d(x, y, z, order), order))
}

// The same at the default order.
pub fn encode_3d_default(x: u64, y: u64, z: u64) -> Result<u64, Refusal>
    ensures { result ≡ encode3 x y z default_order }
{
    encode_3d(x, y, z, DEFAULT_ORDER)
}
