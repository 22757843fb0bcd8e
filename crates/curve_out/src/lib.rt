// The curve's answers taken apart, for callers that take no enum: the number of refusal is returned, and each value goes behind a pointer, 0
// after a refusal. The C interface calls these.
//
// Number and values are those that the answer stands for (`read_coded` and its like), so that a caller may rely on all that holds of the
// answer. No second outcome fits (proofs/Once.antt, `encode_2d_only` and so on).
#![tactic(auto)]

ghost use Rattle.std.specs.Prelude.{◌≡◌, get_or};
ghost use Rattle.rules.specs.Refusals.{read_coded, read_cell2, read_cell3};
ghost use Rattle.rules.specs.Curve.{encode2, encode3, decode2, decode3};

use apart::apart;

// The number of refusal of a cell; its index, or 0, in `index`.
pub fn encode_2d(x: u64, y: u64, order: u32, index: &mut u64) -> u32
    ensures number { result ≡ (read_coded (encode2 x y order)).number }
    ensures value { index.new ≡ (read_coded (encode2 x y order)).value }
{
    let (number, value) = apart(curve::encode_2d(x, y, order), 0);
    *index = value;
    number
}

// The number of refusal of a cell; its index, or 0, in `index`.
pub fn encode_3d(x: u64, y: u64, z: u64, order: u32, index: &mut u64) -> u32
    ensures number { result ≡ (read_coded (encode3 x y z order)).number }
    ensures value { index.new ≡ (read_coded (encode3 x y z order)).value }
{
    let (number, value) = apart(curve::encode_3d(x, y, z, order), 0);
    *index = value;
    number
}

// The number of refusal of an index; its cell, or 0, in `x` and `y`.
pub fn decode_2d(index: u64, order: u32, x: &mut u64, y: &mut u64) -> u32
    ensures number { result ≡ (read_cell2 (decode2 index order)).number }
    ensures x { x.new ≡ get_or (read_cell2 (decode2 index order)).value 0 0 }
    ensures y { y.new ≡ get_or (read_cell2 (decode2 index order)).value 1 0 }
{
    let (number, cell) = apart(curve::decode_2d(index, order), [0, 0]);
    [*x, *y] = cell;
    number
}

// The number of refusal of an index; its cell, or 0, in `x`, `y` and `z`.
pub fn decode_3d(index: u64, order: u32, x: &mut u64, y: &mut u64, z: &mut u64) -> u32
    ensures number { result ≡ (read_cell3 (decode3 index order)).number }
    ensures x { x.new ≡ get_or (read_cell3 (decode3 index order)).value 0 0 }
    ensures y { y.new ≡ get_or (read_cell3 (decode3 index order)).value 1 0 }
    ensures z { z.new ≡ get_or (read_cell3 (decode3 index order)).value 2 0 }
{
    let (number, cell) = apart(curve::decode_3d(index, order), [0, 0, 0]);
    [*x, *y, *z] = cell;
    number
}
