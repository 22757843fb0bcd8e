// The C interface, which `skarvolm_c` exports; include/skarvolm.h declares it.
//
// Each function hands its call on: values behind pointers are those of `curve_out` and `axis_out`, 0 after a refusal; a slice is a pointer and a
// length, and is as it was after a refusal. Number and values are those that the rules' answers stand for (`read_coded` and its like). No second
// outcome fits (proofs/Once.antt, `skarvolm_encode_2d_only` and so on); the demands hold of every outcome that fits (crate demands_met).
#![tactic(auto, using(crate::proofs::Numbers::stands_for))]

ghost use Rattle.std.specs.Prelude.{◌≡◌, get_or};
ghost use Rattle.rules.specs.Refusals.{read_coded, read_cell2, read_cell3, read_cell};
ghost use Rattle.rules.specs.Curve.{deposit_of, encode2, encode3, decode2, decode3};
ghost use Rattle.rules.specs.Knots.{index_all2, index_all3};
ghost use Rattle.requests.specs.Parts.{parts_along};
ghost use Rattle.axis_out.specs.Cells.{cell_between};
ghost use Rattle.skarvolm.specs.Calls.{in2, in3, rcb2, rcb3, halve2, halve3, replay2, replay3};

use apart::refusal_of;
use rules::{EDITION_2, Extent, Halving2, Halving3};

// The bits of `source` laid onto the set bits of `mask`.
pub fn skarvolm_deposit(source: u64, mask: u64) -> u64
    ensures { result ≡ deposit_of source mask }
{
    curve::deposit(source, mask)
}

// The index of a cell.
pub fn skarvolm_encode_2d(x: u64, y: u64, order: u32, index: &mut u64) -> u32
    ensures number { result ≡ (read_coded (encode2 x y order)).number }
    ensures value { index.new ≡ (read_coded (encode2 x y order)).value }
{
    curve_out::encode_2d(x, y, order, index)
}

// The index of a cell in 3D.
pub fn skarvolm_encode_3d(x: u64, y: u64, z: u64, order: u32, index: &mut u64) -> u32
    ensures number { result ≡ (read_coded (encode3 x y z order)).number }
    ensures value { index.new ≡ (read_coded (encode3 x y z order)).value }
{
    curve_out::encode_3d(x, y, z, order, index)
}

// The cell of an index.
pub fn skarvolm_decode_2d(index: u64, order: u32, x: &mut u64, y: &mut u64) -> u32
    ensures number { result ≡ (read_cell2 (decode2 index order)).number }
    ensures x { x.new ≡ get_or (read_cell2 (decode2 index order)).value 0 0 }
    ensures y { y.new ≡ get_or (read_cell2 (decode2 index order)).value 1 0 }
{
    curve_out::decode_2d(index, order, x, y)
}

// The cell of an index in 3D.
pub fn skarvolm_decode_3d(index: u64, order: u32, x: &mut u64, y: &mut u64, z: &mut u64) -> u32
    ensures number { result ≡ (read_cell3 (decode3 index order)).number }
    ensures x { x.new ≡ get_or (read_cell3 (decode3 index order)).value 0 0 }
    ensures y { y.new ≡ get_or (read_cell3 (decode3 index order)).value 1 0 }
    ensures z { z.new ≡ get_or (read_cell3 (decode3 index order)).value 2 0 }
{
    curve_out::decode_3d(index, order, x, y, z)
}

// The cell of a value: makes the axis, then the cell.
pub fn skarvolm_cell(low: f64, high: f64, order: u32, value: f64, cell: &mut u64) -> u32
    ensures number { result ≡ (read_cell (cell_between low high order value)).number }
    ensures value { cell.new ≡ (read_cell (cell_between low high order value)).value }
{
    axis_out::cell(low, high, order, value, cell)
}

// The indices of all points.
pub fn skarvolm_index_2d(xs: &[f64], ys: &[f64], order: u32, indices: &mut [u64]) -> u32
    ensures number { result ≡ (index_all2 xs.now ys.now order indices.old).number }
    ensures filed { indices.new ≡ (index_all2 xs.now ys.now order indices.old).indices }
{
    refusal_of(knots::index_2d(xs, ys, order, indices))
}

// The indices of all points in 3D.
pub fn skarvolm_index_3d(xs: &[f64], ys: &[f64], zs: &[f64], order: u32, indices: &mut [u64]) -> u32
    ensures number { result ≡ (index_all3 xs.now ys.now zs.now order indices.old).number }
    ensures filed { indices.new ≡ (index_all3 xs.now ys.now zs.now order indices.old).indices }
{
    refusal_of(knots::index_3d(xs, ys, zs, order, indices))
}

// The indices of all points on axes from low to high.
pub fn skarvolm_index_2d_in(
    xlow: f64,
    xhigh: f64,
    ylow: f64,
    yhigh: f64,
    xs: &[f64],
    ys: &[f64],
    order: u32,
    indices: &mut [u64],
) -> u32
    ensures number { result ≡ (in2 xlow xhigh ylow yhigh xs.now ys.now order indices.old).number }
    ensures filed { indices.new ≡ (in2 xlow xhigh ylow yhigh xs.now ys.now order indices.old).indices }
{
    let x = Extent {
        low: xlow,
        high: xhigh,
    };
    let y = Extent {
        low: ylow,
        high: yhigh,
    };
    refusal_of(knots::index_2d_in(xs, ys, x, y, order, indices))
}

// The indices of all points on axes from low to high in 3D.
pub fn skarvolm_index_3d_in(
    xlow: f64,
    xhigh: f64,
    ylow: f64,
    yhigh: f64,
    zlow: f64,
    zhigh: f64,
    xs: &[f64],
    ys: &[f64],
    zs: &[f64],
    order: u32,
    indices: &mut [u64],
) -> u32
    ensures number { result ≡ (in3 xlow xhigh ylow yhigh zlow zhigh xs.now ys.now zs.now order indices.old).number }
    ensures filed { indices.new ≡ (in3 xlow xhigh ylow yhigh zlow zhigh xs.now ys.now zs.now order indices.old).indices }
{
    let x = Extent {
        low: xlow,
        high: xhigh,
    };
    let y = Extent {
        low: ylow,
        high: yhigh,
    };
    let z = Extent {
        low: zlow,
        high: zhigh,
    };
    refusal_of(knots::index_3d_in(xs, ys, zs, x, y, z, order, indices))
}

// The splits and ids of a halved grid, by edition 1, across y first.
pub fn skarvolm_rcb_2d(
    width: u32,
    height: u32,
    depth: u32,
    weights: &[u64],
    splits: &mut [u32],
    ids: &mut [u32],
) -> u32
    ensures number { result ≡ (rcb2 width height depth weights.now splits.old ids.old).number }
    ensures splits { splits.new ≡ (rcb2 width height depth weights.now splits.old ids.old).splits }
    ensures ids { ids.new ≡ (rcb2 width height depth weights.now splits.old ids.old).ids }
{
    let halving = Halving2::of(width, height, depth);
    refusal_of(halving::rcb_2d(halving, weights, splits, ids))
}

// The splits and ids of a halved grid in 3D, by edition 1, across y first.
pub fn skarvolm_rcb_3d(
    width: u32,
    height: u32,
    layers: u32,
    depth: u32,
    weights: &[u64],
    splits: &mut [u32],
    ids: &mut [u32],
) -> u32
    ensures number { result ≡ (rcb3 width height layers depth weights.now splits.old ids.old).number }
    ensures splits { splits.new ≡ (rcb3 width height layers depth weights.now splits.old ids.old).splits }
    ensures ids { ids.new ≡ (rcb3 width height layers depth weights.now splits.old ids.old).ids }
{
    let halving = Halving3::of(width, height, layers, depth);
    refusal_of(halving::rcb_3d(halving, weights, splits, ids))
}

// The splits and ids of a halved grid, by the edition of a number, across the axis `first` first.
pub fn skarvolm_halve_2d(
    edition: u32,
    width: u32,
    height: u32,
    first: u32,
    depth: u32,
    weights: &[u64],
    splits: &mut [u32],
    ids: &mut [u32],
) -> u32
    ensures number { result ≡ (halve2 edition width height first depth weights.now splits.old ids.old).number }
    ensures splits { splits.new ≡ (halve2 edition width height first depth weights.now splits.old ids.old).splits }
    ensures ids { ids.new ≡ (halve2 edition width height first depth weights.now splits.old ids.old).ids }
{
    let halving = Halving2 {
        edition,
        width,
        height,
        first,
        depth,
    };
    refusal_of(halving::rcb_2d(halving, weights, splits, ids))
}

// The splits and ids of a halved grid in 3D, by the edition of a number, across the axis `first` first.
pub fn skarvolm_halve_3d(
    edition: u32,
    width: u32,
    height: u32,
    layers: u32,
    first: u32,
    depth: u32,
    weights: &[u64],
    splits: &mut [u32],
    ids: &mut [u32],
) -> u32
    ensures number { result ≡ (halve3 edition width height layers first depth weights.now splits.old ids.old).number }
    ensures splits { splits.new ≡ (halve3 edition width height layers first depth weights.now splits.old ids.old).splits }
    ensures ids { ids.new ≡ (halve3 edition width height layers first depth weights.now splits.old ids.old).ids }
{
    let halving = Halving3 {
        edition,
        width,
        height,
        layers,
        first,
        depth,
    };
    refusal_of(halving::rcb_3d(halving, weights, splits, ids))
}

// The parts of points along the curve, and the points in order.
pub fn skarvolm_parts(
    n: u32,
    indices: &[u64],
    weights: &[u64],
    parts: &mut [u32],
    order: &mut [u32],
) -> u32
    ensures number { result ≡ (parts_along n indices.now weights.now parts.old order.old).number }
    ensures parts { parts.new ≡ (parts_along n indices.now weights.now parts.old order.old).parts }
    ensures order { order.new ≡ (parts_along n indices.now weights.now parts.old order.old).order }
{
    refusal_of(parts::parts_along(n, indices, weights, parts, order))
}

// A bench night replayed on a grid, by edition 2: the weights, answers, splits and ids after it.
pub fn skarvolm_replay_2d(
    width: u32,
    height: u32,
    first: u32,
    depth: u32,
    weights: &mut [u64],
    cells: &[u64],
    amounts: &[u64],
    answers: &mut [u32],
    splits: &mut [u32],
    ids: &mut [u32],
) -> u32
    ensures number { result ≡ (replay2 width height first depth weights.old cells.now amounts.now answers.old splits.old ids.old).number }
    ensures weights { weights.new ≡ (replay2 width height first depth weights.old cells.now amounts.now answers.old splits.old ids.old).weights }
    ensures answers { answers.new ≡ (replay2 width height first depth weights.old cells.now amounts.now answers.old splits.old ids.old).answers }
    ensures splits { splits.new ≡ (replay2 width height first depth weights.old cells.now amounts.now answers.old splits.old ids.old).splits }
    ensures ids { ids.new ≡ (replay2 width height first depth weights.old cells.now amounts.now answers.old splits.old ids.old).ids }
{
    let by_edition_2 = Halving2 {
        edition: EDITION_2,
        width,
        height,
        first,
        depth,
    };
    refusal_of(replay::replay_2d(by_edition_2, weights, cells, amounts, answers, splits, ids))
}

// A bench night replayed on a grid in 3D, by edition 2: the weights, answers, splits and ids after it.
pub fn skarvolm_replay_3d(
    width: u32,
    height: u32,
    layers: u32,
    first: u32,
    depth: u32,
    weights: &mut [u64],
    cells: &[u64],
    amounts: &[u64],
    answers: &mut [u32],
    splits: &mut [u32],
    ids: &mut [u32],
) -> u32
    ensures number { result ≡ (replay3 width height layers first depth weights.old cells.now amounts.now answers.old splits.old ids.old).number }
    ensures weights { weights.new ≡ (replay3 width height layers first depth weights.old cells.now amounts.now answers.old splits.old ids.old).weights }
    ensures answers { answers.new ≡ (replay3 width height layers first depth weights.old cells.now amounts.now answers.old splits.old ids.old).answers }
    ensures splits { splits.new ≡ (replay3 width height layers first depth weights.old cells.now amounts.now answers.old splits.old ids.old).splits }
    ensures ids { ids.new ≡ (replay3 width height layers first depth weights.old cells.now amounts.now answers.old splits.old ids.old).ids }
{
    let by_edition_2 = Halving3 {
        edition: EDITION_2,
        width,
        height,
        layers,
        first,
        depth,
    };
    refusal_of(replay::replay_3d(by_edition_2, weights, cells, amounts, answers, splits, ids))
}
