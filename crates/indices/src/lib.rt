// Writing the index of every point on axes that take them, inside: `knots_over` and `knots_on` call it, on a curve of as many dimensions as there are
// axes.
//
// The knot of a point is its cell on each axis, its index that of the knot on the curve. No point is refused, since each axis accepts it
// and its cells lie below 2^order; the whole index slice is written (write_only). The number of axes is told by a clause: an array of slices, as
// long as a const parameter says, is not covered by the borrow checker.
#![tactic(auto)]

ghost use Rattle.std.specs.Prelude.{ℕ, ◌≡◌, ◌≤◌, ◌<◌, ◌^◌, List, All, length, get_or};
ghost use Rattle.rules.specs.Sums.{list};
ghost use Rattle.rules.specs.Refusals.{top2, top3};
ghost use Rattle.rules.specs.Curve.{plane, space, cell2, cell3, index_of};
ghost use Rattle.curve_laws.specs.Ruled.{Ruled};
ghost use Rattle.std.proofs.Common.{rules};
ghost use Rattle.points.specs.Cells.{cells, Taken};
ghost use Rattle.points.specs.Takes.{cell_at, Takes};

use axis_cell::cell_on;
use encoding_2d::encode_2d_with;
use encoding_3d::encode_3d;
use points::Placed;
use rules::{Axis, TOP_ORDER_2D, TOP_ORDER_3D};

// A curve through the cells of D axes.
pub trait Curve<const D: usize>: Drop {
    // The highest order.
    const TOP_ORDER: u32;

    ghost TOP_ORDER: { ℕ };

    // At an order, of a cell's coordinates, from x on, its index.
    ghost index_at: { ℕ → List ℕ → ℕ };

    // What indexing takes, made once for many cells.
    fn new() -> Self;

    fn index(&self, cell: [u64; D], order: u32) -> u64
        requires few { order ≤ TOP_ORDER }
        requires below { All (λ c. c < 2 ^ order) cell }
        ensures { result ≡ index_at order cell.entry };

    ghost top_few: { TOP_ORDER ≤ 32 };

    ghost some_axes: { (0 < D) × (D ≤ 3) };
}

// The curve in 2D, with its table.
#[derive(Drop)]
pub struct Plane {
    table: [u16; 16384],
    ghost ruled: { Ruled table },
}

impl Curve<2> for Plane {
    const TOP_ORDER: u32 = TOP_ORDER_2D;

    ghost TOP_ORDER = { top2 };

    ghost index_at = { λ order cell. index_of plane order (cell2 (get_or cell 0 0) (get_or cell 1 0)) };

    fn new() -> Plane {
        Plane {
            table: curve_table::table(),
        }
    }

    #[tactic(auto, using(curve_laws::proofs::Refusals::encode2_index))]
    fn index(&self, cell: [u64; 2], order: u32) -> u64
        requires few { order ≤ top2 }
        requires below { All (λ c. c < 2 ^ order) cell }
        ensures { result ≡ index_of plane order (cell2 (get_or cell 0 0) (get_or cell 1 0)) }
    {
        let [x, y] = cell;
        let Ok(index) = encode_2d_with(&self.table, x, y, order) else {
            unreachable!()
        };
        index
    }

    ghost top_few = { Prim.search rules };

    ghost some_axes = { Prim.search rules };
}

// The curve in 3D.
#[derive(Drop)]
pub struct Space;

impl Curve<3> for Space {
    const TOP_ORDER: u32 = TOP_ORDER_3D;

    ghost TOP_ORDER = { top3 };

    ghost index_at = { λ order cell. index_of space order (cell3 (get_or cell 0 0) (get_or cell 1 0) (get_or cell 2 0)) };

    fn new() -> Space {
        Space
    }

    #[tactic(auto, using(curve_laws::proofs::Refusals::encode3_index))]
    fn index(&self, cell: [u64; 3], order: u32) -> u64
        requires few { order ≤ top3 }
        requires below { All (λ c. c < 2 ^ order) cell }
        ensures { result ≡ index_of space order (cell3 (get_or cell 0 0) (get_or cell 1 0) (get_or cell 2 0)) }
    {
        let [x, y, z] = cell;
        let Ok(index) = encode_3d(x, y, z, order) else {
            unreachable!()
        };
        index
    }

    ghost top_few = { Prim.search rules };

    ghost some_axes = { Prim.search rules };
}

// The cell of a point on an axis.
fn cell_at(points: &[f64], axis: Axis, i: usize) -> u64
    requires { (n order : ℕ) × (i < n) × Takes points.now n order axis }
    ensures { result ≡ cell_at axis points.now i }
{
    cell_on(axis, points[i])
}

// The cells of a point, one on each axis.
fn cells_of<const D: usize>(axes: &[Placed], i: usize) -> [u64; D]
    requires all { length axes.now ≡ D }
    requires taken { (n order : ℕ) × (i < n) × All (Taken n order) axes.now }
    ensures { result ≡ cells axes.now i }
{
    let mut cell = [0; D];
    for (e, placed) in axes.iter().enumerate() {
        cell[e] = cell_at(placed.points, placed.axis, i);
    }
    cell
}

// Writes the index of each point.
pub fn write<const D: usize, C: Curve<D>>(axes: &[Placed], order: u32, indices: &mut [u64])
    requires all { length axes.now ≡ D }
    requires few { order ≤ C.TOP_ORDER }
    requires taken { All (Taken (length indices.old) order) axes.now }
    ensures { indices.new ≡ list (λ i. C.index_at order (cells axes.now i)) (length indices.old) }
{
    let curve = C::new();
    for (i, index) in indices.iter_mut().enumerate() {
        *index = curve.index(cells_of(axes, i), order);
    }
}
