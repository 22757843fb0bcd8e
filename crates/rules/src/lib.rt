// Document 01 as definitions, with the editions and first axes of document 02: the refusals, the records and the limits stand here,
// and what each of them means stands in specs/, a file for a chapter:
//
//   Refusals  the number and the test of each refusal, the order of tests of each call, the number and values of each answer
//   Curve     the level machine, its 2D and 3D tables, deposit, encode, decode
//   Axis      making an axis, the cell of a value, low and high of points
//   Knots     the indices of all points
//   Grid      cells, blocks, lines and their weights
//   Halving   lo and hi of both editions, the cut, the tree of splits, the ids
//   Demands   what is to be shown of all this
//
// There is no function here but those that make a halving's record without an edition and a first axis and those that lead from a refusal to its
// number and text and back (refusal.rt), and no proof but what is computed: the
// named cases (proofs/NamedCases.antt), and that the corners of the curve's quadrants meet in both tables (proofs/CornersMeet.antt).
#![tactic(auto)]

ghost use Rattle.std.specs.Prelude.{◌≡◌};
ghost use Rattle.rules.specs.Halving.{of2, of3};

mod refusal;

pub use refusal::{NoRefusal, Refusal};

// The order of a call that names none.
pub const DEFAULT_ORDER: u32 = 16;

// The highest order in 2D, and of an axis.
pub const TOP_ORDER_2D: u32 = 32;

// The highest order in 3D.
pub const TOP_ORDER_3D: u32 = 21;

// The largest size of a coordinate.
pub const TOP_VALUE: f64 = 1048576.0;

// The least width of an axis that is not flat.
pub const LEAST_WIDTH: f64 = 0.00000095367431640625;

// The longest side of a grid.
pub const TOP_SIDE: u32 = 1024;

// The most cells of a grid.
pub const TOP_CELLS: u32 = 65536;

// The most levels of a halving.
pub const TOP_DEPTH: u32 = 12;

// The heaviest weight of a cell.
pub const TOP_WEIGHT: u64 = 16777215;

// The split of a node that is not cut.
pub const UNCUT: u32 = 4294967295;

// The editions of the halving: 1 drops the fraction of lo, 2 rounds it up.
pub const EDITION_1: u32 = 1;

pub const EDITION_2: u32 = 2;

// The edition of a halving that names none.
pub const DEFAULT_EDITION: u32 = 1;

// The first axis of a halving that names none: y.
pub const DEFAULT_FIRST: u32 = 1;

// An axis record: flat, or sloped with its factor.
#[derive(Clone, Copy)]
pub enum Axis {
    Flat {
        low: f64,
        high: f64,
        order: u32,
    },
    Sloped {
        low: f64,
        high: f64,
        order: u32,
        factor: f64,
    },
}

// Low and high of points on an axis.
#[derive(Clone, Copy)]
pub struct Extent {
    pub low: f64,
    pub high: f64,
}

// What describes a halving in 2D. The first cut is across the axis `first`: x is 0, y is 1.
#[derive(Clone, Copy)]
pub struct Halving2 {
    pub edition: u32,
    pub width: u32,
    pub height: u32,
    pub first: u32,
    pub depth: u32,
}

// What describes a halving in 3D. The first cut is across the axis `first`: x is 0, y is 1, z is 2.
#[derive(Clone, Copy)]
pub struct Halving3 {
    pub edition: u32,
    pub width: u32,
    pub height: u32,
    pub layers: u32,
    pub first: u32,
    pub depth: u32,
}

impl Halving2 {
    // A halving that names no edition and no first axis.
    pub fn of(width: u32, height: u32, depth: u32) -> Self
        ensures { result ≡ of2 width height depth }
    {
        Halving2 {
            edition: DEFAULT_EDITION,
            width,
            height,
            first: DEFAULT_FIRST,
            depth,
        }
    }
}

impl Halving3 {
    // A halving in 3D that names no edition and no first axis.
    pub fn of(width: u32, height: u32, layers: u32, depth: u32) -> Self
        ensures { result ≡ of3 width height layers depth }
    {
        Halving3 {
            edition: DEFAULT_EDITION,
            width,
            height,
            layers,
            first: DEFAULT_FIRST,
            depth,
        }
    }
}
