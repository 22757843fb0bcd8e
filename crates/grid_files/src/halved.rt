// A halving: what a command asks of it, and the grid that it parted.
ghost use Rattle.std.specs.Prelude.{◌≤◌};

use crate::shape::Shape;
use crate::sums::Sums;
use rules::{Halving2, Halving3, TOP_DEPTH};

// What a command asks of a halving.
#[derive(Clone, Copy)]
pub struct Wish {
    pub edition: u32,
    pub first: u32,
    pub depth: u32,
}

impl Wish {
    // How many nodes are cut, none at a depth that is refused.
    pub fn nodes(self) -> usize
        ensures { result ≤ 4095 }
    {
        if TOP_DEPTH < self.depth {
            return 0;
        }
        4095 >> (TOP_DEPTH - self.depth)
    }

    // The halving of a grid of one layer, and that of one of several: the records of the library name their sides.
    pub fn halving_2d(self, shape: Shape) -> Halving2
        ensures { Unit {0} }
    {
        let Wish {
            edition,
            first,
            depth,
        } = self;
        Halving2 {
            edition,
            width: side(shape.width),
            height: side(shape.height),
            first,
            depth,
        }
    }

    pub fn halving_3d(self, shape: Shape) -> Halving3
        ensures { Unit {0} }
    {
        let Wish {
            edition,
            first,
            depth,
        } = self;
        Halving3 {
            edition,
            width: side(shape.width),
            height: side(shape.height),
            layers: side(shape.layers),
            first,
            depth,
        }
    }
}

// A side, or a number that is refused as one.
fn side(n: usize) -> u32 {
    u32::try_from(n).unwrap_or(u32::MAX)
}

// A halved grid, with the weight and the id of each cell.
#[derive(Clone, Copy)]
pub struct Halved<'a> {
    pub shape: Shape,
    pub wish: Wish,
    pub weights: &'a [u64],
    pub ids: &'a [u32],
}

impl Halved<'_> {
    // What the parts weigh.
    pub fn parts(&self) -> Sums
        ensures { Unit {0} }
    {
        let mut parts = Sums::none();
        for (weight, id) in self.weights.iter().zip(self.ids) {
            parts.add(*id as usize, *weight);
        }
        parts
    }
}
