// A halving of a grid, by one type for 2D and 3D.

use crate::Grid;
use rules::{Halving2, Halving3};

// What describes a halving. The first cut is across the axis `first`. The edition is any number, and no enum of the known ones: halving_tests
// is asked of every number which it refuses, and the rules' edition_of answers of each.
#[derive(Clone, Copy)]
pub struct Halving {
    pub edition: u32,
    pub grid: Grid,
    pub first: usize,
    pub depth: u32,
}

impl From<Halving2> for Halving {
    ghost use Rattle.std.specs.Prelude.{◌≡◌};
    ghost use Rattle.rules.specs.Halving.{halving2};
    ghost use Rattle.blocks.specs.Blocks.{rule_of};

    ghost from_gives = { λ plane halving. rule_of halving ≡ halving2 plane };

    fn from(plane: Halving2) -> Halving {
        Halving {
            edition: plane.edition,
            grid: Grid {
                axes: 2,
                sides: [plane.width as usize, plane.height as usize, 1],
            },
            first: plane.first as usize,
            depth: plane.depth,
        }
    }
}

impl From<Halving3> for Halving {
    ghost use Rattle.std.specs.Prelude.{◌≡◌};
    ghost use Rattle.rules.specs.Halving.{halving3};
    ghost use Rattle.blocks.specs.Blocks.{rule_of};

    ghost from_gives = { λ solid halving. rule_of halving ≡ halving3 solid };

    fn from(solid: Halving3) -> Halving {
        Halving {
            edition: solid.edition,
            grid: Grid {
                axes: 3,
                sides: [
                    solid.width as usize,
                    solid.height as usize,
                    solid.layers as usize,
                ],
            },
            first: solid.first as usize,
            depth: solid.depth,
        }
    }
}
