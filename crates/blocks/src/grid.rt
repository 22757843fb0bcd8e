// A grid: its axes and sides.

ghost use Rattle.std.specs.Prelude.{◌≡◌, ◌<◌, ◌≤◌, length, slice_index};

use crate::{SubGrid, across};

// How many axes there are, two or three, and a side for each; the third side of two axes is 1.
#[derive(Clone, Copy)]
pub struct Grid {
    pub axes: usize,
    pub sides: [usize; 3],
    pub ghost three: { length sides ≡ 3 },
    pub ghost axes_fit: { (2 ≤ axes) × (axes ≤ 3) },
    pub ghost one_layer: { axes < 3 → slice_index sides 2 ≡ 1 },
}

impl Grid {
    ghost use Rattle.std.specs.Prelude.{◌+◌, ◌*◌, false};
    ghost use Rattle.rules.specs.Sums.{any};
    ghost use Rattle.rules.specs.Refusals.{side_unfit};
    ghost use Rattle.rules.specs.Grid.{on, cells};
    ghost use Rattle.blocks.specs.Blocks.{across, sides_of, strides, start, whole_of};

    // The sides on the grid's axes.
    pub fn sides(&self) -> &[usize]
        ensures { result.now ≡ sides_of self.now }
    {
        &self.sides[..self.axes]
    }

    // How many cells there are, where no side is unfit.
    pub fn cells(self) -> usize
        requires { any side_unfit (sides_of self) ≡ false }
        ensures { result ≡ cells (sides_of self) }
    {
        let [width, height, layers] = self.sides;
        width * (height * layers)
    }

    // The grid as a block.
    pub fn whole(self) -> SubGrid
        ensures { result ≡ whole_of self }
    {
        let sides = self.sides;
        SubGrid {
            low: [0, 0, 0],
            sides,
        }
    }

    // How far apart two cells lie that differ by one, on each axis.
    pub fn strides(&self) -> [usize; 3]
        requires { on self.now.sides 0 * on self.now.sides 1 < 4294967296 }
        ensures { result ≡ strides self.now }
    {
        let [width, height, _] = self.sides;
        [1, width, width * height]
    }

    // How far apart two cells lie that differ by one on an axis.
    pub fn stride(&self, axis: usize) -> usize
        requires { on self.now.sides 0 * on self.now.sides 1 < 4294967296 }
        ensures { result ≡ on (strides self.now) (across axis) }
    {
        self.strides()[across(axis)]
    }

    // The number of the cell at a block's low corner.
    pub fn corner(&self, b: &SubGrid) -> usize
        requires z_bound { (on self.now.sides 1 * on b.now.low 2 < 4294967296) × (on b.now.low 1 + on self.now.sides 1 * on b.now.low 2 < 4294967296) }
        requires z_bound_2 { (on self.now.sides 0 * (on b.now.low 1 + on self.now.sides 1 * on b.now.low 2) < 4294967296) × (start self.now b.now < 4294967296) }
        ensures { result ≡ start self.now b.now }
    {
        let [x, y, z] = b.low;
        let [width, height, _] = self.sides;
        x + width * (y + height * z)
    }
}
