// A block of a grid, and its parts.

ghost use Rattle.std.specs.Prelude.{◌≡◌, ◌+◌, ◌<◌, ◌≤◌};
ghost use Rattle.rules.specs.Grid.{on};
ghost use Rattle.blocks.specs.Blocks.{across, left_part, right_part};

// The axis of a number. It is a number, and no enum: it is an index into corners and sides, the next is found by a remainder, and every
// number is answered.
pub fn across(axis: usize) -> usize
    ensures { result ≡ across axis }
{
    axis.min(2)
}

// Its low corner and its sides.
#[derive(Clone, Copy)]
pub struct SubGrid {
    pub low: [usize; 3],
    pub sides: [usize; 3],
}

impl SubGrid {
    // The side on an axis.
    pub fn side(&self, axis: usize) -> usize
        ensures { result ≡ on self.now.sides (across axis) }
    {
        self.sides[across(axis)]
    }

    // The cut before line `at` across an axis, in grid coordinates.
    pub fn split(&self, axis: usize, at: usize) -> u32
        requires { on self.now.low (across axis) + at < 4294967296 }
        ensures { result ≡ on self.now.low (across axis) + at }
    {
        (self.low[across(axis)] + at) as u32
    }

    // The first `at` lines across an axis.
    pub fn left_part(&self, axis: usize, at: usize) -> SubGrid
        ensures { result ≡ left_part (across axis) self.now at }
    {
        let mut part = *self;
        part.sides[across(axis)] = at;
        part
    }

    // The lines from line `at` on across an axis.
    pub fn right_part(&self, axis: usize, at: usize) -> SubGrid
        requires { (at ≤ on self.now.sides (across axis)) × (on self.now.low (across axis) + at < 4294967296) }
        ensures { result ≡ right_part (across axis) self.now at }
    {
        let axis = across(axis);
        let mut part = *self;
        part.low[axis] += at;
        part.sides[axis] -= at;
        part
    }
}
