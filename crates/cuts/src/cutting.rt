// What all cuts of a grid share, and a cut.

ghost use Rattle.cuts.specs.Sums.{Readable};

use blocks::{Grid, SubGrid};
use lines::Stack;

// The weights of a grid's cells, and the edition by which it is halved: a number, since the rules' edition_of answers of every one.
#[derive(Clone, Copy)]
pub struct Cutting<'a> {
    pub weights: &'a [u64],
    pub grid: Grid,
    pub edition: u32,
    pub ghost readable: { Readable grid weights.now },
}

// A block, and what it weighs.
#[derive(Clone, Copy)]
pub struct Part {
    pub block: SubGrid,
    pub total: u64,
}

// A cut: its split in grid coordinates, the part before it, and the rest.
#[derive(Clone, Copy)]
pub struct Cut {
    pub split: u32,
    pub first: Part,
    pub second: Part,
}

impl<'a> Cutting<'a> {
    ghost use Rattle.std.specs.Prelude.{◌≡◌, ◌<◌, length};
    ghost use Rattle.rules.specs.Grid.{on};
    ghost use Rattle.blocks.specs.Blocks.{across};
    ghost use Rattle.rules.specs.Sums.{list};
    ghost use Rattle.cuts.specs.Sums.{stack_of, solid, line_weight, filled, Lies};
    ghost use Rattle.cuts.specs.Cuts.{cut_into, Sound};

    // A block as a stack of cells.
    fn stack(&self, block: &SubGrid) -> Stack
        ensures { result ≡ stack_of self.now.grid block.now }
    {
        let [width, height, layers] = block.sides;
        let [_, row, layer] = self.grid.strides();
        Stack {
            width,
            row,
            height,
            layer,
            layers,
        }
    }

    // The weight of a block.
    pub fn weight(&self, block: &SubGrid) -> u64
        requires { Lies self.now.grid block.now }
        ensures { result ≡ solid self.now.grid self.now.weights.now block.now }
    {
        lines::solid(self.weights, self.grid.corner(block), self.stack(block))
    }

    // Fills `sums` with the weights of a block's lines across an axis.
    fn sum_lines(&self, block: &SubGrid, axis: usize, sums: &mut [u64])
        requires lies { Lies self.now.grid block.now }
        requires sums_len { length sums.old ≡ on block.now.sides (across axis) }
        ensures { sums.new ≡ list (line_weight self.now.grid self.now.weights.now (across axis) block.now) (length sums.old) }
    {
        let start = self.grid.corner(block);
        let jump = self.grid.stride(axis);
        let line = self.stack(&block.left_part(axis, 1));
        lines::line_sums(self.weights, start, jump, line, sums);
    }

    // The cut of a part across an axis; the first `sums` are filled with the lines' weights.
    pub fn cut(&self, part: &Part, axis: usize, sums: &mut [u64; 1024]) -> Cut
        requires lies { Lies self.now.grid part.now.block }
        requires some { (0 < on part.now.block.sides (across axis)) × (part.now.total < 35184372088832) }
        ensures cut { result ≡ cut_into self.now.edition self.now.grid self.now.weights.now (across axis) part.now }
        ensures sound { Sound self.now.grid self.now.weights.now part.now → axis < self.now.grid.axes → (Sound self.now.grid self.now.weights.now result.first) × (Sound self.now.grid self.now.weights.now result.second) }
        ensures lines { sums.new ≡ filled self.now.grid self.now.weights.now (across axis) part.now.block sums.old }
    {
        let side = part.block.side(axis);
        let lines = &mut sums[..side];
        self.sum_lines(&part.block, axis, lines);
        let lo = median::min_part_weight(self.edition, part.total);
        let hi = median::max_part_weight(part.total);
        let median = median::weighted_median(lines, lo, hi);
        let at = median.position;
        Cut {
            split: part.block.split(axis, at),
            first: Part {
                block: part.block.left_part(axis, at),
                total: median.left,
            },
            // The total may be less than the lines weigh.
            second: Part {
                block: part.block.right_part(axis, at),
                total: part.total.saturating_sub(median.left),
            },
        }
    }
}
