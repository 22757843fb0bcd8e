// The weights of a block's lines, inside: `cuts` calls it.
//
//   run     some cells in a row
//   sheet   runs, `row` apart
//   solid   sheets, `layer` apart: what a block and a line of it are; in 2D one sheet
//   lines   solids, `jump` apart, their weights summed into a slice of as many sums
//
// Each sum is that of the rules' weights (run_sum, sheet_sum, solid_sum; line_sums_only).
#![tactic(auto)]

ghost use Rattle.std.specs.Prelude.{◌≡◌, ◌<◌, ◌^◌, length, sum};
ghost use Rattle.rules.specs.Sums.{list};
ghost use Rattle.lines.specs.Stacks.{sheet_sum, solid_sum, line_of, Light, SheetFits, SolidFits, LinesFit};

// `layers` sheets, `layer` apart, of `height` runs, `row` apart, of `width` cells.
#[derive(Clone, Copy)]
pub struct Stack {
    pub width: usize,
    pub row: usize,
    pub height: usize,
    pub layer: usize,
    pub layers: usize,
}

// The weight of cells in a row. By a loop: a column is one of runs of one cell, and `sum` takes ten instructions more for each.
fn run(cells: &[u64]) -> u64
    requires { sum cells.now < 2 ^ 64 }
    ensures { result ≡ sum cells.now }
{
    let mut sum: u64 = 0;
    for weight in cells {
        sum += *weight;
    }
    sum
}

// The weight of a stack's sheet from `start` on. The place of a run is carried on from the one before, without a multiplication each.
fn sheet(weights: &[u64], start: usize, s: Stack) -> u64
    requires light { Light weights.now }
    requires sheet_fits { SheetFits weights.now start s }
    ensures { result ≡ sheet_sum weights.now start s s.height }
{
    let mut sum: u64 = 0;
    let mut at = start;
    for j in 0..s.height {
        sum += run(&weights[at..at + s.width]);
        at += s.row;
    }
    sum
}

// The weight of a stack from `start` on.
pub fn solid(weights: &[u64], start: usize, s: Stack) -> u64
    requires light { Light weights.now }
    requires solid_fits { SolidFits weights.now start s }
    ensures { result ≡ solid_sum weights.now start s s.layers }
{
    let mut sum: u64 = 0;
    for k in 0..s.layers {
        sum += sheet(weights, start + s.layer * k, s);
    }
    sum
}

// Fills `sums` with the weights of as many lines, the first a stack from `start` on and each `jump` behind the one before.
pub fn line_sums(weights: &[u64], start: usize, jump: usize, s: Stack, sums: &mut [u64])
    requires light { Light weights.now }
    requires lines_fit { LinesFit weights.now start jump (length sums.old) s }
    ensures { sums.new ≡ list (line_of weights.now start jump s) (length sums.old) }
{
    for (i, sum) in sums.iter_mut().enumerate() {
        *sum = solid(weights, start + jump * i, s);
    }
}
