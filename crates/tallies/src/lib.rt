// Running sums of a grid, inside: the weight of all cells, of each line and of each part. An amount at a cell costs a few additions,
// however many cells there are.
//
// What is promised of them is `Tallied` (tally_laws): that they are the sums of the weights and ids at hand.
#![tactic(auto)]

ghost use Rattle.std.specs.Prelude.{◌≡◌, ◌<◌, length, get_or};
ghost use Rattle.rules.specs.Sums.{top};
ghost use Rattle.rules.specs.Grid.{cells};
ghost use Rattle.tally_laws.specs.Weighed.{Sided, Weighed, Named, heavier, Takes};
ghost use Rattle.tally_laws.specs.Added.{raised, Raisable};
ghost use Rattle.tallies.specs.Sums.{nothing, LinesRaised, CanPut, Put, heaviest_of, Sums};

// The weight of all cells, that of the heaviest line, and those of lines and parts.
//
//   lines   the weight of line j across axis a at a * 1024 + j
//   parts   the weight of id i at i
#[derive(Clone, Copy)]
pub struct Tally {
    pub all: u64,
    pub heaviest: u64,
    pub lines: [u64; 3072],
    pub parts: [u64; 4096],
}

// The largest of some sums, 0 if there are none.
fn largest(sums: &[u64]) -> u64
    ensures { result ≡ top (λ i. get_or sums.now i 0) (length sums.now) }
{
    let mut largest: u64 = 0;
    for sum in sums {
        largest = largest.max(*sum);
    }
    largest
}

impl Tally {
    // Sums of no cells.
    #[tactic(auto, unfolding(crate::specs::Sums::nothing))]
    pub fn new() -> Tally
        ensures { result ≡ nothing }
    {
        Tally {
            all: 0,
            heaviest: 0,
            lines: [0; 3072],
            parts: [0; 4096],
        }
    }

    // Becomes the sums of no cells, where it lies.
    #[tactic(auto, unfolding(crate::specs::Sums::nothing))]
    pub fn clear(&mut self)
        ensures { self.new ≡ nothing }
    {
        self.all = 0;
        self.heaviest = 0;
        self.lines = [0; 3072];
        self.parts = [0; 4096];
    }

    // Adds an amount to the lines of a cell; the heaviest of them then. It divides in 32 bits, which takes fewer instructions.
    fn raise_lines(&mut self, sides: &[usize], cell: usize, amount: u64) -> u64
        requires sided { Sided sides.now }
        requires cell_bound { cell < cells sides.now }
        requires raisable { Raisable sides.now cell amount self.old.lines × (length self.old.lines ≡ 3072) }
        ensures raised { LinesRaised sides.now cell amount self.old self.new }
        ensures heaviest { result ≡ top (raised sides.now cell amount self.old.lines) (length sides.now) }
    {
        let mut heaviest: u64 = 0;
        let mut rest = cell as u32;
        for (axis, side) in sides.iter().enumerate() {
            let side = *side as u32;
            let line = axis * 1024 + (rest % side) as usize;
            self.lines[line] += amount;
            heaviest = heaviest.max(self.lines[line]);
            rest /= side;
        }
        heaviest
    }

    // Adds an amount at a cell of a part to all sums but the heaviest line; the heaviest of the cell's lines then.
    fn put(&mut self, sides: &[usize], cell: usize, part: usize, amount: u64) -> u64
        requires { CanPut sides.now cell part amount self.old }
        ensures { Put sides.now cell part amount self.old self.new result }
    {
        self.parts[part] += amount;
        self.all += amount;
        self.raise_lines(sides, cell, amount)
    }

    // Takes an amount at a cell: its weight, and all sums.
    pub fn take(
        &mut self,
        sides: &[usize],
        weights: &mut [u64],
        ids: &[u32],
        cell: usize,
        amount: u64,
    )
        requires weighed { Weighed sides.now weights.old }
        requires named { Named 4096 sides.now ids.now }
        requires tallied { Sums sides.now weights.old ids.now self.old }
        requires takes { Takes weights.old cell amount }
        ensures weights { weights.new ≡ heavier weights.old cell amount }
        ensures sums { Sums sides.now (heavier weights.old cell amount) ids.now self.new }
    {
        weights[cell] += amount;
        let raised = self.put(sides, cell, ids[cell] as usize, amount);
        self.heaviest = self.heaviest.max(raised);
    }

    // The heaviest line, by the sums of all.
    fn heaviest_line(&self, sides: &[usize]) -> u64
        requires sided { Sided sides.now }
        requires lines_len { length self.now.lines ≡ 3072 }
        ensures { result ≡ heaviest_of sides.now self.now.lines }
    {
        let mut heaviest: u64 = 0;
        for (axis, side) in sides.iter().enumerate() {
            let first = axis * 1024;
            heaviest = heaviest.max(largest(&self.lines[first..first + side]));
        }
        heaviest
    }

    // From sums of no cells those of weights and ids. The heaviest line is looked for at the end: kept up cell by cell it costs more. Ids go
    // by index, since the cell's number is at hand.
    pub fn add_all(&mut self, sides: &[usize], weights: &[u64], ids: &[u32])
        requires none { self.old ≡ nothing }
        requires weighed { Weighed sides.now weights.now }
        requires named { Named 4096 sides.now ids.now }
        ensures { Sums sides.now weights.now ids.now self.new }
    {
        for (cell, weight) in weights.iter().enumerate() {
            self.put(sides, cell, ids[cell] as usize, *weight);
        }
        self.heaviest = self.heaviest_line(sides);
    }

    // The sums of weights and ids, whatever it held.
    pub fn make(&mut self, sides: &[usize], weights: &[u64], ids: &[u32])
        requires weighed { Weighed sides.now weights.now }
        requires named { Named 4096 sides.now ids.now }
        ensures { Sums sides.now weights.now ids.now self.new }
    {
        self.clear();
        self.add_all(sides, weights, ids);
    }
}
