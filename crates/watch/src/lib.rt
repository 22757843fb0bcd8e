// Whether all parts keep to demand 3's bounds, inside: the heaviest and the lightest answer for all (answer_for_all of replay_laws).
// They are watched from event to event, the heaviest by its id, since parts only grow, the lightest by a tree.
#![tactic(auto)]

ghost use Rattle.std.specs.Prelude.{◌≡◌, ◌<◌, ◌≤◌, ◌^◌, length};
ghost use Rattle.requests.specs.Order.{at};
ghost use Rattle.requests.specs.Replay.{some_broken};
ghost use Rattle.bounds.specs.Small.{top_sum};
ghost use Rattle.watch.specs.Watched.{Heaviest, Watched, Was};

use bounds::Measure;

// The id of a heaviest part, and the tree of the lightest.
#[derive(Clone, Copy)]
pub struct Watch {
    pub most: usize,
    pub tree: [usize; 4096],
}

// The id of a heaviest of some parts.
fn heaviest(parts: &[u64]) -> usize
    requires { 0 < length parts.now }
    ensures { Heaviest (length parts.now) parts.now result }
{
    let mut most = 0;
    for (id, part) in parts.iter().enumerate() {
        if parts[most] < *part {
            most = id;
        }
    }
    most
}

impl Watch {
    // Looks through all parts, whatever was watched.
    pub fn find(&mut self, depth: u32, parts: &[u64; 4096])
        requires { depth ≤ 12 }
        ensures { Watched (2 ^ depth) parts.now self.new.most self.new.tree }
    {
        lightest::make(depth, parts, &mut self.tree);
        self.most = heaviest(&parts[..lightest::leaves_of(depth)]);
    }

    // The same after a part was raised, from what was known before.
    pub fn follow(&mut self, depth: u32, part: usize, parts: &[u64; 4096])
        requires depth_bound { (depth ≤ 12) × (part < 2 ^ depth) }
        requires was { Was (2 ^ depth) part parts.now self.old.most self.old.tree }
        ensures { Watched (2 ^ depth) parts.now self.new.most self.new.tree }
    {
        lightest::raised(depth, part, parts, &mut self.tree);
        if parts[self.most] < parts[part] {
            self.most = part;
        }
    }

    // Whether a bound is broken for some part.
    pub fn broken(&self, measure: Measure, parts: &[u64; 4096]) -> bool
        requires watched { Watched (2 ^ measure.depth) parts.now self.now.most self.now.tree }
        requires most_bound { at parts.now self.now.most < top_sum }
        ensures { result ≡ some_broken measure.depth (at parts.now) measure.all measure.line }
    {
        let least = lightest::lightest(&self.tree);
        !measure.keeps(parts[self.most], parts[least])
    }
}
