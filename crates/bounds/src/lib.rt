// Demand 3's two bounds, tested exactly, inside: `watch` calls it. The products reach 140 bits; each side of a bound is written as
// one number below 2^49 times one power of a byte, so that no wide numbers are added:
//
//   upper   (99 w - 200 M) * 200^k <= 99 T * 101^k, and holds at once where 99 w <= 200 M
//   lower   101 T * 99^k <= (101 w + 200 M) * 200^k
//
// Both hold where they do with 100 in place of 101 and of 99, and that is asked first, by a shift: (99 w - 200 M) * 2^k <= 99 T, and
// 101 T <= (101 w + 200 M) * 2^k. Few events need more.
#![tactic(auto)]

ghost use Rattle.std.specs.Prelude.{◌≡◌, ◌*◌, ◌^◌, ◌≤◌, ◌<◌, ◌&&◌, leb};
ghost use Rattle.rules.specs.Refusals.{top_depth};
ghost use Rattle.requests.specs.Replay.{upper, lower};
ghost use Rattle.bounds.specs.Small.{top_sum, Small};

use wide::Wide;

// What parts are held against: k levels, the weight T of all cells and the heaviest line M.
#[derive(Clone, Copy)]
pub struct Measure {
    pub depth: u32,
    pub all: u64,
    pub line: u64,
    ghost small: { Small depth all line },
}

// Whether x * s^k is at most y * r^k.
fn at_most(k: u32, x: u64, s: u64, y: u64, r: u64) -> bool
    requires k_le_top_depth { k ≤ top_depth }
    requires x_bound { (x < 2 ^ 49) × (0 < s) × (s ≤ 200) }
    requires y_bound { (y < 2 ^ 49) × (0 < r) × (r ≤ 200) }
    ensures { result ≡ leb (x * s ^ k) (y * r ^ k) }
{
    let right = Wide::from(y).scaled(r, k);
    Wide::from(x).scaled(s, k).at_most(&right)
}

impl Measure {
    // Whether a part of weight w is not too heavy.
    fn upper(self, w: u64) -> bool
        requires { w < top_sum }
        ensures { result ≡ upper self.depth w self.all self.line }
    {
        let part = 99 * w;
        let line = 200 * self.line;
        if part <= line {
            return true;
        }
        let over = part - line;
        let all = 99 * self.all;
        if over << self.depth <= all {
            return true;
        }
        at_most(self.depth, over, 200, all, 101)
    }

    // Whether a part of weight w is not too light.
    fn lower(self, w: u64) -> bool
        requires { w < top_sum }
        ensures { result ≡ lower self.depth w self.all self.line }
    {
        let all = 101 * self.all;
        let part = 101 * w + 200 * self.line;
        if all <= part << self.depth {
            return true;
        }
        at_most(self.depth, all, 99, part, 200)
    }

    // Whether the heaviest part is not too heavy and the lightest not too light.
    pub fn keeps(self, most: u64, least: u64) -> bool
        requires { (most < top_sum) × (least < top_sum) }
        ensures { result ≡ upper self.depth most self.all self.line && lower self.depth least self.all self.line }
    {
        self.upper(most) && self.lower(least)
    }
}
