// Where a row of lines is cut, inside: `cuts` calls it.
//
//   lo, hi   of a block's weight: the least and the most that its left part should weigh, within one part in a hundred of the
//            half. The rules work them out in f64; here they are exact fractions rounded down, and lo of edition 2 up, which
//            is the same (lo_is_floor, lo_up_is_ceiling, hi_is_floor)
//   median   how many lines lie before the cut, and what they weigh, for any lo and hi
//
// The cut is the rule's and lies before the last line (CutIs); lo and hi keep to their limits (edition_limits), and lo may
// exceed hi.
#![tactic(auto)]

ghost use Rattle.std.specs.Prelude.{◌≡◌, ◌<◌, ◌≤◌, length};
ghost use Rattle.rules.specs.Refusals.{top_side};
ghost use Rattle.rules.specs.Halving.{hi_of, edition_of};
ghost use Rattle.median.specs.Median.{CutIs, LinesLight, line_at};

use rules::EDITION_2;

// What is added to a number of 200ths before it is divided: nothing, so that its fraction is dropped.
const ROUND_DOWN: u64 = 0;

// And what takes any fraction to the next whole number.
const ROUND_UP: u64 = 199;

// How many lines lie before the cut, and what they weigh.
#[derive(Clone, Copy)]
pub struct WeightedMedian {
    pub position: usize,
    pub left: u64,
}

// lo of a block of weight `total`: the least that its left part should weigh. The edition is any number, and no enum of the known ones, since
// edition_of of the rules answers of every number.
pub fn min_part_weight(edition: u32, total: u64) -> u64
    requires { total < 35184372088832 }
    ensures { result ≡ (edition_of edition).lo total }
{
    if edition == EDITION_2 {
        return (99 * total + ROUND_UP) / 200;
    }
    (99 * total + ROUND_DOWN) / 200
}

// hi of a block of weight `total`, in every edition: the most that its left part should weigh.
pub fn max_part_weight(total: u64) -> u64
    requires { total < 35184372088832 }
    ensures { result ≡ hi_of total }
{
    (101 * total + ROUND_DOWN) / 200
}

// The cut of lines, where those before it should weigh `lo` to `hi`.
pub fn weighted_median(lines: &[u64], lo: u64, hi: u64) -> WeightedMedian
    requires some { (0 < length lines.now) × (length lines.now ≤ top_side) }
    requires lines_light { LinesLight lines.now }
    ensures { CutIs (line_at lines.now) (length lines.now) lo hi result.position result.left }
{
    let mut cut = WeightedMedian {
        position: 0,
        left: 0,
    };
    let mut before = cut;
    // The position is no count of the loop alone: it's kept beside the weight, and a line back where the cut is that of `before`.
    for line in &lines[..lines.len() - 1] {
        if lo <= cut.left {
            break;
        }
        before = cut;
        cut = WeightedMedian {
            position: cut.position + 1,
            left: cut.left + *line,
        };
    }
    if lo <= cut.left && hi < cut.left {
        before
    } else {
        cut
    }
}
