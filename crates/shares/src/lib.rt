// The parts of points along their order, inside: `parts` calls it.
//
//   sum    the weight of the points passed
//   k      the part of the last index passed: how many splits are below it
//
// Where a new index is met, every split that the weight passed reaches is below it, and no other is: `advance` goes on to the
// last of them. So a point's part is the rule's, and only it fits (assign_only).
#![tactic(auto)]

ghost use Rattle.std.specs.Prelude.{◌≡◌, ◌≤◌, ◌<◌, length};
ghost use Rattle.rules.specs.Sums.{total};
ghost use Rattle.requests.specs.Order.{at, order_of};
ghost use Rattle.requests.specs.Parts.{top_parts, parts_of};
ghost use Rattle.parts_laws.specs.Accepted.{Accepted};
ghost use Rattle.parts_laws.specs.Passing.{top_all, Advanced};
ghost use Rattle.shares.specs.Light.{Light};

// The weight of all points.
fn weigh(weights: &[u64]) -> u64
    requires { Light weights.now }
    ensures { result ≡ total (at weights.now) (length weights.now) }
{
    weights.iter().sum()
}

// The last split of n, from `k` on, that the weight `sum` reaches.
fn advance(k: u32, n: u32, all: u64, sum: u64) -> u32
    requires k_lt_n { (k < n) × (n ≤ top_parts) }
    requires all_le_top_all { (all ≤ top_all) × (sum ≤ top_all) }
    ensures { Advanced k n all sum result }
{
    let have = n as u64 * sum;
    for r in k + 1..n {
        if have < r as u64 * all {
            return r - 1;
        }
    }
    n - 1
}

// Writes the parts of all points, along their order: those of one index get how many splits are below it.
pub fn assign(n: u32, indices: &[u64], weights: &[u64], order: &[u32], parts: &mut [u32])
    requires accepted { Accepted n indices.now weights.now }
    requires order_value { order.now ≡ order_of indices.now }
    requires parts_len { length parts.old ≡ length indices.now }
    ensures { parts.new ≡ parts_of n indices.now weights.now }
{
    let all = weigh(weights);
    let mut sum: u64 = 0;
    let mut k: u32 = 0;
    let mut last = indices[order[0] as usize];
    for place in order {
        let point = *place as usize;
        let index = indices[point];
        if last < index {
            k = advance(k, n, all, sum);
        }
        parts[point] = k;
        sum += weights[point];
        last = index;
    }
}
