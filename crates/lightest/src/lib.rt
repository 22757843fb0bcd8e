// The lightest of up to 4,096 parts, kept up while parts are raised, inside: a tournament, so that what has changed is known
// without a look through all parts.
//
//   parts   the weight of id i at place i, for the ids below 2 ^ depth
//   tree    a node at each place from 1 to 2 ^ depth - 1: the id of the first of the lightest parts below it. 1 is the root, 2n
//           and 2n + 1 stand below n, and the leaf of id i, which has no place, is node 2 ^ depth + i. The other places hold 0
//
// One promise, `Knows (2 ^ depth) parts tree`: `make` gives it whatever the tree held, and `raised` gives it back after a part was
// raised (raised_one), in at most `depth` steps. With it the root's id is below 2 ^ depth (root_below), no part is lighter
// (root_least), and the tree is no other (knows_only).
#![tactic(auto)]

ghost use Rattle.std.specs.Prelude.{◌≡◌, ◌^◌, ◌≤◌, ◌<◌, set};
ghost use Rattle.lightest.specs.Tree.{lighter_of, id_at, root, Knows, Knew, Ready, worked_out};

// How many leaves a tree of so many levels has.
pub fn leaves_of(depth: u32) -> usize
    requires { depth ≤ 12 }
    ensures value { result ≡ 2 ^ depth }
    ensures few { (0 < result) × (result ≤ 4096) }
{
    1usize << depth
}

// The lighter of two parts; of equals the first.
#[tactic(auto, unfolding(rules::specs::Sums::pick, crate::specs::Tree::lighter_of))]
fn lighter(parts: &[u64; 4096], a: usize, b: usize) -> usize
    requires { (a < 4096) × (b < 4096) }
    ensures { result ≡ lighter_of parts.now a b }
{
    if parts[b] < parts[a] { b } else { a }
}

// The id at a node.
#[tactic(auto, unfolding(rules::specs::Sums::pick, crate::specs::Tree::id_at))]
fn id_at(leaves: usize, node: usize, tree: &[usize; 4096]) -> usize
    requires { leaves ≤ 4096 }
    ensures { result ≡ id_at leaves tree.now node }
{
    if node < leaves {
        tree[node]
    } else {
        node - leaves
    }
}

// Works a node out from the two below it.
fn work_out(leaves: usize, node: usize, parts: &[u64; 4096], tree: &mut [usize; 4096])
    requires { Ready leaves tree.old node }
    ensures { tree.new ≡ set tree.old node (worked_out leaves parts.now tree.old node) }
{
    let left = id_at(leaves, 2 * node, tree);
    let right = id_at(leaves, 2 * node + 1, tree);
    tree[node] = lighter(parts, left, right);
}

// Writes the tree of the parts as they are.
pub fn make(depth: u32, parts: &[u64; 4096], tree: &mut [usize; 4096])
    requires { depth ≤ 12 }
    ensures { Knows (2 ^ depth) parts.now tree.new }
{
    *tree = [0usize; 4096];
    let leaves = leaves_of(depth);
    for node in (1..leaves).rev() {
        work_out(leaves, node, parts, tree);
    }
}

// Writes the tree anew after part `id` was raised: from its leaf up, as long as it was the lightest there.
pub fn raised(depth: u32, id: usize, parts: &[u64; 4096], tree: &mut [usize; 4096])
    requires depth_bound { (depth ≤ 12) × (id < 2 ^ depth) }
    requires knew { Knew (2 ^ depth) id parts.now tree.old }
    ensures { Knows (2 ^ depth) parts.now tree.new }
{
    let leaves = leaves_of(depth);
    let mut node = (leaves + id) / 2;
    // A `while`: each step goes to half the node, and the way may end before the root.
    while 0 < node {
        if tree[node] != id {
            return;
        }
        work_out(leaves, node, parts, tree);
        node = node / 2;
    }
}

// The id of the lightest part, the first of equals.
pub fn lightest(tree: &[usize; 4096]) -> usize
    ensures { result ≡ root tree.now }
{
    tree[1]
}
