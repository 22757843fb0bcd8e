// The ids of cells by a tree of splits, which know nothing of weights, inside: `halve` calls it.
//
//   splits   node i at place i - 1: below the cut a cell goes left to node 2i, else right to node 2i + 1
//   id       0 at the root, 2 * id on the left, 2 * id + 1 on the right: every cell passes all levels
//   ids      row by row, each row's own stretch of the slice
//
// An id is the rule's for any splits (write_rows_only, write_ids_only), and below 2^depth (ids_below).
#![tactic(auto)]

ghost use Rattle.std.specs.Prelude.{◌≡◌, ◌<◌, ◌*◌, length};
ghost use Rattle.rules.specs.Sums.{list};
ghost use Rattle.rules.specs.Grid.{on};
ghost use Rattle.rules.specs.Halving.{walk, ids_of};
ghost use Rattle.halving_laws.specs.Nodes.{Places};
ghost use Rattle.blocks.specs.Blocks.{sides_of};
ghost use Rattle.ids.specs.Ids.{id_on, id_at, Axes};

use blocks::Halving;

// The id of a cell: `depth` cuts across so many axes in turn, from the axis `first` on. Their number is a constant, since the next axis is
// found in each cell at each level.
fn part_of<const AXES: usize>(splits: &[u32], depth: usize, first: usize, cell: &[usize; 3]) -> u32
    requires places { Places 1 depth (length splits.now) }
    requires axes { Axes AXES first }
    ensures { result ≡ walk splits.now AXES depth first 1 0 cell.now }
{
    let mut node: usize = 1;
    let mut id: u32 = 0;
    let mut axis = first;
    for level in 0..depth {
        let at = cell[axis];
        if at < splits[node - 1] as usize {
            node = 2 * node;
            id = 2 * id;
        } else {
            node = 2 * node + 1;
            id = 2 * id + 1;
        }
        axis = (axis + 1) % AXES;
    }
    id
}

// Writes the ids of a row of cells.
fn write_row<const AXES: usize>(
    row: &mut [u32],
    splits: &[u32],
    depth: usize,
    first: usize,
    y: usize,
    z: usize,
)
    requires places { Places 1 depth (length splits.now) }
    requires axes { Axes AXES first }
    ensures { row.new ≡ list (λ x. id_on splits.now AXES depth first x y z) (length row.old) }
{
    for (x, id) in row.iter_mut().enumerate() {
        *id = part_of::<AXES>(splits, depth, first, &[x, y, z]);
    }
}

// Writes the ids of all rows, `depth` cuts across so many axes in turn from the axis `first` on: row q is that of y = q modulo the
// height, z = q over the height.
pub fn write_rows<const AXES: usize>(
    ids: &mut [u32],
    splits: &[u32],
    depth: usize,
    first: usize,
    width: usize,
    height: usize,
    rows: usize,
)
    requires places { Places 1 depth (length splits.now) }
    requires axes { Axes AXES first }
    requires width_nonzero { (0 < width) × (0 < height) }
    requires ids_len { length ids.old ≡ width * rows }
    ensures { ids.new ≡ list (id_at splits.now AXES depth first width height) (width * rows) }
{
    // By places: what rows that chunks_exact_mut lends hold at the end, its contract doesn't say.
    for q in 0..rows {
        let a = width * q;
        write_row::<AXES>(
            &mut ids[a..a + width],
            splits,
            depth,
            first,
            q % height,
            q / height,
        );
    }
}

// Writes the ids of all cells of a halving.
pub fn write_ids(halving: &Halving, splits: &[u32], ids: &mut [u32])
    requires places { Places 1 halving.now.depth (length splits.now) }
    requires first { halving.now.first < halving.now.grid.axes }
    requires sides { (0 < on halving.now.grid.sides 0) × (0 < on halving.now.grid.sides 1) }
    requires ids_len { length ids.old ≡ on halving.now.grid.sides 0 * (on halving.now.grid.sides 1 * on halving.now.grid.sides 2) }
    ensures { ids.new ≡ ids_of (sides_of halving.now.grid) halving.now.first halving.now.depth splits.now }
{
    let [width, height, layers] = halving.grid.sides;
    let depth = halving.depth as usize;
    let rows = height * layers;
    // By an `if`: a const parameter can't be told at run time, and as an argument the number of axes costs more instructions a cell.
    if halving.grid.axes == 2 {
        write_rows::<2>(ids, splits, depth, halving.first, width, height, rows);
    } else {
        write_rows::<3>(ids, splits, depth, halving.first, width, height, rows);
    }
}
