// Bits spread out: the deposit, and the z-order of a cell.
//
// In the z-order a level's bits stand side by side, x's above y's, y's above z's: in 2D bit 2 * k + 1 is bit k of x, and bit 2 * k that of y;
// in 3D bits 3 * k + 2, 3 * k + 1 and 3 * k are those of x, y and z.
//
// So x and y go onto the masks 0xaaaa_aaaa_aaaa_aaaa and 0x5555_5555_5555_5555, and in 3D x, y and z onto 0x4924_9249_2492_4924,
// 0x2492_4924_9249_2492 and 0x9249_2492_4924_9249. On these masks bits are spread in steps, without a loop: a run of 32 bits becomes two runs of 16,
// then four of 8, until the bits stand alone, two or three places apart. What has no room in 64 bits goes over the top.
//
// A caller may rely on: level k of the z-order is the cell's quadrant of level k, and nothing stands above the order's levels (`Interleaved`);
// each contract leaves one answer (proofs/Once.antt, `deposit_only`, `zorder_2d_only`, `zorder_3d_only`). z's mask alone has 22 bits, and bit 21 of
// a source comes to stand at bit 63 (proofs/Masks.antt, `bit_21_at_63`).
#![tactic(auto)]

ghost use Rattle.std.specs.Prelude.{◌≡◌, ◌*◌, ◌/◌, ◌%◌, ◌^◌, ◌<◌, ◌≤◌, bit_and, bit_or};
ghost use Rattle.rules.specs.Refusals.{top3};
ghost use Rattle.rules.specs.Curve.{deposit_of, cell2, cell3};
ghost use Rattle.spread.specs.Depositing.{comes_to};
ghost use Rattle.spread.specs.Interleaved.{Interleaved};

// A deposit under way: what is placed, and what is left of the mask and of the source.
#[derive(Drop)]
struct Depositing {
    result: u64,
    bitmask: u64,
    srcbit: u64,
}

// The same deposit with the source's lowest bit placed on the mask's lowest set bit, if there is one.
fn place(d: Depositing) -> Depositing
    ensures { (comes_to result ≡ comes_to d) × (result.srcbit ≡ d.srcbit / 2) }
{
    let rightmost = d.bitmask & std::num::wrapping_sub_u64(0, d.bitmask);
    Depositing {
        result: d.result | (d.srcbit & 1) * rightmost,
        bitmask: d.bitmask & std::num::wrapping_sub_u64(d.bitmask, 1),
        srcbit: d.srcbit >> 1,
    }
}

// The source's bits, lowest first, on the mask's set bits, lowest first. Four bits a turn.
fn deposit_bits(source: u64, mask: u64) -> u64
    ensures { result ≡ deposit_of source mask }
{
    let mut d = Depositing {
        result: 0,
        bitmask: mask,
        srcbit: source,
    };
    while d.srcbit != 0 {
        if d.bitmask == 0 {
            return d.result;
        }
        d = place(place(place(place(d))));
    }
    d.result
}

// Every run of bits as two of half its width: the upper half moves up by shift, and mask has the places of all halves.
fn step(runs: u64, shift: u32, mask: u64) -> u64
    requires { shift < 64 }
    ensures { result ≡ bit_and (bit_or runs (runs * 2 ^ shift % 2 ^ 64)) mask }
{
    (runs | (runs << shift)) & mask
}

// The deposit on every second bit, from bit 0, in five steps. It and spread_3d differ in their constants alone, which stand plainest in a row.
fn spread_2d(source: u64) -> u64
    ensures { result ≡ deposit_of source 0x5555_5555_5555_5555 }
{
    let by16 = step(source & 0xffff_ffff, 16, 0x0000_ffff_0000_ffff);
    let by8 = step(by16, 8, 0x00ff_00ff_00ff_00ff);
    let by4 = step(by8, 4, 0x0f0f_0f0f_0f0f_0f0f);
    let by2 = step(by4, 2, 0x3333_3333_3333_3333);
    step(by2, 1, 0x5555_5555_5555_5555)
}

// The deposit on every third bit, from bit 0, in five steps.
fn spread_3d(source: u64) -> u64
    ensures { result ≡ deposit_of source 0x9249_2492_4924_9249 }
{
    let by16 = step(source & 0xffff_ffff, 32, 0xffff_0000_0000_ffff);
    let by8 = step(by16, 16, 0x00ff_0000_ff00_00ff);
    let by4 = step(by8, 8, 0xf00f_00f0_0f00_f00f);
    let by2 = step(by4, 4, 0x30c3_0c30_c30c_30c3);
    step(by2, 2, 0x9249_2492_4924_9249)
}

// The source's bits, lowest first, on the mask's set bits, lowest first. Surplus bits of the source are dropped. A mask that repeats six bits, as
// the five of the z-order do, differs from itself six places up in its lowest six alone, which tell it. On those five the bits are spread in
// steps, on any other mask one after the other.
pub fn deposit(source: u64, mask: u64) -> u64
    ensures { result ≡ deposit_of source mask }
{
    match mask ^ (mask << 6) {
        0 => 0,
        0b010101 => spread_2d(source),
        0b101010 => spread_2d(source) << 1,
        0b001001 => spread_3d(source),
        0b010010 => spread_3d(source) << 1,
        0b100100 => spread_3d(source) << 2,
        _ => deposit_bits(source, mask),
    }
}

// The bits of x and y side by side. It and zorder_3d share no more than the `|`, since each has its own way to spread bits.
pub fn zorder_2d(x: u64, y: u64, order: u32) -> u64
    requires { (order ≤ 32) × (x < 2 ^ order) × (y < 2 ^ order) }
    ensures { Interleaved 2 order (cell2 x y) result }
{
    (spread_2d(x) << 1) | spread_2d(y)
}

// The bits of x, y and z side by side.
pub fn zorder_3d(x: u64, y: u64, z: u64, order: u32) -> u64
    requires { (order ≤ top3) × (x < 2 ^ order) × (y < 2 ^ order) × (z < 2 ^ order) }
    ensures { Interleaved 3 order (cell3 x y z) result }
{
    (spread_3d(x) << 2) | (spread_3d(y) << 1) | spread_3d(z)
}
