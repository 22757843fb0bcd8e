// A whole number over or times a power of ten, as the f64 nearest to it: one rounding, ties to even.
//
// A whole number up to 2^53 is an f64 exactly, and so is 10^k up to 22: one division or multiplication rounds once. What is
// larger goes by way of the power of five (crate `fives`).
#![tactic(auto)]

ghost use Rattle.std.specs.Prelude.{◌*◌, ◌^◌, ◌≤◌, ◌≡◌};
ghost use Rattle.std.specs.Float.{binary64};
ghost use Rattle.std.specs.Float.Ieee.{round};
ghost use Rattle.ratio.specs.Ratio.{Tens};

use fives::{over_by_fives, signed, times_by_fives};

// Up to 2^53 every whole number is an f64.
const EXACT: u64 = 9007199254740992;

// 10 to the power k, which is an f64 up to 22: a number and no type of such powers, since `over_tens` takes one up to 44.
fn power_of_ten(k: u32) -> f64
    requires { k ≤ 22 }
    ensures { Tens k result }
{
    // A match and no table: a constant array would list the same numbers, and each of them is proved by its key all the same.
    match k {
        0 => 1.0,
        1 => 10.0,
        2 => 100.0,
        3 => 1000.0,
        4 => 10000.0,
        5 => 100000.0,
        6 => 1000000.0,
        7 => 10000000.0,
        8 => 100000000.0,
        9 => 1000000000.0,
        10 => 10000000000.0,
        11 => 100000000000.0,
        12 => 1000000000000.0,
        13 => 10000000000000.0,
        14 => 100000000000000.0,
        15 => 1000000000000000.0,
        16 => 10000000000000000.0,
        17 => 100000000000000000.0,
        18 => 1000000000000000000.0,
        19 => 10000000000000000000.0,
        20 => 100000000000000000000.0,
        21 => 1000000000000000000000.0,
        _ => 10000000000000000000000.0,
    }
}

// The f64 nearest to digits / 10^k, with its sign.
pub fn over_tens(negative: bool, digits: u64, k: u32) -> f64
    requires { k ≤ 44 }
    ensures { result ≡ round binary64 negative digits (10 ^ k) }
{
    if digits == 0 {
        return signed(negative, 0);
    }
    if digits > EXACT || k > 22 {
        return over_by_fives(negative, digits, k);
    }
    signed(negative, digits) / power_of_ten(k)
}

// The f64 nearest to digits * 10^k, with its sign.
pub fn times_tens(negative: bool, digits: u64, k: u32) -> f64
    requires { k ≤ 22 }
    ensures { result ≡ round binary64 negative (digits * 10 ^ k) 1 }
{
    if digits > EXACT {
        return times_by_fives(negative, digits, k);
    }
    signed(negative, digits) * power_of_ten(k)
}
