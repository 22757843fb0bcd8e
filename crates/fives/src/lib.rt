// A whole number over or times a power of ten, as the f64 nearest to it, by way of the power of five: 10^k = 5^k 2^k.
//
// The number is divided or multiplied by 5^k in parts, each a u64. Its leading binary digits are taken until there are 55 at
// least, and the last tells whether something is left: such a whole number rounds as the exact value does
// (`leading_digits`), and a power of two changes its exponent alone (`scaled`).
#![tactic(auto)]

ghost use Rattle.std.specs.Prelude.{◌≡◌, ◌+◌, ◌*◌, ◌^◌, ◌<◌, ◌≤◌};
ghost use Rattle.std.specs.Float.{binary64};
ghost use Rattle.std.specs.Float.Ieee.{round};
ghost use Rattle.fives.specs.Fives.{Power, Stands, number_of};

mod parts;

pub use parts::Parts;

// A whole number that stands for a fraction, 2^shift times as large.
#[derive(Clone, Copy, Debug, PartialEq, Eq)]
pub struct Marked {
    whole: u64,
    shift: u32,
}

// 2^up / 2^down: an f64 whose bits are its exponent.
fn power_of_two(up: u32, down: u32) -> f64
    requires { (up ≤ 255) × (down ≤ 255) }
    ensures { Power up down result }
{
    f64::from_bits(4503599627370496 * (1023 + up - down) as u64)
}

// 5 to the power k: a number and no type of powers up to 22, since `over_by_fives` halves one up to 44.
#[tactic(auto, using(crate::proofs::InParts::fives_below, crate::proofs::InParts::fives_pos))]
fn power_of_five(k: u32) -> u64
    requires { k ≤ 22 }
    ensures { (result ≡ 5 ^ k) × (0 < result) × (result ≤ 2 ^ 52) }
{
    5u64.pow(k)
}

// A whole number as the f64 nearest to it, with a sign.
pub fn signed(negative: bool, whole: u64) -> f64
    ensures { result ≡ round binary64 negative whole 1 }
{
    let top = std::num::nearest_u64_to_f64(whole);
    if negative {
        return -top;
    }
    top
}

// A number in parts, times a small factor.
fn times(parts: Parts, factor: u64) -> Parts
    requires { (parts.high < 2 ^ 54) × (factor ≤ 512) }
    ensures number { number_of result ≡ factor * number_of parts }
    ensures bases { (result.first ≡ parts.first) × (result.second ≡ parts.second) }
{
    let low = factor * parts.low;
    let middle = factor * parts.middle + low / parts.first;
    Parts {
        first: parts.first,
        second: parts.second,
        high: factor * parts.high + middle / parts.second,
        middle: middle % parts.second,
        low: low % parts.first,
    }
}

// A number over first * second, times 2^shift, without its fraction, from 2^54 on; made odd where there is a fraction. It lies
// between the same two even numbers as the quotient, and rounds as the quotient does. A `while`: it counts nothing and ends where the
// digits are reached.
fn leading_digits(number: Parts) -> Marked
    requires { 0 < number_of number }
    ensures { Stands (number_of number) (number.second * number.first) result }
{
    let mut parts = number;
    let mut shift: u32 = 0;
    while parts.high < 18014398509481984 {
        parts = times(parts, 512);
        shift += 9;
    }
    let whole = parts.high;
    if parts.middle + parts.low > 0 {
        return Marked {
            whole: 2 * (whole / 2) + 1,
            shift,
        };
    }
    Marked { whole, shift }
}

// digits * 5^k in parts of 32 binary digits.
fn times_power_of_five(digits: u64, k: u32) -> Parts
    requires { k ≤ 22 }
    ensures number { number_of result ≡ digits * 5 ^ k }
    ensures bases { (result.first ≡ 2 ^ 32) × (result.second ≡ 2 ^ 32) }
{
    let product = u128::from(digits) * u128::from(power_of_five(k));
    let rest = product / 4294967296;
    Parts {
        first: 4294967296,
        second: 4294967296,
        high: (rest / 4294967296) as u64,
        middle: (rest % 4294967296) as u64,
        low: (product % 4294967296) as u64,
    }
}

// digits / 10^k by way of digits / 5^k.
pub fn over_by_fives(negative: bool, digits: u64, k: u32) -> f64
    requires { (0 < digits) × (k ≤ 44) }
    ensures { result ≡ round binary64 negative digits (10 ^ k) }
{
    let first = power_of_five(k / 2);
    let second = power_of_five(k - k / 2);
    let rest = digits / first;
    let marked = leading_digits(Parts {
        first,
        second,
        high: rest / second,
        middle: rest % second,
        low: digits % first,
    });
    signed(negative, marked.whole) * power_of_two(0, marked.shift + k)
}

// digits * 10^k by way of digits * 5^k.
pub fn times_by_fives(negative: bool, digits: u64, k: u32) -> f64
    requires { (0 < digits) × (k ≤ 22) }
    ensures { result ≡ round binary64 negative (digits * 10 ^ k) 1 }
{
    let marked = leading_digits(times_power_of_five(digits, k));
    signed(negative, marked.whole) * power_of_two(64 + k, marked.shift)
}
