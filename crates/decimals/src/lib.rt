// A decimal out of a word, as the f64 nearest to it.
//
// A word is a sign or none, digits with at most one point before, among or behind them, and perhaps an exponent: 24, -24, +24,
// .5, 5., 2.4e1, 1E-05. `decimal_of` answers the f64 nearest to its exact value (`decimal_of`: one rounding of the digits times
// or over a power of ten, ties to even), or the place of what stands wrong. Taken are up to 19 digits, nought in front not
// counted, and with all of them before the point an exponent from -44 to 22.
#![tactic(auto)]

ghost use Rattle.std.specs.Prelude.{◌+◌, ◌-◌, ◌*◌, ◌≤◌, true, false, ◌≡◌};
ghost use Rattle.decimals.specs.Decimals.{value_of, powered_of, end_of, decimal_of, MetBefore, whole_met};
ghost use Rattle.wholes.specs.Wholes.{is_digit};

pub use decimal_steps::NotDecimal;
use decimal_steps::{Met, step};
use exponents::Exponent;
use ratio::{over_tens, times_tens};
use wholes::is_digit;

// digits * 10^up / 10^down, in a word that ends at `at`.
fn value(negative: bool, digits: u64, up: u64, down: u64, at: usize) -> Result<f64, NotDecimal>
    ensures { result ≡ value_of negative digits up down at }
{
    if up > down {
        let zeros = up - down;
        if zeros > 22 {
            return Err(NotDecimal::High(at));
        }
        return Ok(times_tens(negative, digits, zeros as u32));
    }
    let places = down - up;
    if places > 44 {
        return Err(NotDecimal::Deep(at));
    }
    Ok(over_tens(negative, digits, places as u32))
}

// What a word is that ends at `at` with an exponent. Sign, digits and decimals are no struct: see `Met` (decimal_steps).
fn powered(
    negative: bool,
    digits: u64,
    decimals: u32,
    exponent: Exponent,
    at: usize,
) -> Result<f64, NotDecimal>
    ensures { result ≡ powered_of negative digits decimals exponent at }
{
    match exponent {
        Exponent::Start | Exponent::Sign(_) => Err(NotDecimal::Short(at)),
        Exponent::Digits(true, power) => {
            let down = u64::from(decimals) + u64::from(power);
            value(negative, digits, 0, down, at)
        }
        Exponent::Digits(false, power) => {
            value(negative, digits, u64::from(power), u64::from(decimals), at)
        }
    }
}

// What a word is that ends at `at`.
fn end(met: Met, at: usize) -> Result<f64, NotDecimal>
    ensures { result ≡ end_of met at }
{
    match met {
        Met::Start | Met::Sign(_) | Met::Point(_) => Err(NotDecimal::Short(at)),
        Met::Whole(negative, digits) => value(negative, digits, 0, 0, at),
        Met::Decimals(negative, digits, decimals) => {
            value(negative, digits, 0, u64::from(decimals), at)
        }
        Met::Mark(negative, digits, decimals, exponent) => {
            powered(negative, digits, decimals, exponent, at)
        }
    }
}

// A number with one digit more. `10 * n + digit` is written out, as in wholes and decimal_steps: here the digit is known to be one
// and to fit, and nothing is refused.
#[tactic(auto, using(wholes::proofs::Digits::digit_range))]
fn with_digit(digits: u64, b: u8) -> u64
    requires { (is_digit b ≡ true) × (digits ≤ 999999999999999999) }
    ensures { result ≡ 10 * digits + (b - 48) }
{
    10 * digits + u64::from(b - b'0')
}

// The whole number that a word begins with, and the place behind its digits; nothing where it begins otherwise.
fn whole_part(word: &[u8]) -> (u64, usize)
    ensures { MetBefore word.now (whole_met result.1 result.0) result.1 }
{
    let mut digits = 0;
    for (i, b) in word.iter().enumerate() {
        if !is_digit(*b) || digits > 999999999999999999 {
            return (digits, i);
        }
        digits = with_digit(digits, *b);
    }
    (digits, word.len())
}

// All digits of a word whose whole ones, and a point, stand before `from`, and how many of them stand behind the point; at most 44.
fn decimal_part(word: &[u8], from: usize, whole: u64) -> (u64, usize)
    requires { MetBefore word.now (Met.Decimals false whole 0) from }
    ensures few { result.1 ≤ 44 }
    ensures met_before { MetBefore word.now (Met.Decimals false result.0 result.1) (from + result.1) }
{
    let mut digits = whole;
    for (n, b) in word[from..].iter().enumerate() {
        if !is_digit(*b) || digits > 999999999999999999 || n > 43 {
            return (digits, n);
        }
        digits = with_digit(digits, *b);
    }
    (digits, word.len() - from)
}

// The word's value, or where it is wrong, from what has been met before a place.
fn ended(word: &[u8], first: Met, from: usize) -> Result<f64, NotDecimal>
    requires { MetBefore word.now first from }
    ensures value { result ≡ decimal_of word.now }
{
    let mut met = first;
    for (n, b) in word[from..].iter().enumerate() {
        met = step(met, *b, from + n)?;
    }
    end(met, word.len())
}

// The word's value, or where it is wrong. What most words are is tried first: digits, or digits, a point and digits, and no more.
pub fn decimal_of(word: &[u8]) -> Result<f64, NotDecimal>
    ensures { result ≡ decimal_of word.now }
{
    let (whole, next) = whole_part(word);
    if next == 0 {
        return ended(word, Met::Start, 0);
    }
    if next == word.len() {
        return Ok(times_tens(false, whole, 0));
    }
    if word[next] != b'.' {
        return ended(word, Met::Whole(false, whole), next);
    }
    let (digits, places) = decimal_part(word, next + 1, whole);
    let decimals = places as u32;
    let last = next + 1 + places;
    if last == word.len() {
        return Ok(over_tens(false, digits, decimals));
    }
    ended(word, Met::Decimals(false, digits, decimals), last)
}
