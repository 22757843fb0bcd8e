// What has been met of a word that is read as a decimal, a step a byte.
//
// A decimal is a sign or none, digits with at most one point before, among or behind them, and perhaps an `e` or `E` with
// an exponent behind it (crate `exponents`). `step` is `met_step` of its spec: whatever bytes are met, in whatever order, something has
// been met, or it is wrong, with its place.
#![tactic(auto)]

ghost use Rattle.std.specs.Prelude.{◌≡◌};
ghost use Rattle.decimal_steps.specs.Steps.{is_mark, no_decimal, whole_digit, decimal_digit, first_byte, unsigned_byte, whole_byte, decimal_byte, met_step};

use exponents::{Exponent, NotExponent, exponent_step};
use wholes::is_digit;

// What has been met of a word: nothing, a sign, whole digits, a point with no digit before it, a point and digits, or an `e` and
// what has been met behind it. The bool says whether the sign is a minus, the first number is all digits so far and the second how
// many of them are decimals. An enum of its own: six cases, more than an Option has. Sign, digits and decimals are no struct: the
// cases before a point have one or two of them, and each step would take it apart and build it anew.
#[derive(Clone, Copy, Debug, PartialEq, Eq)]
pub enum Met {
    Start,
    Sign(bool),
    Whole(bool, u64),
    Point(bool),
    Decimals(bool, u64, u32),
    Mark(bool, u64, u32, Exponent),
}

// Why a word is no decimal: the place of a byte that stands wrong, of a 20th digit, of a place too deep behind the point, of one too
// high before it, or of the end where a digit is missing.
#[derive(Clone, Copy, Debug, PartialEq, Eq)]
pub enum NotDecimal {
    Odd(usize),
    Long(usize),
    Deep(usize),
    High(usize),
    Short(usize),
}

// A digit of an exponent that leads too far down is too deep.
impl From<NotExponent> for NotDecimal {
    ghost from_gives = { λ e r. r ≡ no_decimal e };

    fn from(e: NotExponent) -> NotDecimal {
        match e {
            NotExponent::Odd(place) => NotDecimal::Odd(place),
            NotExponent::Low(place) => NotDecimal::Deep(place),
            NotExponent::High(place) => NotDecimal::High(place),
        }
    }
}

// Whether a byte starts an exponent.
fn is_mark(b: u8) -> bool
    ensures { result ≡ is_mark b }
{
    matches!(b, b'e' | b'E')
}

// One byte more where a whole digit is wanted. `10 * n + digit` is written out here and below, as in wholes: limit, type and refusal
// are others.
fn whole_digit(negative: bool, digits: u64, b: u8, at: usize) -> Result<Met, NotDecimal>
    ensures { result ≡ whole_digit negative digits b at }
{
    if !is_digit(b) {
        return Err(NotDecimal::Odd(at));
    }
    if digits > 999999999999999999 {
        return Err(NotDecimal::Long(at));
    }
    Ok(Met::Whole(negative, 10 * digits + u64::from(b - b'0')))
}

// One byte more where a decimal is wanted.
fn decimal_digit(
    negative: bool,
    digits: u64,
    decimals: u32,
    b: u8,
    at: usize,
) -> Result<Met, NotDecimal>
    ensures { result ≡ decimal_digit negative digits decimals b at }
{
    if !is_digit(b) {
        return Err(NotDecimal::Odd(at));
    }
    if digits > 999999999999999999 {
        return Err(NotDecimal::Long(at));
    }
    if decimals > 43 {
        return Err(NotDecimal::Deep(at));
    }
    Ok(Met::Decimals(negative, 10 * digits + u64::from(b - b'0'), decimals + 1))
}

// The first byte.
fn first_byte(b: u8, at: usize) -> Result<Met, NotDecimal>
    ensures { result ≡ first_byte b at }
{
    match b {
        b'-' => Ok(Met::Sign(true)),
        b'+' => Ok(Met::Sign(false)),
        _ => unsigned_byte(false, b, at),
    }
}

// The first byte behind a sign, or the first where there is none.
fn unsigned_byte(negative: bool, b: u8, at: usize) -> Result<Met, NotDecimal>
    ensures { result ≡ unsigned_byte negative b at }
{
    if b == b'.' {
        return Ok(Met::Point(negative));
    }
    whole_digit(negative, 0, b, at)
}

// One byte more behind whole digits.
fn whole_byte(negative: bool, digits: u64, b: u8, at: usize) -> Result<Met, NotDecimal>
    ensures { result ≡ whole_byte negative digits b at }
{
    if b == b'.' {
        return Ok(Met::Decimals(negative, digits, 0));
    }
    if is_mark(b) {
        return Ok(Met::Mark(negative, digits, 0, Exponent::Start));
    }
    whole_digit(negative, digits, b, at)
}

// One byte more behind a point and digits.
fn decimal_byte(
    negative: bool,
    digits: u64,
    decimals: u32,
    b: u8,
    at: usize,
) -> Result<Met, NotDecimal>
    ensures { result ≡ decimal_byte negative digits decimals b at }
{
    if is_mark(b) {
        return Ok(Met::Mark(negative, digits, decimals, Exponent::Start));
    }
    decimal_digit(negative, digits, decimals, b, at)
}

// What has been met with one byte more.
pub fn step(met: Met, b: u8, at: usize) -> Result<Met, NotDecimal>
    ensures { result ≡ met_step met b at }
{
    match met {
        Met::Start => first_byte(b, at),
        Met::Sign(negative) => unsigned_byte(negative, b, at),
        Met::Whole(negative, digits) => whole_byte(negative, digits, b, at),
        Met::Point(negative) => decimal_digit(negative, 0, 0, b, at),
        Met::Decimals(negative, digits, decimals) => {
            decimal_byte(negative, digits, decimals, b, at)
        }
        Met::Mark(negative, digits, decimals, exponent) => {
            let exponent = exponent_step(exponent, b, at)?;
            Ok(Met::Mark(negative, digits, decimals, exponent))
        }
    }
}
