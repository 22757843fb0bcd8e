// What has been met of an exponent, the word behind the `e` of a decimal, a step a byte.
//
// An exponent is a sign or none, and digits. `exponent_step` is `exponent_step` of its spec: whatever byte comes, something has
// been met, or it stands wrong, with its place. An exponent of a thousand and more is too far, whatever follows.
#![tactic(auto)]

ghost use Rattle.std.specs.Prelude.{◌≡◌};
ghost use Rattle.exponents.specs.Exponents.{too_far, exponent_digit, exponent_first, exponent_step};

use wholes::is_digit;

// What has been met: nothing, a sign, or digits. The bool says whether the sign is a minus, and the number is the digits so far. An
// enum of its own: three cases, more than an Option has.
#[derive(Clone, Copy, Debug, PartialEq, Eq)]
pub enum Exponent {
    Start,
    Sign(bool),
    Digits(bool, u32),
}

// Why it is no exponent: the place of a byte that stands wrong, or that of a digit that leads too far down or up.
#[derive(Clone, Copy, Debug, PartialEq, Eq)]
pub enum NotExponent {
    Odd(usize),
    Low(usize),
    High(usize),
}

// Too far, by a digit at a place.
fn too_far(down: bool, at: usize) -> NotExponent
    ensures { result ≡ too_far down at }
{
    if down {
        NotExponent::Low(at)
    } else {
        NotExponent::High(at)
    }
}

// One byte more where a digit is wanted. `10 * n + digit` is written out, as in wholes: limit, type and refusal are others here.
fn digit(down: bool, digits: u32, b: u8, at: usize) -> Result<Exponent, NotExponent>
    ensures { result ≡ exponent_digit down digits b at }
{
    if !is_digit(b) {
        return Err(NotExponent::Odd(at));
    }
    if digits > 99 {
        return Err(too_far(down, at));
    }
    Ok(Exponent::Digits(down, 10 * digits + u32::from(b - b'0')))
}

// The first byte.
fn first(b: u8, at: usize) -> Result<Exponent, NotExponent>
    ensures { result ≡ exponent_first b at }
{
    match b {
        b'-' => Ok(Exponent::Sign(true)),
        b'+' => Ok(Exponent::Sign(false)),
        _ => digit(false, 0, b, at),
    }
}

// What has been met with one byte more.
pub fn exponent_step(met: Exponent, b: u8, at: usize) -> Result<Exponent, NotExponent>
    ensures { result ≡ exponent_step met b at }
{
    match met {
        Exponent::Start => first(b, at),
        Exponent::Sign(down) => digit(down, 0, b, at),
        Exponent::Digits(down, digits) => digit(down, digits, b, at),
    }
}
