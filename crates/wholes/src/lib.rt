// A whole number of up to 64 bits out of a word of digits.
//
// `whole_of` reads a word from its first byte to its last and answers the number (`whole_of`), or the place of the first
// byte that is no digit or that makes the number too large; a word of no bytes is told apart. Nought may stand in front.
#![tactic(auto)]

ghost use Rattle.std.specs.Prelude.{◌≡◌};
ghost use Rattle.wholes.specs.Wholes.{is_digit, digit_on, whole_of};

// Why a word is no whole number: the place of a byte that is no digit, or of the digit that makes the number too large for
// 64 bits; no word at all has no digit.
#[derive(Clone, Copy, Debug, PartialEq, Eq)]
pub enum NotWhole {
    Odd(usize),
    Large(usize),
    Empty,
}

// Whether a byte is a digit.
pub fn is_digit(b: u8) -> bool
    ensures { result ≡ is_digit b }
{
    matches!(b, b'0'..=b'9')
}

// A number with one byte more behind it. exponents, decimal_steps and decimals write `10 * n + digit` out too: limit, type and
// refusal differ, and the sum alone is shorter than a call.
fn digit_on(value: u64, b: u8, at: usize) -> Result<u64, NotWhole>
    ensures { result ≡ digit_on value b at }
{
    if !is_digit(b) {
        return Err(NotWhole::Odd(at));
    }
    let d = (b - b'0') as u64;
    if (u64::MAX - d) / 10 < value {
        return Err(NotWhole::Large(at));
    }
    Ok(10 * value + d)
}

// The word's value, or where it is wrong.
pub fn whole_of(word: &[u8]) -> Result<u64, NotWhole>
    ensures { result ≡ whole_of word.now }
{
    if word.is_empty() {
        return Err(NotWhole::Empty);
    }
    let mut value = 0;
    for (i, b) in word.iter().enumerate() {
        value = digit_on(value, *b, i)?;
    }
    Ok(value)
}
