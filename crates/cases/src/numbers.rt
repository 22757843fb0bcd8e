// A word of a case as a number: a whole number; a decimal with a point, `nan`, `inf` or `-inf` as the bits of an f64; `uncut`, the
// split of a node that is not cut; or `any`, which stands for any number of an answer.
use crate::floats::{INFINITE, NAN, NEGATIVE, bits};
use arrayvec::CapacityError;
use decimals::NotDecimal;
use wholes::NotWhole;

// What `any` is read as. It is a number, since the library is lent the numbers of a request as a slice; no case can ask for it itself.
pub(crate) const ANY: u64 = 18446744073709551614;

// The bits of a NaN that none is read as; no case can ask for this number either.
const OTHER_NAN: u64 = 0xfff8_0000_0000_0001;

// A word is none that may stand there.
#[derive(Clone, Copy, Debug, PartialEq, Eq)]
pub(crate) struct Odd;

impl From<NotWhole> for Odd {
    fn from(_: NotWhole) -> Odd {
        Odd
    }
}

impl From<NotDecimal> for Odd {
    fn from(_: NotDecimal) -> Odd {
        Odd
    }
}

impl<T: Drop> From<CapacityError<T>> for Odd {
    fn from(_: CapacityError<T>) -> Odd {
        Odd
    }
}

// A number that stands as many times.
#[derive(Clone, Copy)]
pub(crate) struct Repeated {
    pub(crate) times: u64,
    pub(crate) number: u64,
}

impl Repeated {
    // A number such as `12` or, for eight of them, `8*12`.
    pub(crate) fn of(word: &[u8]) -> Result<Repeated, Odd> {
        let Some(star) = word.iter().position(|b| *b == b'*') else {
            let number = number_of(word)?;
            return Ok(Repeated { times: 1, number });
        };
        Ok(Repeated {
            times: whole(&word[..star])?,
            number: number_of(&word[star + 1..])?,
        })
    }
}

// A whole number.
fn whole(word: &[u8]) -> Result<u64, Odd> {
    match wholes::whole_of(word)? {
        ANY | OTHER_NAN => Err(Odd),
        number => Ok(number),
    }
}

// The bits of a decimal.
fn decimal(word: &[u8]) -> Result<u64, Odd> {
    let value = decimals::decimal_of(word)?;
    Ok(bits(value))
}

// The number that a word stands for.
fn number_of(word: &[u8]) -> Result<u64, Odd> {
    match word {
        b"any" => Ok(ANY),
        b"uncut" => Ok(u64::from(rules::UNCUT)),
        b"nan" => Ok(NAN),
        b"inf" => Ok(INFINITE),
        b"-inf" => Ok(NEGATIVE),
        _ => whole(word).or_else(|_| decimal(word)),
    }
}
