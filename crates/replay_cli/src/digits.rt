// Whole numbers of up to 48 digits: the sides of the bounds have up to 43.
use std::fmt;
use std::ops::Add;

// Digits, the highest first, so that they compare as their numbers do.
#[derive(Clone, Copy, Debug, PartialEq, Eq, PartialOrd, Ord)]
pub(crate) struct Digits([u8; 48]);

impl Digits {
    // The digits of n * f * s^k.
    pub(crate) fn product(n: u64, f: u8, s: u8, k: u32) -> Digits {
        let mut digits = Digits::from(n).times(f);
        for _ in 0..k {
            digits = digits.times(s);
        }
        digits
    }

    fn times(mut self, s: u8) -> Digits {
        let mut carried = 0;
        for digit in self.0.iter_mut().rev() {
            let (rest, over) = times(*digit, s, carried);
            *digit = rest;
            carried = over;
        }
        self
    }
}

// A digit times s with what is carried to it, and what it carries on.
fn times(digit: u8, s: u8, carried: u32) -> (u8, u32) {
    let all = u64::from(digit) * u64::from(s) + u64::from(carried);
    ((all % 10) as u8, (all / 10) as u32)
}

impl From<u64> for Digits {
    fn from(n: u64) -> Digits {
        let mut digits = [0; 48];
        let mut rest = n;
        for digit in digits.iter_mut().rev() {
            *digit = (rest % 10) as u8;
            rest /= 10;
        }
        Digits(digits)
    }
}

impl Add for Digits {
    type Output = Digits;

    fn add(mut self, other: Digits) -> Digits {
        let mut carried = 0;
        for (digit, more) in self.0.iter_mut().zip(&other.0).rev() {
            let all = u16::from(*digit) + u16::from(*more) + carried % 10;
            *digit = (all % 10) as u8;
            carried = all / 10;
        }
        self
    }
}

// Without noughts in front.
impl fmt::Display for Digits {
    fn fmt<W: fmt::Write>(&self, f: &mut fmt::Formatter<W>) -> fmt::Result {
        let first = self.0.iter().position(|digit| *digit != 0).unwrap_or(47);
        for digit in self.0.iter().skip(first) {
            write!(f, "{digit}")?;
        }
        Ok(())
    }
}
