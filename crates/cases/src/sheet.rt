// A case on a sheet of numbers: those of the parts of its request one after the other, and behind them what is wanted.
ghost use Rattle.std.specs.Prelude.{◌≤◌};

use crate::line::{Unread, Words};
use crate::numbers::{Odd, Repeated};
use arrayvec::ArrayVec;

// How many numbers a case has, with those of the answer. An array is lent for them: an `ArrayVec` of as many is copied as it is made, and its
// copies have no room on the stack.
pub(crate) const ROOM: usize = 331760;

// How many parts a request has.
const MOST_PARTS: usize = 8;

// A case: the parts of its request, what is wanted, and how many numbers of an answer there is room for.
#[derive(Drop)]
pub(crate) struct Case<'a> {
    pub(crate) parts: ArrayVec<&'a [u64], MOST_PARTS>,
    pub(crate) wanted: &'a [u64],
    pub(crate) room: usize,
}

// How many numbers have been read, where each part of the request ends, and whether the request has.
#[derive(Drop)]
struct Reading {
    count: usize,
    ends: ArrayVec<usize, MOST_PARTS>,
    is_asked: bool,
    ghost fits: { count ≤ 331760 },
}

// Reads the words of a case behind the name of its call: the parts of the request, each ended by `/` or the last by `=`, and what is
// wanted. No case where the request does not end.
pub(crate) fn read<'a>(
    words: Words<'_>,
    numbers: &'a mut [u64; ROOM],
) -> Result<Option<Case<'a>>, Unread> {
    let mut reading = Reading {
        count: 0,
        ends: ArrayVec::new(),
        is_asked: false,
    };
    for word in words {
        if reading.take(word.text, numbers).is_err() {
            return Err(Unread { start: word.start });
        }
    }
    Ok(reading.case(numbers))
}

impl Reading {
    // Takes a word. `/` parts what is wanted for the eye alone.
    fn take(&mut self, word: &[u8], numbers: &mut [u64; ROOM]) -> Result<(), Odd> {
        match word {
            b"/" if self.is_asked => Ok(()),
            b"/" => self.end_part(),
            b"=" if self.is_asked => Err(Odd),
            b"=" => {
                self.is_asked = true;
                self.end_part()
            }
            _ => self.put(Repeated::of(word)?, numbers),
        }
    }

    fn end_part(&mut self) -> Result<(), Odd> {
        self.ends.try_push(self.count)?;
        Ok(())
    }

    fn put(&mut self, repeated: Repeated, numbers: &mut [u64; ROOM]) -> Result<(), Odd> {
        let times = repeated.times as usize;
        let free = numbers[self.count..].get_mut(..times).ok_or(Odd)?;
        free.fill(repeated.number);
        self.count += times;
        Ok(())
    }

    // The case that has been read; none where its request has not ended.
    fn case<'a>(&self, numbers: &'a [u64; ROOM]) -> Option<Case<'a>> {
        if !self.is_asked {
            return None;
        }
        let mut parts = ArrayVec::new();
        let mut start = 0;
        for end in &self.ends {
            let part = numbers.get(start..*end).unwrap_or(&[]);
            let _ = parts.try_push(part);
            start = *end;
        }
        Some(Case {
            parts,
            wanted: numbers.get(start..self.count).unwrap_or(&[]),
            room: ROOM - self.count,
        })
    }
}
