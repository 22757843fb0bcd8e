// The answer to a case, held against what is wanted as it comes.
use crate::numbers::ANY;
use crate::sheet::Case;
use arrayvec::ArrayVec;
use axis_make::refusal_of;
use rules::Refusal;
use std::fmt;

// The first numbers of an answer, which are printed where it differs.
#[derive(Drop)]
pub(crate) struct First(ArrayVec<u64, 32>);

impl fmt::Display for First {
    fn fmt<W: fmt::Write>(&self, f: &mut fmt::Formatter<W>) -> fmt::Result {
        for number in &self.0 {
            write!(f, " {number}")?;
        }
        Ok(())
    }
}

// What is still wanted, whether all before it is what was, for how many more numbers the sheet has room, and the first numbers.
#[derive(Drop)]
pub(crate) struct Answer<'a> {
    wanted: &'a [u64],
    agrees: bool,
    room: usize,
    first: First,
}

impl<'a> Answer<'a> {
    pub(crate) fn of(case: &Case<'a>) -> Answer<'a> {
        Answer {
            wanted: case.wanted,
            agrees: true,
            room: case.room,
            first: First(ArrayVec::new()),
        }
    }

    // Takes a number; one that has no room on the sheet is left out.
    pub(crate) fn number(&mut self, number: u64) {
        if self.room == 0 {
            return;
        }
        self.room -= 1;
        let _ = self.first.0.try_push(number);
        match self.wanted {
            [wanted, rest @ ..] if *wanted == ANY || *wanted == number => self.wanted = rest,
            _ => self.agrees = false,
        }
    }

    // Takes the number of refusal, 0 of what is not refused.
    pub(crate) fn refusal(&mut self, refused: Result<(), Refusal>) {
        self.number(u64::from(refusal_of(refused)));
    }

    // Takes the number of refusal and the values, which are as many zeros after a refusal.
    pub(crate) fn values<const N: usize>(&mut self, values: Result<[u64; N], Refusal>) {
        let (refusal, values) = match values {
            Ok(values) => (0, values),
            Err(refusal) => (u32::from(refusal), [0; N]),
        };
        self.number(u64::from(refusal));
        for value in &values {
            self.number(*value);
        }
    }

    // Whether there is no answer.
    pub(crate) fn is_empty(&self) -> bool {
        self.first.0.is_empty()
    }

    // Whether it is all that was wanted.
    pub(crate) fn agrees(&self) -> bool {
        self.agrees && self.wanted.is_empty()
    }

    pub(crate) fn first(self) -> First {
        self.first
    }
}
