// What a line comes to: its case agrees, differs or cannot be read, or it has none; and how many lines come to what.
use crate::answer::{Answer, First};
use crate::calls::{Request, call};
use crate::line::{Unread, Words};
use crate::output::say;
use crate::sheet::{ROOM, read};
use std::fmt;

#[derive(Drop)]
pub(crate) enum Verdict {
    Agrees,
    Differs(First),
}

// Carries out a line's call and holds the answer against the line's; none where the line has no case.
pub(crate) fn verdict_of(line: &[u8], sheet: &mut [u64; ROOM]) -> Result<Option<Verdict>, Unread> {
    let mut words = Words::of(line);
    let Some(name) = words.next() else {
        return Ok(None);
    };
    let unread = Unread { start: name.start };
    let case = read(words, sheet)?.ok_or(unread)?;
    let mut answer = Answer::of(&case);
    let request = Request {
        name: name.text,
        parts: case.parts.as_slice(),
    };
    call(request, &mut answer);
    if answer.is_empty() {
        return Err(unread);
    }
    if answer.agrees() {
        return Ok(Some(Verdict::Agrees));
    }
    Ok(Some(Verdict::Differs(answer.first())))
}

// How many lines of a file came to what.
#[derive(Clone, Copy, Debug, Default)]
pub(crate) struct Tally {
    lines: u64,
    agree: u64,
    differ: u64,
    unread: u64,
}

impl Tally {
    // Counts the next line, and says where it does not agree.
    pub(crate) fn add(&mut self, line: &[u8], verdict: Result<Option<Verdict>, Unread>) {
        self.lines = self.lines.saturating_add(1);
        let number = self.lines;
        match verdict {
            Ok(None) => {}
            Ok(Some(Verdict::Agrees)) => self.agree = self.agree.saturating_add(1),
            Ok(Some(Verdict::Differs(first))) => {
                self.differ = self.differ.saturating_add(1);
                say(format_args!("  line {number} differs, the answer is{first}"));
            }
            Err(Unread { start }) => {
                self.unread = self.unread.saturating_add(1);
                let column = text::place_at(line, start).column;
                say(format_args!("  line {number} cannot be read at column {column}"));
            }
        }
    }
}

impl fmt::Display for Tally {
    fn fmt<W: fmt::Write>(&self, f: &mut fmt::Formatter<W>) -> fmt::Result {
        let Tally {
            agree,
            differ,
            unread,
            ..
        } = *self;
        write!(f, "{agree} agree, {differ} differ, {unread} cannot be read")
    }
}
