// What is wrong with a file, on standard error: the file, line and column, what was found and what was wanted, or the refusal.
//
// The faults of a file are kept until it has been read, the first 20 of them.
use crate::source::{Source, Span};
use arrayvec::ArrayVec;
use messages::{Failure, Found, Outcome, say, say_at};
use rules::Refusal;
use std::fmt;

// A refusal as it is said, with its number.
#[derive(Clone, Copy)]
pub struct Refused(pub Refusal);

impl fmt::Display for Refused {
    fn fmt<W: fmt::Write>(&self, f: &mut fmt::Formatter<W>) -> fmt::Result {
        let refusal = self.0;
        let number = u32::from(refusal);
        write!(f, "refusal {number}: {refusal}")
    }
}

// How many fields a line has.
#[derive(Clone, Copy, Debug, PartialEq, Eq)]
pub struct Counted {
    line: usize,
    fields: usize,
}

impl Counted {
    // The fields of the line at a place.
    pub fn at(source: Source<'_>, at: usize) -> Counted
        ensures { Unit {0} }
    {
        Counted {
            line: text::place_at(source.text, at).line,
            fields: source.line(at).fields().count(),
        }
    }
}

impl fmt::Display for Counted {
    fn fmt<W: fmt::Write>(&self, f: &mut fmt::Formatter<W>) -> fmt::Result {
        let line = self.line;
        let fields = self.fields;
        write!(f, "line {line} has {fields}")
    }
}

// What is wrong.
#[derive(Clone, Copy, Debug, PartialEq, Eq)]
pub enum Wrong {
    // A field is no decimal.
    NoDecimal,
    // It has too many digits, too many places behind the point, or too many zeros behind the digits.
    Long,
    Deep,
    High,
    // It stands behind as many as there may be.
    Many,
    // It is no whole number.
    NoWhole,
    // A layer that ends has not as many lines as the one before it.
    Layer,
    // There is no field in the whole file.
    Nothing,
    // A field is empty, or refused.
    Empty,
    Refused(Refusal),
    // A line has neither 2 nor 3 numbers, and no columns were chosen; not as many as another line; no field in a column, counted from 1; or not
    // as many numbers as an event has by its coordinates.
    Columns,
    Ragged(Counted),
    Missing(usize),
    Event(usize),
}

// What was wanted, or the refusal.
impl fmt::Display for Wrong {
    fn fmt<W: fmt::Write>(&self, f: &mut fmt::Formatter<W>) -> fmt::Result {
        match *self {
            Wrong::NoDecimal => f.write_str("wanted a decimal such as 23.98, -1 or 2.4e1"),
            Wrong::Long => f.write_str("wanted a decimal of at most 19 digits"),
            Wrong::Deep => f.write_str("wanted at most 44 places behind the point"),
            Wrong::High => f.write_str("wanted at most 22 zeros behind the digits"),
            Wrong::Many => f.write_str("wanted at most 65,536 of them"),
            Wrong::NoWhole => f.write_str("wanted a whole number of at most 64 bits"),
            Wrong::Layer => f.write_str("wanted as many lines in each layer as in the first"),
            Wrong::Nothing => f.write_str("wanted at least one line with numbers"),
            Wrong::Empty => f.write_str("wanted a number"),
            Wrong::Refused(refusal) => write!(f, "{}", Refused(refusal)),
            Wrong::Columns => f.write_str("wanted 2 or 3; 'columns' chooses among more"),
            Wrong::Ragged(other) => write!(f, "{other}"),
            Wrong::Missing(column) => write!(f, "wanted a number in column {column}"),
            Wrong::Event(numbers) => {
                write!(
                    f,
                    "wanted 2 (cell and amount) or {numbers} (coordinates and amount)"
                )
            }
        }
    }
}

// What is wrong, and where it was found: a field, or a place.
#[derive(Clone, Copy, Debug, PartialEq, Eq)]
struct Fault {
    wrong: Wrong,
    span: Span,
}

// What stands in the room for faults that are to come.
impl Default for Fault {
    fn default() -> Fault {
        Fault {
            wrong: Wrong::Nothing,
            span: Span { start: 0, end: 0 },
        }
    }
}

impl Fault {
    fn say(self, source: Source<'_>) {
        let Fault { wrong, span } = self;
        let at = span.start;
        match wrong {
            Wrong::Columns | Wrong::Ragged(_) | Wrong::Event(_) => {
                let line = Counted::at(source, at);
                say_at(
                    source.path,
                    source.text,
                    at,
                    format_args!("{line} numbers, {wrong}"),
                );
            }
            Wrong::Missing(_) => {
                let line = Counted::at(source, at);
                say_at(
                    source.path,
                    source.text,
                    at,
                    format_args!("{line} fields, {wrong}"),
                );
            }
            _ => {
                let found = Found(source.bytes(span));
                say_at(
                    source.path,
                    source.text,
                    at,
                    format_args!("{found}, {wrong}"),
                );
            }
        }
    }
}

// The faults of a file, and whether there are more than are kept.
#[derive(Drop)]
pub struct Faults {
    kept: ArrayVec<Fault, 20>,
    more: bool,
}

impl Faults {
    pub fn none() -> Faults
        ensures { Unit {0} }
    {
        Faults {
            kept: ArrayVec::new(),
            more: false,
        }
    }

    // Keeps a fault, while there is room.
    pub fn note(&mut self, wrong: Wrong, span: Span)
        ensures { Unit {0} }
    {
        if self.kept.try_push(Fault { wrong, span }).is_err() {
            self.more = true;
        }
    }

    // Keeps a fault of a place, where a line with it starts or where something is missing.
    pub fn note_at(&mut self, wrong: Wrong, at: usize)
        ensures { Unit {0} }
    {
        self.note(wrong, Span { start: at, end: at });
    }

    // Whether there are more faults than are kept, so that reading on finds nothing to be said.
    pub fn is_full(&self) -> bool
        ensures { Unit {0} }
    {
        self.more
    }

    // Says all faults that were kept, and whether there are more; a failure where there are any.
    pub fn say_all(&self, source: Source<'_>) -> Outcome
        ensures { Unit {0} }
    {
        for fault in &self.kept {
            fault.say(source);
        }
        if self.more {
            say(source.path, "more is wrong behind these");
        }
        if self.kept.is_empty() {
            return Ok(());
        }
        Err(Failure::Failed)
    }
}
