// The fields of a line, one after the other.
ghost use Rattle.std.specs.Prelude.{◌≡◌, ◌-◌, length};
ghost use Rattle.std.specs.Iterator.{at_most};
ghost use Rattle.fields.specs.Fields.{field_at};
ghost use Rattle.fields.specs.Line.{GivesField, bytes_of};

use crate::{Field, field_at};

// From a field's first byte to before another.
#[derive(Clone, Copy, Debug, PartialEq, Eq)]
pub struct Span {
    pub start: usize,
    pub end: usize,
}

impl Span {
    // The bytes of a text, none where they do not lie in it so.
    pub fn of(self, text: &[u8]) -> &[u8]
        ensures { result.now ≡ bytes_of text.now self }
    {
        text.get(self.start..self.end).unwrap_or(&[])
    }
}

// The fields of the line of a text that goes on at `at`, where a field may begin. Where no field is left, `at` is the place of
// what ends the line.
#[derive(Clone, Copy, Debug)]
pub struct Fields<'a> {
    pub text: &'a [u8],
    pub separator: u8,
    pub at: usize,
}

impl Iterator for Fields<'_> {
    type Item = Span;

    ghost next_gives = { GivesField };

    ghost remaining = { λ s. at_most (length s.text.now - s.at) };

    fn next(&mut self) -> Option<Span> {
        let Field::Word(start, end, next) = self.ahead() else {
            return None;
        };
        self.at = next;
        Some(Span { start, end })
    }
}

impl Fields<'_> {
    // What stands next: a field, or what ends the line.
    pub fn ahead(&self) -> Field
        ensures { result ≡ field_at self.now.separator self.now.text.now self.now.at }
    {
        field_at(self.text, self.at, self.separator)
    }
}
