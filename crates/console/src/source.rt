// A file that was read, its lines, and the fields of a line.
ghost use Rattle.std.specs.Prelude.{◌-◌, ◌≤◌, length};
ghost use Rattle.std.specs.Iterator.{at_most};

pub use fields::Span;
use fields::{Field, Fields, separator_of};

// A file's name as it is said, its text, and what parts the fields of its lines.
#[derive(Clone, Copy)]
pub struct Source<'a> {
    pub path: &'a [u8],
    pub text: &'a [u8],
    pub separator: u8,
}

impl<'a> Source<'a> {
    pub fn of(path: &'a [u8], text: &'a [u8]) -> Source<'a>
        ensures { Unit {0} }
    {
        Source {
            path,
            text,
            separator: separator_of(text),
        }
    }

    // The bytes of a span, none where they do not lie in the text so.
    pub fn bytes(self, span: Span) -> &'a [u8]
        ensures { Unit {0} }
    {
        span.of(self.text)
    }

    // What is left from a place on of the line there.
    pub fn line(self, at: usize) -> Line<'a>
        ensures forward { at ≤ length self.entry.text.now → at ≤ result.end }
        ensures within { result.end ≤ length self.entry.text.now }
    {
        let start = at.min(self.text.len());
        let rest = &self.text[start..];
        let length = rest.iter().position(|b| *b == b'\n').unwrap_or(rest.len());
        Line {
            source: self,
            start,
            end: start + length,
        }
    }

    // The lines from a place on.
    pub fn lines(self, at: usize) -> Lines<'a>
        ensures { Unit {0} }
    {
        Lines { source: self, at }
    }

    // Where the first line from a place on starts that has a field, the text's end where none has.
    pub fn first_line(self, at: usize) -> usize
        ensures { Unit {0} }
    {
        let first = self.lines(at).find(|line| line.fields().next().is_some());
        first.map_or(self.text.len(), |line| line.start)
    }
}

// A line of a file, from its first byte to before its end.
#[derive(Clone, Copy)]
pub struct Line<'a> {
    pub source: Source<'a>,
    pub start: usize,
    end: usize,
}

impl<'a> Line<'a> {
    pub fn end(self) -> usize
        ensures { Unit {0} }
    {
        self.end
    }

    pub fn span(self) -> Span
        ensures { Unit {0} }
    {
        Span {
            start: self.start,
            end: self.end,
        }
    }

    pub fn bytes(self) -> &'a [u8]
        ensures { Unit {0} }
    {
        self.source.bytes(self.span())
    }

    pub fn fields(self) -> Fields<'a>
        ensures { Unit {0} }
    {
        Fields {
            text: self.source.text,
            separator: self.source.separator,
            at: self.start,
        }
    }

    // Field `k`, counted from 0; a place where the line has fewer.
    pub fn field(self, k: usize) -> Span
        ensures { Unit {0} }
    {
        let none = Span {
            start: self.end,
            end: self.end,
        };
        self.fields().nth(k).unwrap_or(none)
    }

    // Whether nothing stands in it but a comment.
    pub fn is_comment(self) -> bool
        ensures { Unit {0} }
    {
        matches!(self.fields().ahead(), Field::Comment(_))
    }
}

// The lines of a text that are still to come.
#[derive(Clone, Copy)]
pub struct Lines<'a> {
    pub source: Source<'a>,
    at: usize,
}

impl<'a> Iterator for Lines<'a> {
    type Item = Line<'a>;

    ghost remaining = { λ s. at_most (length s.source.text.now - s.at) };

    fn next(&mut self) -> Option<Line<'a>> {
        if self.source.text.len() <= self.at {
            return None;
        }
        let line = self.source.line(self.at);
        self.at = line.end + 1;
        Some(line)
    }
}
