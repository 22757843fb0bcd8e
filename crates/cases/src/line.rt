// The words of a line, as the tokens of `text` part them.
ghost use Rattle.std.specs.Prelude.{◌-◌, length};
ghost use Rattle.std.specs.Iterator.{at_most};

use text::Token;

// A word, and where it starts in its line.
#[derive(Clone, Copy)]
pub(crate) struct Word<'a> {
    pub(crate) start: usize,
    pub(crate) text: &'a [u8],
}

// A word that cannot be read where it stands, by where it starts in its line.
#[derive(Clone, Copy, Debug, PartialEq, Eq)]
pub(crate) struct Unread {
    pub(crate) start: usize,
}

// The words of a line from a place on.
#[derive(Clone, Copy)]
pub(crate) struct Words<'a> {
    line: &'a [u8],
    at: usize,
}

impl<'a> Words<'a> {
    pub(crate) fn of(line: &'a [u8]) -> Words<'a> {
        Words { line, at: 0 }
    }
}

impl<'a> Iterator for Words<'a> {
    type Item = Word<'a>;

    ghost remaining = { λ s. at_most (length s.line.now - s.at) };

    fn next(&mut self) -> Option<Word<'a>> {
        let Token::Word(start, end) = text::next_token(self.line, self.at) else {
            return None;
        };
        self.at = end;
        Some(Word {
            start,
            text: &self.line[start..end],
        })
    }
}
