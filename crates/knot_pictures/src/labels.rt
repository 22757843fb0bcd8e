// What is written at the axes.
use drawing::texts::Text;
use knot_files::layout::Layout;
use knot_rows::sides::End;
use printing::Millionths;
use std::fmt;

// An end of an axis as it is written, or rounded where that is long.
#[derive(Clone, Copy)]
pub(crate) struct Short<'a>(pub End<'a>);

impl fmt::Display for Short<'_> {
    fn fmt<W: fmt::Write>(&self, f: &mut fmt::Formatter<W>) -> fmt::Result {
        let End { value, written } = self.0;
        if 12 < written.len() {
            let rounded = Millionths(value);
            return write!(f, "{rounded}");
        }
        let text = Text {
            text: written,
            most: 12,
        };
        write!(f, "{text}")
    }
}

// The name of a column: that of the header, or its number.
#[derive(Clone, Copy)]
pub(crate) struct Name<'a> {
    pub layout: Layout<'a>,
    pub column: usize,
}

impl<'a> Name<'a> {
    // What the header says, nothing where there is none.
    fn written(self) -> &'a [u8] {
        match self.layout.header() {
            Some(line) => self.layout.source.bytes(line.field(self.column)),
            None => b"",
        }
    }
}

impl fmt::Display for Name<'_> {
    fn fmt<W: fmt::Write>(&self, f: &mut fmt::Formatter<W>) -> fmt::Result {
        let written = self.written();
        if written.is_empty() {
            let number = self.column.saturating_add(1);
            return write!(f, "column {number}");
        }
        let text = Text {
            text: written,
            most: 40,
        };
        write!(f, "{text}")
    }
}
