// A first line without numbers.
use console::source::{Line, Source};
use knot_columns::columns::Columns;
use knot_columns::spelled::{not_finite, unsigned};

// Whether a word is meant as a number: it starts with a digit, or with a point and a digit, with a sign or none, or spells what is no
// finite one.
fn is_meant(word: &[u8]) -> bool {
    not_finite(word) || matches!(unsigned(word), [b'0'..=b'9', ..] | [b'.', b'0'..=b'9', ..])
}

// Whether a line is a header: nothing in it that should be a number is meant as one. Where columns were chosen those should be, and else
// all fields.
pub fn is_header(source: Source<'_>, line: Line<'_>, chosen: Option<Columns>) -> bool
    ensures { Unit {0} }
{
    for (column, field) in line.fields().enumerate() {
        let is_wanted = chosen.is_none_or(|columns| columns.axis_of(column).is_some());
        if is_wanted && is_meant(source.bytes(field)) {
            return false;
        }
    }
    true
}
