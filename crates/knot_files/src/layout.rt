// How a text is laid out: its header if it has one, where its lines of numbers start, and the columns of the coordinates.
use crate::asked;
use crate::header::is_header;
use console::faults::{Faults, Wrong};
use console::source::{Line, Lines, Source};
use knot_columns::columns::{Columns, known_column};
use messages::{Failure, Outcome, failed};
use words::Words;

// Where the first line that has a field starts, and where the first line of numbers does: behind the header, or there.
#[derive(Clone, Copy)]
pub struct Layout<'a> {
    pub source: Source<'a>,
    pub head: usize,
    pub first: usize,
}

impl<'a> Layout<'a> {
    // Of a text whose first line with a field starts at `head`, and is a header or not.
    pub fn of(source: Source<'a>, head: usize, is_headed: bool) -> Layout<'a>
        ensures { Unit {0} }
    {
        let first = if is_headed {
            source.first_line(source.line(head).end())
        } else {
            head
        };
        Layout {
            source,
            head,
            first,
        }
    }

    // Of a text of numbers, among columns that were chosen or in all its fields.
    pub fn of_numbers(source: Source<'a>, head: usize, chosen: Option<Columns>) -> Layout<'a>
        ensures { Unit {0} }
    {
        let is_headed = is_header(source, source.line(head), chosen);
        Layout::of(source, head, is_headed)
    }

    pub fn header(self) -> Option<Line<'a>>
        ensures { Unit {0} }
    {
        if self.head == self.first {
            return None;
        }
        Some(self.source.line(self.head))
    }

    // The first line of numbers.
    pub fn first_line(self) -> Line<'a>
        ensures { Unit {0} }
    {
        self.source.line(self.first)
    }

    // The lines behind the header.
    pub fn lines(self) -> Lines<'a>
        ensures { Unit {0} }
    {
        self.source.lines(self.first)
    }
}

// The columns that the words of a command choose, by their numbers or by their names in the line that starts at `head`, none where there
// are no such words; or says that a word names no column, or one that another has.
pub fn chosen(words: &Words, source: Source<'_>, head: usize) -> Result<Option<Columns>, Failure>
    ensures { Unit {0} }
{
    let [first, second, third] = asked::columns(words);
    if first.is_empty() {
        return Ok(None);
    }
    let x = known_column(source, head, first)?;
    let y = known_column(source, head, second)?;
    let columns = if third.is_empty() {
        Columns::Two([x, y])
    } else {
        Columns::Three([x, y, known_column(source, head, third)?])
    };
    say_repeated(columns, &[first, second, third])?;
    Ok(Some(columns))
}

// Says of the word of a column that it is the column of a word before it.
fn say_repeated(columns: Columns, names: &[&[u8]]) -> Outcome {
    for (axis, (column, name)) in columns.places().iter().zip(names).enumerate() {
        if columns.axis_of(*column) != Some(axis) {
            return Err(failed(name, "another coordinate has this column"));
        }
    }
    Ok(())
}

// The columns that were chosen, or else the first ones, as many as the first line of numbers has.
pub fn counted(chosen: Option<Columns>, layout: Layout<'_>) -> Columns
    ensures { Unit {0} }
{
    chosen.unwrap_or(Columns::First(layout.first_line().fields().count()))
}

// Keeps what is wrong with the first line of numbers: that there is none, or that it has neither 2 nor 3.
pub fn check(columns: Columns, layout: Layout<'_>, faults: &mut Faults)
    ensures { Unit {0} }
{
    if layout.source.text.len() <= layout.first {
        faults.note_at(Wrong::Nothing, layout.first);
    } else if !matches!(columns.count(), 2 | 3) {
        faults.note_at(Wrong::Columns, layout.first);
    }
}
