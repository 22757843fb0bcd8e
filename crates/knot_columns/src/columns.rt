// The columns that hold the coordinates, counted from 0.
ghost use Rattle.std.specs.Prelude.{◌<◌, ◌≤◌, length, IfSome};

use console::source::Source;
use messages::{Failure, failed};
use wholes::whole_of;

// The first columns, of lines that have so many fields and nothing else; or two or three that were chosen.
#[derive(Clone, Copy, Debug, PartialEq, Eq)]
pub enum Columns {
    First(usize),
    Two([usize; 2]),
    Three([usize; 3]),
}

impl Columns {
    // The column of each coordinate. Of lines that have neither two nor three fields the first two are read.
    pub fn places(&self) -> &[usize]
        ensures { length result.now ≤ 3 }
    {
        match self {
            Columns::First(3) => &[0, 1, 2],
            Columns::First(_) => &[0, 1],
            Columns::Two(places) => places,
            Columns::Three(places) => places,
        }
    }

    // How many coordinates there are.
    pub fn count(self) -> usize
        ensures { Unit {0} }
    {
        match self {
            Columns::First(count) => count,
            Columns::Two(_) => 2,
            Columns::Three(_) => 3,
        }
    }

    // Which coordinate a column holds.
    pub fn axis_of(&self, column: usize) -> Option<usize>
        ensures { IfSome result (λ axis. axis < 3) }
    {
        match self {
            Columns::First(3) => (column < 3).then_some(column),
            Columns::First(_) => (column < 2).then_some(column),
            Columns::Two(places) => places.iter().position(|place| *place == column),
            Columns::Three(places) => places.iter().position(|place| *place == column),
        }
    }
}

// Above the number of every column.
const BEYOND: u64 = 4194304;

// The column that a word names by its number, as people count, from 1.
fn numbered(word: &[u8]) -> Option<usize> {
    match whole_of(word) {
        Ok(n) if 0 < n && n < BEYOND => Some((n - 1) as usize),
        _ => None,
    }
}

// The column that a word names, by its number or by its name in the line that starts at `head`.
pub fn column_of(source: Source<'_>, head: usize, word: &[u8]) -> Option<usize>
    ensures { Unit {0} }
{
    if let Some(column) = numbered(word) {
        return Some(column);
    }
    let mut names = source.line(head).fields();
    names.position(|name| source.bytes(name) == word)
}

// The column that a word names, or says that it names none.
pub fn known_column(source: Source<'_>, head: usize, word: &[u8]) -> Result<usize, Failure>
    ensures { Unit {0} }
{
    match column_of(source, head, word) {
        Some(column) => Ok(column),
        None => Err(failed(
            word,
            "no column of the file's first line has this name or number",
        )),
    }
}
