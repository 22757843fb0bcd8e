// The knots of a file: their coordinates, and where the line of each starts.
use crate::values::value_of;
use console::faults::{Counted, Faults, Wrong};
use console::source::{Source, Span};
use console::starts::{MOST, Starts};
use fields::{Field, field_at};
use knot_columns::columns::Columns;
use knot_files::layout::Layout;

// Room for the values of as many knots as a file may have on three axes, axis after axis, since the library takes each as a slice. One array: what
// holds several is copied as it is made, for which the stack has no room beside a file.
pub type Values = [f64; 3 * MOST];

// Knots that have been read: their values, on a third axis that the file has not nought, and where the line of each starts.
#[derive(Clone, Copy)]
pub struct Knots<'a> {
    pub layout: Layout<'a>,
    pub columns: Columns,
    values: &'a Values,
    starts: &'a [u32],
}

impl<'a> Knots<'a> {
    // Reads the lines of numbers into room for their knots. What is wrong is kept, and reading goes on while there is room for faults. A line ends
    // where its fields do, since to look for its end first would go over it twice. There are no more lines than bytes.
    pub fn read(
        layout: Layout<'a>,
        columns: Columns,
        values: &'a mut Values,
        starts: &'a mut Starts,
        faults: &mut Faults,
    ) -> Knots<'a>
        ensures { Unit {0} }
    {
        let text = layout.source.text;
        let mut at = layout.first;
        for _ in 0..text.len() {
            if text.len() <= at || faults.is_full() {
                break;
            }
            let row = Row::at(layout.source, columns, at, faults);
            if row.count != 0 {
                if let Err(wrong) = check_count(layout, columns, row.count) {
                    faults.note_at(wrong, at);
                }
                keep(layout.source, at, row.values, values, starts, faults);
            }
            at = row.next;
        }
        Knots {
            layout,
            columns,
            values,
            starts: starts.places(),
        }
    }

    pub fn len(&self) -> usize
        ensures { Unit {0} }
    {
        self.starts.len()
    }

    // The values on an axis.
    pub fn axis(&self, axis: usize) -> &'a [f64]
        ensures { Unit {0} }
    {
        let values = self.values;
        let rest = values.get(axis.saturating_mul(MOST)..).unwrap_or(&[]);
        rest.get(..self.starts.len()).unwrap_or(&[])
    }

    // A coordinate, nought where there is none such.
    pub fn value(&self, axis: usize, knot: usize) -> f64
        ensures { Unit {0} }
    {
        self.axis(axis).get(knot).copied().unwrap_or(0.0)
    }

    // Where the line of each knot starts.
    pub fn starts(&self) -> &'a [u32]
        ensures { Unit {0} }
    {
        self.starts
    }

    // The field of a coordinate, where there is one.
    pub fn field(&self, axis: usize, knot: usize) -> Option<Span>
        ensures { Unit {0} }
    {
        let start = self.starts.get(knot).copied()?;
        let column = self.columns.places().get(axis).copied()?;
        let line = self.layout.source.line(start as usize);
        Some(line.field(column))
    }

    // A coordinate as the file has it.
    pub fn written(&self, axis: usize, knot: usize) -> &'a [u8]
        ensures { Unit {0} }
    {
        match self.field(axis, knot) {
            Some(field) => self.layout.source.bytes(field),
            None => b"",
        }
    }
}

// The line at a place: the values of its coordinates, how many fields it has, and where the next line starts.
#[derive(Clone, Copy)]
struct Row {
    values: [f64; 3],
    count: usize,
    next: usize,
}

impl Row {
    // By what stands next, and not by the line's fields, since the place behind the last of them is wanted too.
    fn at(source: Source<'_>, columns: Columns, start: usize, faults: &mut Faults) -> Row {
        let text = source.text;
        let mut values = [0.0f64; 3];
        let mut at = start;
        for count in 0..text.len() {
            let next = match field_at(text, at, source.separator) {
                Field::Word(start, end, next) => {
                    if let Some(axis) = columns.axis_of(count) {
                        let field = Span { start, end };
                        match value_of(source.bytes(field)) {
                            Ok(value) => values[axis] = value,
                            Err(wrong) => faults.note(wrong, field),
                        }
                    }
                    at = next;
                    continue;
                }
                Field::LineEnd(next) | Field::Comment(next) => next,
                Field::End => text.len(),
            };
            return Row {
                values,
                count,
                next,
            };
        }
        Row {
            values,
            count: text.len(),
            next: text.len(),
        }
    }
}

// What is wrong with a line of so many fields: not as many as in the first line, or too few for a column.
fn check_count(layout: Layout<'_>, columns: Columns, count: usize) -> Result<(), Wrong> {
    if let Columns::First(wanted) = columns {
        if count == wanted {
            return Ok(());
        }
        let first = Counted::at(layout.source, layout.first);
        return Err(Wrong::Ragged(first));
    }
    match columns.places().iter().find(|column| count <= **column) {
        Some(column) => Err(Wrong::Missing(column.saturating_add(1))),
        None => Ok(()),
    }
}

// Keeps the knot of a line that starts at a place, or that there is no room for it.
fn keep(
    source: Source<'_>,
    at: usize,
    row: [f64; 3],
    values: &mut Values,
    starts: &mut Starts,
    faults: &mut Faults,
) {
    let knot = starts.len();
    if !starts.keep_at(at) {
        return faults.note(Wrong::Many, source.line(at).span());
    }
    for (axis, value) in row.iter().enumerate() {
        if let Some(place) = values.get_mut(axis * MOST + knot) {
            *place = *value;
        }
    }
}
