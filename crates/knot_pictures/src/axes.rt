// The axes of the picture.
use crate::asked;
use knot_columns::columns::column_of;
use knot_rows::knots::Knots;
use messages::{Failure, failed};
use words::Words;

// The coordinates that go across, up and, where one is asked for, aslant.
#[derive(Clone, Copy)]
pub(crate) struct Axes {
    pub across: usize,
    pub up: usize,
    pub aslant: Option<usize>,
}

impl Axes {
    // The axes that are asked for, or else the first two coordinates; or says of each word that it names no coordinate.
    pub(crate) fn of(words: &Words, knots: &Knots<'_>) -> Result<Axes, Failure> {
        let [across, up, aslant] = asked::axes(words);
        if across.is_empty() {
            return Ok(Axes {
                across: 0,
                up: 1,
                aslant: None,
            });
        }
        let across = named(knots, across);
        let up = named(knots, up);
        let aslant = if aslant.is_empty() {
            Ok(None)
        } else {
            named(knots, aslant).map(Some)
        };
        Ok(Axes {
            across: across?,
            up: up?,
            aslant: aslant?,
        })
    }
}

// The coordinate whose column a word names, by number or by name; or says that it names none such.
fn named(knots: &Knots<'_>, name: &[u8]) -> Result<usize, Failure> {
    let layout = knots.layout;
    let column = column_of(layout.source, layout.head, name);
    match column.and_then(|column| knots.columns.axis_of(column)) {
        Some(axis) => Ok(axis),
        None => Err(failed(name, "no column of a coordinate has this name or number")),
    }
}
