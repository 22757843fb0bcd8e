// The weights of points.
use console::faults::{Faults, Wrong};
use console::source::Line;
use knot_columns::columns::known_column;
use knot_files::layout::Layout;
use messages::Failure;
use rules::{Refusal, TOP_WEIGHT};
use whole_files::numbers::{Limit, Numbers, read_field};

// A weight is at most the heaviest that parts are made of.
const LIMIT: Limit = Limit {
    most: TOP_WEIGHT,
    refusal: Refusal::Weight,
};

// The column of the weights by its name or number, none where none is named; or says that the file has none such.
pub fn weights_column(layout: Layout<'_>, name: &[u8]) -> Result<Option<usize>, Failure>
    ensures { Unit {0} }
{
    if name.is_empty() {
        return Ok(None);
    }
    let column = known_column(layout.source, layout.head, name)?;
    Ok(Some(column))
}

// Reads the weight of a point out of a column of its line, and keeps what is wrong with it. It is 1 where no column is named.
pub fn read_weight(
    line: Line<'_>,
    column: Option<usize>,
    weights: &mut Numbers,
    faults: &mut Faults,
)
    ensures { Unit {0} }
{
    let Some(column) = column else {
        let _ = weights.try_push(1);
        return;
    };
    match line.fields().nth(column) {
        Some(field) => read_field(line.source, field, LIMIT, weights, faults),
        None => {
            faults.note_at(Wrong::Missing(column.saturating_add(1)), line.start);
            let _ = weights.try_push(0);
        }
    }
}
