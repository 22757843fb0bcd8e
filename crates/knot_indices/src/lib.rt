// The knots of a file and the index of each: what is read of the file, the box that is given or around the knots, and where they lie in it,
// or why they are refused.
//
// Every function is proved safe, and to end; what is read and said no contract can say, and the gate compares it.
#![tactic(auto)]

use console::faults::Faults;
use console::source::Source;
use console::starts::Starts;
use knot_columns::columns::Columns;
use knot_files::layout::Layout;
use knot_files::{asked, layout};
use knot_refusals::refused;
use knot_rows::knots::{Knots, Values};
use knot_rows::sides::Side;
use knots::{index_2d_in, index_3d_in};
use messages::{Failure, Outcome};
use rules::Refusal;
use words::Words;

// How a text of knots is laid out, and the columns of their coordinates; or says of a word of the command that it names no column, or one
// that another word names.
pub fn laid_out<'a>(words: &Words, source: Source<'a>) -> Result<(Layout<'a>, Columns), Failure>
    ensures { Unit {0} }
{
    let head = source.first_line(0);
    let chosen = layout::chosen(words, source, head)?;
    let layout = Layout::of_numbers(source, head, chosen);
    Ok((layout, layout::counted(chosen, layout)))
}

// Reads knots out of their text into room for them, or says what is wrong with it.
pub fn read<'a>(
    layout: Layout<'a>,
    columns: Columns,
    values: &'a mut Values,
    starts: &'a mut Starts,
) -> Result<Knots<'a>, Failure>
    ensures { Unit {0} }
{
    let mut faults = Faults::none();
    layout::check(columns, layout, &mut faults);
    let knots = Knots::read(layout, columns, values, starts, &mut faults);
    faults.say_all(layout.source)?;
    Ok(knots)
}

// Finds the indices of knots in a box of these sides, or says why they are refused.
pub fn index(words: &Words, knots: &Knots<'_>, sides: &[Side<'_>], indices: &mut [u64]) -> Outcome
    ensures { Unit {0} }
{
    match index_in(knots, sides, asked::order(words), indices) {
        Ok(()) => Ok(()),
        Err(refusal) => Err(refused(knots, sides, refusal)),
    }
}

// The indices of knots with two or three coordinates.
fn index_in(
    knots: &Knots<'_>,
    sides: &[Side<'_>],
    order: u32,
    indices: &mut [u64],
) -> Result<(), Refusal> {
    match sides {
        [x, y] => index_2d_in(
            knots.axis(0),
            knots.axis(1),
            x.extent(),
            y.extent(),
            order,
            indices,
        ),
        [x, y, z] => index_3d_in(
            knots.axis(0),
            knots.axis(1),
            knots.axis(2),
            x.extent(),
            y.extent(),
            z.extent(),
            order,
            indices,
        ),
        _ => Err(Refusal::Lengths),
    }
}
