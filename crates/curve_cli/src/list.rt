// cells: reads a list of indices, which may say its order, dimension and box, and prints their cells.
use crate::cells;
use crate::setting::Setting;
use console::faults::{Faults, Refused};
use console::files;
use console::source::Source;
use knot_rows::sides;
use knot_rows::sides::{Side, Sides};
use messages::{Failure, Outcome, failed, say};
use rules::Refusal;
use std::rt::HostRuntime;
use whole_files::noted::Note;
use whole_files::numbers::{Limit, Numbers};
use whole_files::{list, noted};
use words::Words;

// The order of a list that says none: such lists were stored while it was the default.
const ORDER_BEFORE: u32 = 12;

// The places of the command's words for the order and the dimension.
const ORDER: usize = 3;

const DIMENSION: usize = 4;

pub(crate) fn command(rt: HostRuntime, words: &Words, room: &mut [u8; files::ROOM]) -> Outcome {
    let path = words.word(2);
    let source = Source::of(path, files::read(rt, path, room)?);
    match noted::note_of(source)? {
        Some(note) => of_noted(rt, words, source, &note),
        None => of_unnoted(rt, words, source),
    }
}

// Prints the cells of a list that says what it is: the first field of a line is an index.
fn of_noted(rt: HostRuntime, words: &Words, source: Source<'_>, note: &Note<'_>) -> Outcome {
    if differs(words.word(ORDER), note.order())
        || differs(words.word(DIMENSION), note.dimension())
    {
        return Err(failed(
            source.path,
            "its first line says another order or dimension",
        ));
    }
    let order = note.order_number();
    let solid = note.dimension() == b"3d".as_slice();
    let setting = setting_of(source.path, order, solid)?;
    let sides = sides::of_words(&note.words, noted::BOX, setting.dimension());
    let sides = sides.unwrap_or(Sides::new());
    print_cells(rt, source, Some(1), setting, sides.as_slice())
}

// Whether a command asks for another thing than the list says.
fn differs(asked: &[u8], said: &[u8]) -> bool {
    !asked.is_empty() && asked != said
}

// Prints the cells of a list that says nothing of itself: each field is an index, or the first of a line where there is a header.
fn of_unnoted(rt: HostRuntime, words: &Words, source: Source<'_>) -> Outcome {
    let mut order = ORDER_BEFORE;
    if words.is_empty(ORDER) {
        say(
            source.path,
            format_args!(
                "says no order and is read at order {order}, the default when such lists were stored; name another by 'order N'"
            ),
        );
    } else {
        order = words.number_or_refused(ORDER);
    }
    let setting = setting_of(source.path, order, words.is(DIMENSION, "3d"))?;
    print_cells(rt, source, None, setting, &[])
}

fn setting_of(path: &[u8], order: u32, solid: bool) -> Result<Setting, Failure> {
    match Setting::of(order, solid) {
        Some(setting) => Ok(setting),
        None => Err(failed(path, Refused(Refusal::Order))),
    }
}

// Prints the cells of the first so many indices of each line where not all are asked for, of one where there is a header.
fn print_cells(
    rt: HostRuntime,
    source: Source<'_>,
    most: Option<usize>,
    setting: Setting,
    sides: &[Side<'_>],
) -> Outcome {
    let head = source.first_line(0);
    let (first, most) = if noted::is_headed(source, head) {
        (source.line(head).end(), Some(1))
    } else {
        (head, most)
    };
    let limit = Limit {
        most: setting.last_index(),
        refusal: Refusal::Index,
    };
    let mut indices = Numbers::new();
    let mut faults = Faults::none();
    list::read(source.lines(first), limit, most, &mut indices, &mut faults);
    faults.say_all(source)?;
    cells::print(rt, indices.as_slice(), setting, sides)
}
