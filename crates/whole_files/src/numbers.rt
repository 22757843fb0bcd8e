// Whole numbers out of fields.
use arrayvec::ArrayVec;
use console::faults::{Faults, Wrong};
use console::source::{Line, Source, Span};
use console::starts::MOST;
use rules::Refusal;
use wholes::whole_of;

// They are large: lend them.
pub type Numbers = ArrayVec<u64, MOST>;

// What a number may be: the largest, and the refusal of a larger one.
#[derive(Clone, Copy)]
pub struct Limit {
    pub most: u64,
    pub refusal: Refusal,
}

impl Limit {
    // Any number of 64 bits, so that none is refused.
    pub fn none(refusal: Refusal) -> Limit
        ensures { Unit {0} }
    {
        Limit {
            most: u64::MAX,
            refusal,
        }
    }

    // The number that a word is, or what is wrong with it.
    pub fn number_of(self, word: &[u8]) -> Result<u64, Wrong>
        ensures { Unit {0} }
    {
        if word.is_empty() {
            return Err(Wrong::Empty);
        }
        match whole_of(word) {
            Ok(number) if number <= self.most => Ok(number),
            Ok(_) => Err(Wrong::Refused(self.refusal)),
            Err(_) => Err(Wrong::NoWhole),
        }
    }
}

// Puts the number of a field behind others. One that is wrong takes a place too, so that those behind it keep theirs.
pub fn read_field(
    source: Source<'_>,
    field: Span,
    limit: Limit,
    numbers: &mut Numbers,
    faults: &mut Faults,
)
    ensures { Unit {0} }
{
    match limit.number_of(source.bytes(field)) {
        Ok(number) => {
            if numbers.try_push(number).is_err() {
                faults.note(Wrong::Many, field);
            }
        }
        Err(wrong) => {
            let _ = numbers.try_push(0);
            faults.note(wrong, field);
        }
    }
}

// Puts the numbers of a line behind others, the first `most` where not all are asked for; how many fields the line has.
pub fn read_line(
    line: Line<'_>,
    limit: Limit,
    most: Option<usize>,
    numbers: &mut Numbers,
    faults: &mut Faults,
) -> usize
    ensures { Unit {0} }
{
    let source = line.source;
    // The fields are counted as they are read: to count them first would go through the line twice.
    let mut count: usize = 0;
    for (k, field) in line.fields().enumerate() {
        if most.is_none_or(|most| k < most) {
            read_field(source, field, limit, numbers, faults);
        }
        count = k + 1;
    }
    // A text whose every byte is a field, as `5` with no line's end, counts as one without numbers.
    if count == source.text.len() {
        numbers.clear();
        return 0;
    }
    count
}
