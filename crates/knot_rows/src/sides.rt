// The box around knots, or one that is given: a side of it for each coordinate.
use crate::knots::Knots;
use arrayvec::ArrayVec;
use decimals::decimal_of;
use knot_files::asked::{BOX, ends};
use messages::{Failure, say};
use rules::Extent;
use words::Words;

// An end of a side: its value, and how the command or the file writes it.
#[derive(Clone, Copy, Default)]
pub struct End<'a> {
    pub value: f64,
    pub written: &'a [u8],
}

impl<'a> End<'a> {
    // A coordinate of a knot.
    fn at(knots: &Knots<'a>, axis: usize, knot: usize) -> End<'a> {
        End {
            value: knots.value(axis, knot),
            written: knots.written(axis, knot),
        }
    }

    // What a word says, where it is a decimal.
    fn of(word: &'a [u8]) -> Option<End<'a>> {
        let value = decimal_of(word).ok()?;
        Some(End {
            value,
            written: word,
        })
    }
}

#[derive(Clone, Copy, Default)]
pub struct Side<'a> {
    pub low: End<'a>,
    pub high: End<'a>,
}

impl<'a> Side<'a> {
    // From the first knot that is lowest on an axis to the first that is highest.
    fn around(knots: &Knots<'a>, axis: usize) -> Side<'a> {
        let mut low = (0, f64::INFINITY);
        let mut high = (0, f64::NEG_INFINITY);
        for (knot, value) in knots.axis(axis).iter().copied().enumerate() {
            if value < low.1 {
                low = (knot, value);
            }
            if high.1 < value {
                high = (knot, value);
            }
        }
        Side {
            low: End::at(knots, axis, low.0),
            high: End::at(knots, axis, high.0),
        }
    }

    pub fn extent(self) -> Extent
        ensures { Unit {0} }
    {
        Extent {
            low: self.low.value,
            high: self.high.value,
        }
    }
}

// The sides of a box, two or three.
pub type Sides<'a> = ArrayVec<Side<'a>, 3>;

// The sides of the box around knots.
pub fn around<'a>(knots: &Knots<'a>) -> Sides<'a>
    ensures { Unit {0} }
{
    let mut sides = Sides::new();
    for axis in 0..knots.columns.places().len() {
        let _ = sides.try_push(Side::around(knots, axis));
    }
    sides
}

// The sides of a box whose ends are words from word `first` on; or the first of them that is no decimal.
pub fn of_words<'a>(words: &'a Words, first: usize, count: usize) -> Result<Sides<'a>, &'a [u8]>
    ensures { Unit {0} }
{
    let mut sides = Sides::new();
    for axis in 0..count.min(3) {
        let i = first.saturating_add(2 * axis);
        let low = words.word(i);
        let high = words.word(i.saturating_add(1));
        let _ = sides.try_push(Side {
            low: End::of(low).ok_or(low)?,
            high: End::of(high).ok_or(high)?,
        });
    }
    Ok(sides)
}

// The sides of the box that a command gives, or else of the one around knots; or says what is wrong with those that are given.
pub fn asked<'a>(words: &'a Words, knots: &Knots<'a>) -> Result<Sides<'a>, Failure>
    ensures { Unit {0} }
{
    let count = ends(words) / 2;
    if count == 0 {
        return Ok(around(knots));
    }
    if count != knots.columns.count() {
        say(b"box", "wanted a low and a high for each coordinate");
        return Err(Failure::Misused);
    }
    match of_words(words, BOX, count) {
        Ok(sides) => Ok(sides),
        Err(word) => {
            say(word, "wanted a decimal in the box");
            Err(Failure::Misused)
        }
    }
}
