// Why a call is refused. Each refusal has the number that document 01, and for 12 to 20 document 02, gives it (specs/Refusals, `number_of`);
// 0 is the number of a call that is answered.

ghost use Rattle.std.specs.Prelude.{◌≡◌};
ghost use Rattle.rules.specs.Refusals.{number_of, NumberedBy};

use std::error::Error;
use std::fmt;

#[derive(Clone, Copy, Debug, PartialEq, Eq)]
pub enum Refusal {
    // The order is over the highest.
    Order,
    // A cell coordinate is 2^order or more.
    Coordinate,
    // A decoder's index is 4^order, or 8^order in 3D, or more.
    Index,
    // There are no points.
    NoPoints,
    // Slice lengths don't fit.
    Lengths,
    // A coordinate is NaN, infinite, or too large in size.
    Value,
    // An axis is thin.
    Thin,
    // Low above high, a value outside low to high, or a made-up axis record.
    Outside,
    // A side is 0 or too long, or there are too many cells.
    Sides,
    // The depth is too large.
    Depth,
    // A weight is too heavy.
    Weight,
    // No part or too many, or too many points.
    Counts,
    // The edition is neither 1 nor 2, or not the one that a call asks for.
    Edition,
    // The first axis is not one of the grid's.
    First,
    // An event's cell is not in the grid.
    Cell,
}

impl From<Refusal> for u32 {
    ghost from_gives = { λ refusal number. number ≡ number_of refusal };

    fn from(refusal: Refusal) -> u32 {
        match refusal {
            Refusal::Order => 1,
            Refusal::Coordinate => 2,
            Refusal::Index => 3,
            Refusal::NoPoints => 4,
            Refusal::Lengths => 5,
            Refusal::Value => 6,
            Refusal::Thin => 7,
            Refusal::Outside => 8,
            Refusal::Sides => 9,
            Refusal::Depth => 10,
            Refusal::Weight => 11,
            Refusal::Counts => 12,
            Refusal::Edition => 13,
            Refusal::First => 14,
            Refusal::Cell => 20,
        }
    }
}

// A number that is no refusal's.
#[derive(Clone, Copy, Debug, PartialEq, Eq)]
pub struct NoRefusal(pub u32);

impl TryFrom<u32> for Refusal {
    type Error = NoRefusal;

    ghost try_from_gives = { NumberedBy };

    fn try_from(number: u32) -> Result<Refusal, NoRefusal> {
        match number {
            1 => Ok(Refusal::Order),
            2 => Ok(Refusal::Coordinate),
            3 => Ok(Refusal::Index),
            4 => Ok(Refusal::NoPoints),
            5 => Ok(Refusal::Lengths),
            6 => Ok(Refusal::Value),
            7 => Ok(Refusal::Thin),
            8 => Ok(Refusal::Outside),
            9 => Ok(Refusal::Sides),
            10 => Ok(Refusal::Depth),
            11 => Ok(Refusal::Weight),
            12 => Ok(Refusal::Counts),
            13 => Ok(Refusal::Edition),
            14 => Ok(Refusal::First),
            20 => Ok(Refusal::Cell),
            _ => Err(NoRefusal(number)),
        }
    }
}

impl fmt::Display for Refusal {
    fn fmt<W: fmt::Write>(&self, f: &mut fmt::Formatter<W>) -> fmt::Result {
        f.write_str(match self {
            Refusal::Order => "order over 32 (2D, or one axis) or over 21 (3D)",
            Refusal::Coordinate => "a cell coordinate is 2^order or more",
            Refusal::Index => "a decoder's index is 4^order (2D) or 8^order (3D) or more",
            Refusal::NoPoints => "no points: the x slice is empty",
            Refusal::Lengths => "slice lengths don't fit",
            Refusal::Value => "a coordinate is NaN, infinite, or over 1,048,576 in size",
            Refusal::Thin => "an axis is thin: its rounded width is above 0 and below 2^-20",
            Refusal::Outside =>
                "low above high, a value outside low to high, or a made-up axis record",
            Refusal::Sides => "a side is 0 or over 1,024, or there are over 65,536 cells",
            Refusal::Depth => "depth over 12",
            Refusal::Weight => "a weight over 16,777,215",
            Refusal::Counts => "a part count of 0 or over 1,024, or over 65,536 points",
            Refusal::Edition => "the edition is neither 1 nor 2",
            Refusal::First => "the first axis is not one of the grid's",
            Refusal::Cell => "an event's cell is not in the grid",
        })
    }
}

impl Error for Refusal {}
