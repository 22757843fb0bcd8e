// Where knots are drawn, in tenths of a pixel from the upper left corner, and how they are marked.
use crate::axes::Axes;
use divisions::division::{Along, Division, Point};
use drawing::ends::Place;
use knot_rows::knots::Knots;
use knot_rows::sides::Side;

// How far the knots go across, up and aslant, and the room around them.
pub(crate) const WIDTH: u64 = 8580;

pub(crate) const HEIGHT: u64 = 6900;

const SLANT: u64 = 240;

pub(crate) const ROOM: u64 = 300;

// Whether a knot has its cell alone, is the first of those that share one, or another of them.
#[derive(Clone, Copy, Debug, PartialEq, Eq)]
pub(crate) enum Mark {
    Alone,
    First,
    More,
}

// What is drawn of a knot, by its number. Its place is worked out where it is printed, since most that go over the spots ask for none.
#[derive(Clone, Copy)]
pub(crate) struct Spot {
    pub knot: usize,
    pub mark: Mark,
    pub part: u32,
}

impl Spot {
    // Whether the knot shares its cell.
    pub(crate) fn shares(self) -> bool {
        self.mark != Mark::Alone
    }
}

// Knots that are drawn, in the box of these sides, on these axes, as they have been divided.
#[derive(Clone, Copy)]
pub(crate) struct Drawn<'a> {
    pub knots: &'a Knots<'a>,
    pub sides: &'a [Side<'a>],
    pub axes: Axes,
    pub division: Division<'a>,
}

impl<'a> Drawn<'a> {
    // The side of the box along an axis.
    pub(crate) fn side(self, axis: usize) -> Side<'a> {
        self.sides.get(axis).copied().unwrap_or_default()
    }

    // How far a knot lies along an axis of the box, of so much; half of it where the axis is flat.
    fn on_axis(self, axis: usize, knot: usize, most: u64) -> u64 {
        let side = self.side(axis).extent();
        if side.low < side.high {
            let share = (self.knots.value(axis, knot) - side.low) / (side.high - side.low);
            let size = share * std::num::nearest_u64_to_f64(most);
            return std::num::saturating_f64_to_u64(size + 0.5);
        }
        most / 2
    }

    // Where a knot is.
    pub(crate) fn place_of(self, knot: usize) -> Place {
        let Axes { across, up, aslant } = self.axes;
        let aslant = aslant.map_or(0, |axis| self.on_axis(axis, knot, SLANT));
        let right = self.on_axis(across, knot, WIDTH).saturating_add(aslant);
        let up = self.on_axis(up, knot, HEIGHT).saturating_add(aslant);
        Place {
            x: right.saturating_add(ROOM),
            y: (HEIGHT + ROOM).saturating_sub(up),
        }
    }

    // The spots of the knots in the order of their indices.
    pub(crate) fn spots(self) -> Spots<'a> {
        Spots {
            last: None,
            rest: self.division.along(),
        }
    }
}

// The spots that are still to come, and the index of the last that came.
#[derive(Clone, Copy)]
pub(crate) struct Spots<'a> {
    last: Option<u64>,
    rest: Along<'a>,
}

impl Spots<'_> {
    // The mark of a point between the last one and those that are still to come.
    fn mark_of(&self, point: Point) -> Mark {
        if self.last == Some(point.index) {
            return Mark::More;
        }
        if self.rest.next_index() == Some(point.index) {
            return Mark::First;
        }
        Mark::Alone
    }
}

impl Iterator for Spots<'_> {
    type Item = Spot;

    ghost remaining = { λ s. ⟦<Along<'static> as Iterator>⟧.remaining s.rest };

    fn next(&mut self) -> Option<Spot> {
        let point = self.rest.next()?;
        let mark = self.mark_of(point);
        self.last = Some(point.index);
        Some(Spot {
            knot: point.number,
            mark,
            part: point.part,
        })
    }
}
