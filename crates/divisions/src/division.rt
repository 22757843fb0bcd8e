// The parts of points.
ghost use Rattle.std.specs.Prelude.{length};
ghost use Rattle.std.specs.Iterator.{at_most};

use console::faults::Refused;
use messages::{Failure, failed};
use parts::parts_along;

// A point, by its number, and what it has.
#[derive(Clone, Copy)]
pub struct Point {
    pub number: usize,
    pub index: u64,
    pub weight: u64,
    pub part: u32,
}

// Points that have been divided: what each has at the place of its number, and their numbers in the order of their indices. Slice by slice, as the
// library is lent them.
#[derive(Clone, Copy)]
pub struct Division<'a> {
    indices: &'a [u64],
    weights: &'a [u64],
    parts: &'a [u32],
    order: &'a [u32],
}

impl<'a> Division<'a> {
    // Divides points into so many parts, with room for the part of each and for their order; or says of their file why that is refused.
    pub fn of(
        path: &[u8],
        count: u32,
        indices: &'a [u64],
        weights: &'a [u64],
        parts: &'a mut [u32],
        order: &'a mut [u32],
    ) -> Result<Division<'a>, Failure>
        ensures { Unit {0} }
    {
        match parts_along(count, indices, weights, parts, order) {
            Ok(()) => Ok(Division {
                indices,
                weights,
                parts,
                order,
            }),
            Err(refusal) => Err(failed(path, Refused(refusal))),
        }
    }

    // The parts, by the numbers of the points.
    pub fn parts(self) -> &'a [u32]
        ensures { Unit {0} }
    {
        self.parts
    }

    // The numbers of the points in the order of their indices.
    pub fn order(self) -> &'a [u32]
        ensures { Unit {0} }
    {
        self.order
    }

    // The point of a number.
    fn point(self, number: u32) -> Option<Point> {
        let number = number as usize;
        Some(Point {
            number,
            index: *self.indices.get(number)?,
            weight: *self.weights.get(number)?,
            part: *self.parts.get(number)?,
        })
    }

    // The points along the curve.
    pub fn along(self) -> Along<'a>
        ensures { Unit {0} }
    {
        Along {
            division: self,
            rest: self.order,
        }
    }

    // The heaviest weight on one index.
    pub fn heaviest_on_one(self) -> u64
        ensures { Unit {0} }
    {
        let mut heaviest: u64 = 0;
        let mut here: u64 = 0;
        let mut last = None;
        for point in self.along() {
            if last != Some(point.index) {
                here = 0;
            }
            here = here.saturating_add(point.weight);
            heaviest = heaviest.max(here);
            last = Some(point.index);
        }
        heaviest
    }
}

// The points that are still to come along the curve.
#[derive(Clone, Copy)]
pub struct Along<'a> {
    division: Division<'a>,
    rest: &'a [u32],
}

impl Iterator for Along<'_> {
    type Item = Point;

    ghost remaining = { λ s. at_most (length s.rest.now) };

    fn next(&mut self) -> Option<Point> {
        let (number, rest) = self.rest.split_first()?;
        self.rest = rest;
        self.division.point(*number)
    }
}

impl Along<'_> {
    // The index of the next point.
    pub fn next_index(&self) -> Option<u64>
        ensures { Unit {0} }
    {
        let number = *self.rest.first()?;
        self.division.indices.get(number as usize).copied()
    }
}
