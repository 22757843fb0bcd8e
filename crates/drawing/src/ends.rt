// The first and the last of what is joined: a square around the one and a diamond around the other, with their names.
use std::fmt;

// A place in a picture.
#[derive(Clone, Copy, Debug, PartialEq, Eq)]
pub struct Place {
    pub x: u64,
    pub y: u64,
}

// Both ends, and the middle of the picture, on the side of which their names stand. What is alone is first and has no other for its last.
#[derive(Clone, Copy)]
pub struct Ends {
    pub first: Place,
    pub last: Option<Place>,
    pub middle: Place,
}

impl Ends {
    // A name beside a place.
    fn named(self, name: &str, place: Place) -> Name<'_> {
        Name {
            name,
            place,
            middle: self.middle.x,
        }
    }

    // Where the last one's name stands: at its place, or a line nearer to the middle where that of the first is near.
    fn name_of_last(self, last: Place) -> Place {
        let first = self.first;
        if 1200 <= first.x.abs_diff(last.x) || 160 <= first.y.abs_diff(last.y) {
            return last;
        }
        let y = if last.y < self.middle.y {
            first.y.saturating_add(160)
        } else {
            first.y.saturating_sub(160)
        };
        Place { x: last.x, y }
    }
}

impl fmt::Display for Ends {
    fn fmt<W: fmt::Write>(&self, f: &mut fmt::Formatter<W>) -> fmt::Result {
        let first = self.first;
        let last = self.last.unwrap_or(first);
        let square = Shape(first, "m-80-80h160v160h-160z");
        let diamond = Shape(last, "m0-130l130 130l-130 130l-130-130z");
        write!(f, "{square}{diamond}")?;
        if self.last.is_none() {
            let both = self.named("first and last", first);
            return write!(f, "{both}");
        }
        let one = self.named("first", first);
        let other = self.named("last", self.name_of_last(last));
        write!(f, "{one}{other}")
    }
}

// A shape around a place.
#[derive(Clone, Copy)]
struct Shape(Place, &'static str);

impl fmt::Display for Shape {
    fn fmt<W: fmt::Write>(&self, f: &mut fmt::Formatter<W>) -> fmt::Result {
        let Shape(Place { x, y }, path) = *self;
        writeln!(
            f,
            "<path stroke='black' stroke-width='14' d='M{x} {y}{path}'/>"
        )
    }
}

// A name beside a place: behind it, or before it where the place is right of the middle.
#[derive(Clone, Copy)]
struct Name<'a> {
    name: &'a str,
    place: Place,
    middle: u64,
}

impl fmt::Display for Name<'_> {
    fn fmt<W: fmt::Write>(&self, f: &mut fmt::Formatter<W>) -> fmt::Result {
        let Name {
            name,
            place: Place { x, y },
            middle,
        } = *self;
        let (start, anchor) = if x < middle {
            (x.saturating_add(160), "")
        } else {
            (x.saturating_sub(160), "' text-anchor='end")
        };
        let base = y.saturating_add(45);
        writeln!(
            f,
            "<text x='{start}{anchor}' y='{base}' font-size='130' fill='black' stroke='white' stroke-width='40' paint-order='stroke'>{name}</text>"
        )
    }
}
