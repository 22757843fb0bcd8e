// Where the lines of a file start that were kept.
ghost use Rattle.std.specs.Prelude.{◌≤◌};

use crate::source::Line;
use arrayvec::ArrayVec;

// How many knots, points, events or numbers a file may have.
pub const MOST: usize = 65536;

// A place in 32 bits for each line, since a text is far shorter than 4 GiB. They are large: lend them.
#[derive(Drop)]
pub struct Starts {
    places: ArrayVec<u32, MOST>,
}

impl Starts {
    pub fn none() -> Starts
        ensures { Unit {0} }
    {
        Starts {
            places: ArrayVec::new(),
        }
    }

    // Keeps where a line starts; whether there was room.
    pub fn keep(&mut self, line: Line<'_>) -> bool
        ensures { Unit {0} }
    {
        self.keep_at(line.start)
    }

    // Keeps the place where a line starts.
    pub fn keep_at(&mut self, start: usize) -> bool
        ensures { Unit {0} }
    {
        let start = u32::try_from(start).unwrap_or(u32::MAX);
        self.places.try_push(start).is_ok()
    }

    pub fn len(&self) -> usize
        ensures { result ≤ 65536 }
    {
        self.places.len()
    }

    pub fn places(&self) -> &[u32]
        ensures { Unit {0} }
    {
        self.places.as_slice()
    }
}
