// The slices that a call is lent, and what they hold: the numbers of a part of the request.
ghost use Rattle.std.specs.Prelude.{◌≤◌};

use crate::answer::Answer;

// The numbers that a slice may have; a grid has as many cells.
pub(crate) const MOST: usize = 65536;

// A part of a request, and the slice, which begins with the first numbers of the part. Its room is lent: it is too large to be copied as it
// is made.
#[derive(Drop)]
pub(crate) struct Lent<'a, 'b, T> {
    part: &'a [u64],
    pub(crate) held: &'b mut [T],
}

// An order, side, depth, part or id; anything larger is refused all the same.
pub(crate) fn small(number: u64) -> u32 {
    u32::try_from(number).unwrap_or(u32::MAX)
}

impl<'a, 'b, T: Drop> Lent<'a, 'b, T> {
    pub(crate) fn of<F: Fn(u64) -> T>(
        part: &'a [u64],
        room: &'b mut [T; MOST],
        held_of: F,
    ) -> Lent<'a, 'b, T>
        requires { F.IsAlwaysCallable held_of }
    {
        let held = &mut room[..part.len().min(MOST)];
        for (place, number) in held.iter_mut().zip(part) {
            *place = held_of(*number);
        }
        Lent { part, held }
    }
}

impl<T: Copy + Into<u64>> Lent<'_, '_, T> {
    // Answers what the slice holds, and nothing where the part had no room in it, so that no case agrees with that.
    pub(crate) fn put(&self, answer: &mut Answer<'_>) {
        if self.held.len() != self.part.len() {
            return;
        }
        for number in self.held.iter() {
            answer.number((*number).into());
        }
    }
}
