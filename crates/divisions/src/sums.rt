// What parts hold.
//
// There are at most 65,536 weights of at most 16,777,215, so that no sum of them reaches 2^40, and at most 1,024 parts, so that no part
// count times such a sum passes 2^50: no sum or product here saturates.
use crate::division::{Division, Point};
use arrayvec::ArrayVec;

// What a part holds: how many points, their weight, and where it has a point the first and the last index.
#[derive(Clone, Copy, Default)]
pub struct Sum {
    pub points: u64,
    pub weight: u64,
    pub ends: Option<(u64, u64)>,
}

impl Sum {
    // Adds a point. Points come in the order of their indices.
    fn add(&mut self, point: Point) {
        self.points = self.points.saturating_add(1);
        self.weight = self.weight.saturating_add(point.weight);
        let first = self.ends.map_or(point.index, |(first, _)| first);
        self.ends = Some((first, point.index));
    }
}

// What each part holds.
#[derive(Drop)]
pub struct Sums {
    parts: ArrayVec<Sum, 1024>,
}

impl Sums {
    // Of so many parts, which have been made.
    pub fn of(count: u32, division: Division<'_>) -> Sums
        ensures { Unit {0} }
    {
        let mut parts = ArrayVec::new();
        for _ in 0..count.min(requests::TOP_PARTS) {
            let _ = parts.try_push(Sum::default());
        }
        let sums = parts.as_mut_slice();
        for point in division.along() {
            if let Some(sum) = sums.get_mut(point.part as usize) {
                sum.add(point);
            }
        }
        Sums { parts }
    }

    // The sums of the parts, in the order of the parts.
    pub fn parts(&self) -> &[Sum]
        ensures { Unit {0} }
    {
        self.parts.as_slice()
    }

    // The weight of all parts.
    pub fn weight(&self) -> u64
        ensures { Unit {0} }
    {
        let weights = self.parts().iter().map(|sum| sum.weight);
        weights.fold(0, |all: u64, weight| all.saturating_add(weight))
    }

    // The first of the heaviest parts, and its weight.
    pub fn heaviest(&self) -> (usize, u64)
        ensures { Unit {0} }
    {
        let parts = self.parts().iter().enumerate();
        let heaviest = parts.rev().max_by_key(|(_, sum)| sum.weight);
        heaviest.map_or((0, 0), |(part, sum)| (part, sum.weight))
    }
}
