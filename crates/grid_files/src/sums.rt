// Sums of weights, in a table with a place for each of up to 4,096 parts or lines.
//
// There are at most 65,536 weights of at most 16,777,215, so that no sum of them reaches 2^40: what is added here is exact.

#[derive(Drop)]
pub struct Sums {
    table: [u64; 4096],
}

impl Sums {
    pub fn none() -> Sums
        ensures { Unit {0} }
    {
        Sums { table: [0; 4096] }
    }

    // Adds a weight at a place.
    pub fn add(&mut self, place: usize, weight: u64)
        ensures { Unit {0} }
    {
        if let Some(sum) = self.table.get_mut(place) {
            *sum = sum.wrapping_add(weight);
        }
    }

    // What is at a place.
    pub fn of(&self, place: usize) -> u64
        ensures { Unit {0} }
    {
        self.table.get(place).copied().unwrap_or(0)
    }

    // What all weigh.
    pub fn total(&self) -> u64
        ensures { Unit {0} }
    {
        self.table
            .iter()
            .fold(0u64, |all, sum| all.wrapping_add(*sum))
    }

    // The first of the heaviest places, with what is there.
    pub fn heaviest(&self) -> (usize, u64)
        ensures { Unit {0} }
    {
        let places = self.table.iter().copied().enumerate();
        let heaviest = places.rev().max_by_key(|(_, sum)| *sum);
        heaviest.unwrap_or((0, 0))
    }

    // The first of the lightest of so many places, with what is there.
    pub fn lightest(&self, places: usize) -> (usize, u64)
        ensures { Unit {0} }
    {
        let first = self.table.iter().copied().enumerate().take(places);
        let lightest = first.min_by_key(|(_, sum)| *sum);
        lightest.unwrap_or((0, 0))
    }
}
