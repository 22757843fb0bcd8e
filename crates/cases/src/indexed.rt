// Calls that index all points: `order / xs / ys / indices` or `order / xs / ys / zs / indices`, where the last part is what the
// index slice holds before; without an order, the call that needs none. On axes that are given, their low and high stand behind the order.
// A line has up to 240 numbers before the indices, and is not answered where it has more.
use crate::answer::Answer;
use crate::calls::Request;
use crate::floats::float;
use crate::lent::small;
use arrayvec::ArrayVec;
use rules::{Extent, Refusal};

const MOST: usize = 240;

// The coordinates of points on an axis.
type Places = ArrayVec<f64, MOST>;

fn places(part: &[u64]) -> Places {
    let mut places = ArrayVec::new();
    let _ = places.extend(part.iter().map(|number| float(*number)));
    places
}

// The low and high of an axis that is given.
fn extent(low: u64, high: u64) -> Extent {
    Extent {
        low: float(low),
        high: float(high),
    }
}

// The index slice: the first numbers of a part, which are more than a line has points. So what lies behind them a call leaves as it is.
#[derive(Drop)]
struct Indices<'a> {
    part: &'a [u64],
    held: ArrayVec<u64, 256>,
}

impl<'a> Indices<'a> {
    fn of(part: &'a [u64]) -> Indices<'a> {
        let mut held = ArrayVec::new();
        let _ = held.extend(part.iter().copied());
        Indices { part, held }
    }

    fn put(&self, answer: &mut Answer<'_>) {
        let behind = self.part.get(self.held.len()..).unwrap_or(&[]);
        for index in self.held.as_slice().iter().chain(behind) {
            answer.number(*index);
        }
    }
}

// How many numbers parts have.
fn count_of(parts: &[&[u64]]) -> usize {
    parts
        .iter()
        .fold(0usize, |sum, part| sum.saturating_add(part.len()))
}

// index_2d and index_3d; index_2d_in and index_3d_in, which give the axes
pub(crate) fn call(request: Request<'_>, answer: &mut Answer<'_>) {
    let [before @ .., part] = request.parts else {
        return;
    };
    if MOST < count_of(before) {
        return;
    }
    let mut indices = Indices::of(part);
    let Some(refused) = index(request.name, before, indices.held.as_mut_slice()) else {
        return;
    };
    answer.refusal(refused);
    indices.put(answer);
}

// Indexes the points of a call and the parts before its index slice; none where the call takes no such parts.
fn index(name: &[u8], before: &[&[u64]], indices: &mut [u64]) -> Option<Result<(), Refusal>> {
    match before {
        [numbers, xs, ys] => {
            let xs = places(xs);
            let ys = places(ys);
            index_on(name, numbers, &[xs.as_slice(), ys.as_slice()], indices)
        }
        [numbers, xs, ys, zs] => {
            let xs = places(xs);
            let ys = places(ys);
            let zs = places(zs);
            let axes = [xs.as_slice(), ys.as_slice(), zs.as_slice()];
            index_on(name, numbers, &axes, indices)
        }
        _ => None,
    }
}

// Indexes points by their coordinates on each axis.
fn index_on(
    name: &[u8],
    numbers: &[u64],
    axes: &[&[f64]],
    indices: &mut [u64],
) -> Option<Result<(), Refusal>> {
    let answer = match (name, numbers, axes) {
        (b"index_2d", [], [xs, ys]) => knots::index_2d_default(xs, ys, indices),
        (b"index_2d", [order], [xs, ys]) => knots::index_2d(xs, ys, small(*order), indices),
        (b"index_3d", [], [xs, ys, zs]) => knots::index_3d_default(xs, ys, zs, indices),
        (b"index_3d", [order], [xs, ys, zs]) => {
            knots::index_3d(xs, ys, zs, small(*order), indices)
        }
        (b"index_2d_in", [order, x_low, x_high, y_low, y_high], [xs, ys]) => {
            let x = extent(*x_low, *x_high);
            let y = extent(*y_low, *y_high);
            knots::index_2d_in(xs, ys, x, y, small(*order), indices)
        }
        (b"index_3d_in", [order, x_low, x_high, y_low, y_high, z_low, z_high], [xs, ys, zs]) => {
            let x = extent(*x_low, *x_high);
            let y = extent(*y_low, *y_high);
            let z = extent(*z_low, *z_high);
            knots::index_3d_in(xs, ys, zs, x, y, z, small(*order), indices)
        }
        _ => return None,
    };
    Some(answer)
}
