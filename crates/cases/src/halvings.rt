// Calls that halve a grid: `width height depth / weights / splits / ids`, with the layers behind the height in 3D, where the last
// two parts are what the slices hold before. A call that names its edition has the number of that first of all, and the first
// axis before the depth.
use crate::answer::Answer;
use crate::calls::Request;
use crate::lent::{Lent, MOST, small};
use rules::{Halving2, Halving3, Refusal};

// What describes a halving in 2D or in 3D.
#[derive(Clone, Copy)]
pub(crate) enum Halving {
    Plane(Halving2),
    Space(Halving3),
}

impl Halving {
    // The halving of a call and the first part of its request; none where the call takes no such numbers.
    pub(crate) fn of(name: &[u8], numbers: &[u64]) -> Option<Halving> {
        match (name, numbers) {
            (b"rcb_2d", [width, height, depth]) => Some(Halving::Plane(Halving2::of(
                small(*width),
                small(*height),
                small(*depth),
            ))),
            (b"rcb_3d", [width, height, layers, depth]) => Some(Halving::Space(Halving3::of(
                small(*width),
                small(*height),
                small(*layers),
                small(*depth),
            ))),
            (b"halve_2d" | b"replay_2d", [edition, width, height, first, depth]) => {
                Some(Halving::Plane(Halving2 {
                    edition: small(*edition),
                    width: small(*width),
                    height: small(*height),
                    first: small(*first),
                    depth: small(*depth),
                }))
            }
            (b"halve_3d" | b"replay_3d", [edition, width, height, layers, first, depth]) => {
                Some(Halving::Space(Halving3 {
                    edition: small(*edition),
                    width: small(*width),
                    height: small(*height),
                    layers: small(*layers),
                    first: small(*first),
                    depth: small(*depth),
                }))
            }
            _ => None,
        }
    }

    fn halve(self, weights: &[u64], splits: &mut [u32], ids: &mut [u32]) -> Result<(), Refusal> {
        match self {
            Halving::Plane(halving) => halving::rcb_2d(halving, weights, splits, ids),
            Halving::Space(halving) => halving::rcb_3d(halving, weights, splits, ids),
        }
    }
}

// rcb_2d and rcb_3d; halve_2d and halve_3d, which name their edition
pub(crate) fn call(request: Request<'_>, answer: &mut Answer<'_>) {
    let [numbers, weights, splits, ids] = request.parts else {
        return;
    };
    let Some(halving) = Halving::of(request.name, numbers) else {
        return;
    };
    let mut splits_room = [0u32; MOST];
    let mut ids_room = [0u32; MOST];
    let splits = Lent::of(splits, &mut splits_room, small);
    let ids = Lent::of(ids, &mut ids_room, small);
    answer.refusal(halving.halve(weights, splits.held, ids.held));
    splits.put(answer);
    ids.put(answer);
}
