// The calls by their names. A request that fits no call is not answered.
use crate::answer::Answer;
use crate::{along, axes, curves, halvings, indexed, nights};

// What a case asks: the name of a call, and the parts of its request.
#[derive(Clone, Copy)]
pub(crate) struct Request<'a> {
    pub(crate) name: &'a [u8],
    pub(crate) parts: &'a [&'a [u64]],
}

// Carries out a call.
pub(crate) fn call(request: Request<'_>, answer: &mut Answer<'_>) {
    match request.name {
        b"deposit" | b"encode_2d" | b"encode_3d" | b"decode_2d" | b"decode_3d" => {
            curves::call(request, answer)
        }
        b"cell" | b"cell_flat" | b"cell_sloped" | b"extent_of" => axes::call(request, answer),
        b"rcb_2d" | b"rcb_3d" | b"halve_2d" | b"halve_3d" => halvings::call(request, answer),
        b"index_2d" | b"index_3d" | b"index_2d_in" | b"index_3d_in" => {
            indexed::call(request, answer)
        }
        b"parts_along" => along::call(request, answer),
        b"replay_2d" | b"replay_3d" => nights::call(request, answer),
        _ => {}
    }
}
