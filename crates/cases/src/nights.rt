// Calls that replay a night: `edition width height first depth / weights / cells / amounts / answers / splits / ids`, with the layers
// behind the height in 3D, where the weights and the last three parts are what the slices hold before.
use crate::answer::Answer;
use crate::calls::Request;
use crate::halvings::Halving;
use crate::lent::{Lent, MOST, small};

// replay_2d and replay_3d
pub(crate) fn call(request: Request<'_>, answer: &mut Answer<'_>) {
    let [numbers, weights, cells, amounts, answers, splits, ids] = request.parts else {
        return;
    };
    let Some(halving) = Halving::of(request.name, numbers) else {
        return;
    };
    let mut weights_room = [0u64; MOST];
    let mut answers_room = [0u32; MOST];
    let mut splits_room = [0u32; MOST];
    let mut ids_room = [0u32; MOST];
    let weights = Lent::of(weights, &mut weights_room, |weight| weight);
    let answers = Lent::of(answers, &mut answers_room, small);
    let splits = Lent::of(splits, &mut splits_room, small);
    let ids = Lent::of(ids, &mut ids_room, small);
    let refused = match halving {
        Halving::Plane(halving) => replay::replay_2d(
            halving,
            weights.held,
            cells,
            amounts,
            answers.held,
            splits.held,
            ids.held,
        ),
        Halving::Space(halving) => replay::replay_3d(
            halving,
            weights.held,
            cells,
            amounts,
            answers.held,
            splits.held,
            ids.held,
        ),
    };
    answer.refusal(refused);
    weights.put(answer);
    answers.put(answer);
    splits.put(answer);
    ids.put(answer);
}
