// The replay of a night, and what is shown of it.
use crate::events::Events;
use crate::{answers, asked, summary};
use console::starts::MOST;
use grid_files::halved::{Halved, Wish};
use grid_files::listing;
use grid_files::shape::Shape;
use grid_pictures::{Files, draw};
use knot_files::layout::Layout;
use messages::Outcome;
use rules::Refusal;
use std::rt::HostRuntime;
use words::Words;

// The trace of a night: its events, and how its file is laid out.
#[derive(Clone, Copy)]
pub(crate) struct Trace<'a> {
    pub(crate) layout: Layout<'a>,
    pub(crate) events: &'a Events,
}

// Replays a night in 2D where the grid has one layer and else in 3D. What is lent is what the library is lent.
fn replay(
    shape: Shape,
    wish: Wish,
    weights: &mut [u64],
    events: &Events,
    answers: &mut [u32],
    splits: &mut [u32],
    ids: &mut [u32],
) -> Result<(), Refusal> {
    let cells = events.cells.as_slice();
    let amounts = events.amounts.as_slice();
    if shape.is_flat() {
        let halving = wish.halving_2d(shape);
        return replay::replay_2d(halving, weights, cells, amounts, answers, splits, ids);
    }
    let halving = wish.halving_3d(shape);
    replay::replay_3d(halving, weights, cells, amounts, answers, splits, ids)
}

// Replays the events of a trace on a grid and shows the night, or says why it is refused.
pub(crate) fn carry_out(
    rt: HostRuntime,
    words: &Words,
    shape: Shape,
    weights: &mut [u64],
    trace: Trace<'_>,
) -> Outcome {
    let wish = asked::wish(words);
    let events = trace.events;
    let mut answers = [0u32; MOST];
    let answers = &mut answers[..events.starts.len()];
    let mut splits = [0u32; 4095];
    let splits = &mut splits[..wish.nodes()];
    let mut ids = [0u32; MOST];
    let ids = &mut ids[..shape.cells()];
    if let Err(refusal) = replay(shape, wish, weights, events, answers, splits, ids) {
        return Err(shape.refused(asked::grid(words), refusal));
    }
    let halved = Halved {
        shape,
        wish,
        weights,
        ids,
    };
    let shown = show(rt, words, halved, trace, answers);
    answers::say_refused(asked::trace(words), answers);
    shown
}

// Shows what is asked for of the grid after a night and of the answers.
fn show(
    rt: HostRuntime,
    words: &Words,
    halved: Halved<'_>,
    trace: Trace<'_>,
    answers: &[u32],
) -> Outcome {
    match asked::shown(words) {
        b"answers" => answers::print(rt, trace, answers),
        b"weights" => listing::print(rt, halved.shape, halved.weights),
        b"summary" => summary::print(rt, halved, answers),
        b"picture" => {
            let files = Files {
                grid: asked::grid(words),
                trace: Some(asked::trace(words)),
            };
            draw(rt, files, halved)
        }
        _ => listing::print(rt, halved.shape, halved.ids),
    }
}
