// The command line's part for grids: halves them, and shows the parts of all cells, the cuts, or a picture.
//
// The script skarvolm knows the commands and hands their words on, each in its place: `report` or another word, the command, the file,
// the depth, what is to be shown, the edition, and the first axis. What is not asked for is an empty word.
#![tactic(auto)]

mod splits;

use console::files;
use grid_files::file::read;
use grid_files::halved::{Halved, Wish};
use grid_files::listing;
use grid_files::shape::Shape;
use grid_pictures::{Files, draw};
use messages::Outcome;
use rules::{DEFAULT_EDITION, DEFAULT_FIRST, Refusal};
use std::rt::HostRuntime;
use whole_files::numbers::Numbers;
use words::Words;
use words::status::report;

// Halves a grid in 2D where it has one layer and else in 3D.
fn halve(
    shape: Shape,
    wish: Wish,
    weights: &[u64],
    splits: &mut [u32],
    ids: &mut [u32],
) -> Result<(), Refusal> {
    if shape.is_flat() {
        return halving::rcb_2d(wish.halving_2d(shape), weights, splits, ids);
    }
    halving::rcb_3d(wish.halving_3d(shape), weights, splits, ids)
}

// Reads a file's grid, halves it and shows it, or says what is wrong.
fn carry_out(rt: HostRuntime, words: &Words, room: &mut [u8; files::ROOM]) -> Outcome {
    let path = words.word(2);
    let mut weights = Numbers::new();
    let shape = read(rt, path, room, &mut weights)?;
    let weights = weights.as_slice();
    let wish = Wish {
        edition: words.number_or(5, DEFAULT_EDITION),
        first: words.number_or(6, DEFAULT_FIRST),
        depth: words.number_or_refused(3),
    };
    let mut splits = [0u32; 4095];
    let splits = &mut splits[..wish.nodes()];
    let mut ids = [0u32; 65536];
    let ids = &mut ids[..shape.cells()];
    if let Err(refusal) = halve(shape, wish, weights, splits, ids) {
        return Err(shape.refused(path, refusal));
    }
    let halved = Halved {
        shape,
        wish,
        weights,
        ids,
    };
    show(rt, words, halved, splits)
}

// Shows what is asked for of a halved grid.
fn show(rt: HostRuntime, words: &Words, halved: Halved<'_>, splits: &[u32]) -> Outcome {
    match words.word(4) {
        b"splits" => splits::print(rt, splits),
        b"picture" => {
            let files = Files {
                grid: words.word(2),
                trace: None,
            };
            draw(rt, files, halved)
        }
        _ => listing::print(rt, halved.shape, halved.ids),
    }
}

fn main(rt: HostRuntime) {
    let words = Words::of_program(rt);
    let mut room = [0u8; files::ROOM];
    let outcome = carry_out(rt, &words, &mut room);
    report(&words, outcome);
}
