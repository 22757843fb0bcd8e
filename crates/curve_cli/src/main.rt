// The command line's part for the curve: cells of indices, its picture, and the numbers of refusal.
//
// The script skarvolm knows the commands and hands their words on, each in its place: `report` or another word, the command, the file, the order and
// the dimension. What is not asked for is an empty word.
#![tactic(auto)]

mod cells;
mod list;
mod picture;
mod ranges;
mod setting;

use console::files;
use messages::{Outcome, misused};
use printing::Output;
use rules::Refusal;
use std::fmt::Write;
use std::rt::HostRuntime;
use words::Words;
use words::status::report;

// Prints the numbers of refusal.
fn refusals(rt: HostRuntime) -> Outcome {
    let mut out = Output::of(rt);
    writeln!(out, "0  answered")?;
    for number in 1..=u32::from(Refusal::Cell) {
        if let Ok(refusal) = Refusal::try_from(number) {
            writeln!(out, "{number}  {refusal}")?;
        }
    }
    out.finish()
}

// Carries out a command.
fn carry_out(rt: HostRuntime, words: &Words, room: &mut [u8; files::ROOM]) -> Outcome {
    match words.word(1) {
        b"cells" => list::command(rt, words, room),
        b"picture" => picture::command(rt, words),
        b"refusals" => refusals(rt),
        _ => Err(misused()),
    }
}

fn main(rt: HostRuntime) {
    let words = Words::of_program(rt);
    let mut room = [0u8; files::ROOM];
    let outcome = carry_out(rt, &words, &mut room);
    report(&words, outcome);
}
