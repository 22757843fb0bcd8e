// Runs cases that are written as data: each line of a file is a call, what is asked and what it is to answer.
//
//     encode_2d 1 0 1 = 0 3
//     rcb_2d 4 1 1 / 10 20 30 40 / 7 / 4*7 = 0 / 0 / 4*1
//
// An answer is the number of refusal, the values, and what the slices hold after the call. `numbers` says how a number is written and
// `sheet` how a line is read; `calls` has the calls. For each file that the program is started with it prints how many lines agree, and
// each line that differs or cannot be read. A new case, or a file of cases, costs no proof.
#![tactic(auto)]

mod along;
mod answer;
mod axes;
mod calls;
mod curves;
mod files;
mod floats;
mod halvings;
mod indexed;
mod lent;
mod line;
mod nights;
mod numbers;
mod output;
mod sheet;
mod verdicts;

use std::rt::HostRuntime;
use words::argument;

fn main(rt: HostRuntime) {
    for i in 1..usize::MAX {
        let mut name = io::buffer();
        let Some(size) = argument(rt, i, &mut name) else {
            return;
        };
        files::run(rt, &name[..size]);
    }
}
