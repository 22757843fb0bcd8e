// The cuts of a halved grid's nodes, a line each.
use messages::Outcome;
use printing::Output;
use std::fmt::Write;
use std::rt::HostRuntime;

// Prints the cut of each node, which count from 1.
pub(crate) fn print(rt: HostRuntime, splits: &[u32]) -> Outcome {
    let mut out = Output::of(rt);
    for (i, cut) in splits.iter().enumerate() {
        let node = i + 1;
        match *cut {
            rules::UNCUT => writeln!(out, "{node},uncut")?,
            cut => writeln!(out, "{node},{cut}")?,
        }
    }
    out.finish()
}
