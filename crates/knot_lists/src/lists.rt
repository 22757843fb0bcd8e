// The list of indices: what it is, the header, and each knot's line behind its index.
ghost use Rattle.std.specs.Prelude.{◌≤◌, length};

use crate::notes::print_note;
use console::starts::MOST;
use knot_files::asked;
use knot_rows::knots::Knots;
use knot_rows::sides::Side;
use messages::{Outcome, say};
use numbered_lines::{print_header, print_lines, print_lines_in_order};
use printing::Output;
use std::rt::HostRuntime;
use words::Words;

// Knots in a box of these sides, and the index of each.
#[derive(Clone, Copy)]
pub struct List<'a> {
    pub knots: &'a Knots<'a>,
    pub sides: &'a [Side<'a>],
    pub indices: &'a [u64],
}

impl List<'_> {
    // Prints the list, and says how many knots share an index with one before them, where some do.
    pub fn print(self, rt: HostRuntime, words: &Words) -> Outcome
        ensures { Unit {0} }
    {
        let n = self.indices.len().min(MOST);
        let printed = self.print_in(rt, words, n);
        let shared = shared(&self.indices[..n]);
        if shared != 0 {
            say(
                asked::path(words),
                format_args!("{shared} of {n} knots share an index with one before them"),
            );
        }
        printed
    }

    // Prints the list, in the order of the indices where that is asked for.
    fn print_in(self, rt: HostRuntime, words: &Words, n: usize) -> Outcome
        requires few { n ≤ 65536 }
        requires some { n ≤ length self.indices.now }
    {
        let mut out = Output::of(rt);
        if !asked::plain(words) {
            print_note(&mut out, words, self.sides)?;
        }
        let layout = self.knots.layout;
        print_header(&mut out, "index", layout)?;
        let starts = self.knots.starts();
        if asked::sorted(words) {
            let mut room = [0u32; MOST];
            let order = &mut room[..n];
            sort::in_order(&self.indices[..n], order);
            print_lines_in_order(&mut out, layout.source, order, starts, self.indices)?;
        } else {
            print_lines(&mut out, layout.source, starts, self.indices)?;
        }
        out.finish()
    }
}

// How many of some indices, as many as there may be knots, stand before among them. They are sorted by themselves, which takes fewer instructions
// than the order of their knots.
fn shared(indices: &[u64]) -> usize
    requires { length indices.now ≤ 65536 }
{
    let mut room = [0u64; MOST];
    let sorted = &mut room[..indices.len()];
    sorted.copy_from_slice(indices);
    sorted.sort_unstable();
    let pairs = sorted.windows(2);
    pairs.filter(|pair| pair[0] == pair[1]).count()
}
