// The words of a command, and telling the script how the command ended (`status`).
//
// Every function is proved safe, and to end; what is written no contract can say, and the gate compares it.
#![tactic(auto)]

pub mod status;

ghost use Rattle.std.specs.Prelude.{◌≤◌, T, length, IfSome};

use arrayvec::ArrayVec;
use std::env::{Env, FillError};
use std::rt::HostRuntime;
use wholes::whole_of;

// Words of 4,096 bytes in all, each with a line's end behind it, so that a word may have spaces. What has no room is left out. One text, and no
// list of words: there is no heap, and no limit on their number.
#[derive(Drop)]
pub struct Words {
    bytes: ArrayVec<u8, 4096>,
}

impl Words {
    fn none() -> Words {
        Words {
            bytes: ArrayVec::new(),
        }
    }

    // The words that the program was started with.
    pub fn of_program(rt: HostRuntime) -> Words
        ensures { Unit {0} }
    {
        let mut words = Words::none();
        // By number: std's list of them wants a heap.
        for i in 1..usize::MAX {
            let mut room = io::buffer();
            let Some(size) = argument(rt, i, &mut room) else {
                break;
            };
            words.append(&room[..size]);
        }
        words
    }

    // The words of a text, which spaces part.
    pub fn parted(text: &[u8]) -> Words
        ensures { Unit {0} }
    {
        let mut words = Words::none();
        for word in text.split(|b| *b == b' ') {
            words.append(word);
        }
        words
    }

    fn append(&mut self, word: &[u8]) {
        let ended = word.iter().chain(b"\n").copied();
        let _ = self.bytes.extend(ended);
    }

    // Word `i`, counted from 0, up to a byte that is nought; empty where there are fewer.
    pub fn word(&self, i: usize) -> &[u8]
        ensures { length result.now ≤ 4096 }
    {
        let mut lines = self.bytes.as_slice().split(|b| *b == b'\n');
        let line = lines.nth(i).unwrap_or(b"");
        let word = line.split(|b| *b == 0).next().unwrap_or(b"");
        // It is no longer than all words are; that a piece of a split is no longer than the whole, its contract does not say.
        &word[..word.len().min(4096)]
    }

    // Whether word `i` is this one.
    pub fn is(&self, i: usize, what: &str) -> bool
        ensures { T result → length what.now ≤ 4096 }
    {
        self.word(i) == what.as_bytes()
    }

    // Whether word `i` is one that was not asked for.
    pub fn is_empty(&self, i: usize) -> bool
        ensures { Unit {0} }
    {
        self.word(i).is_empty()
    }

    // The number that word `i` is, where it is one that fits.
    pub fn number(&self, i: usize) -> Option<u32>
        ensures { Unit {0} }
    {
        let n = whole_of(self.word(i)).ok()?;
        u32::try_from(n).ok()
    }

    // The number that word `i` is; where it is none that fits, the largest, which no call takes for an order, a depth, a count, an edition or an axis.
    pub fn number_or_refused(&self, i: usize) -> u32
        ensures { Unit {0} }
    {
        self.number(i).unwrap_or(u32::MAX)
    }

    // The same, and a default where word `i` was not asked for.
    pub fn number_or(&self, i: usize, default: u32) -> u32
        ensures { Unit {0} }
    {
        if self.is_empty(i) {
            return default;
        }
        self.number_or_refused(i)
    }
}

// Puts argument `i` at the start of the room; how many bytes it has, none where it has no room, so that the words behind it keep their places.
// `None` behind the last argument.
pub fn argument(rt: HostRuntime, i: usize, room: &mut [u8; 4096]) -> Option<usize>
    ensures { IfSome result (λ n. n ≤ 4096) }
{
    match rt.arg(i, room) {
        Ok(size) => Some(size),
        Err(FillError::TooLong) => Some(0),
        Err(FillError::NotPresent) => None,
    }
}
