// Runs all lines of a file and prints how many of them agree.
use crate::output::{say, say_name};
use crate::sheet;
use crate::verdicts::{Tally, verdict_of};
use std::fmt;
use std::fs::File;
use std::os::fd::AsRawFd;
use std::rt::HostRuntime;

// How many bytes are read of a file; one that fills them may have more.
const ROOM: usize = 1048576;

// Why a file is not run.
#[derive(Clone, Copy, Debug, PartialEq, Eq)]
enum Unrun {
    Missing,
    TooLong,
}

impl fmt::Display for Unrun {
    fn fmt<W: fmt::Write>(&self, f: &mut fmt::Formatter<W>) -> fmt::Result {
        f.write_str(match *self {
            Unrun::Missing => "no such file",
            Unrun::TooLong => "the file is too long",
        })
    }
}

// Reads the file of a name.
fn read<'a>(rt: HostRuntime, name: &[u8], room: &'a mut [u8; ROOM]) -> Result<&'a [u8], Unrun> {
    let Ok(name) = std::str::from_utf8(name) else {
        return Err(Unrun::Missing);
    };
    let Ok(file) = File::open(&rt, name) else {
        return Err(Unrun::Missing);
    };
    let size = io::read_full(file.as_raw_fd(), room);
    if size == ROOM {
        return Err(Unrun::TooLong);
    }
    Ok(&room[..size])
}

// Runs the cases of a text.
fn run_lines(text: &[u8]) -> Tally {
    let mut sheet = [0u64; sheet::ROOM];
    let mut tally = Tally::default();
    for line in text.split(|b| *b == b'\n') {
        tally.add(line, verdict_of(line, &mut sheet));
    }
    tally
}

// Runs the cases of a file by its name.
pub(crate) fn run(rt: HostRuntime, name: &[u8]) {
    let mut room = [0u8; ROOM];
    say_name(name);
    match read(rt, name, &mut room) {
        Ok(text) => {
            let tally = run_lines(text);
            say(format_args!("  {tally}"));
        }
        Err(unrun) => say(format_args!("  {unrun}")),
    }
}
