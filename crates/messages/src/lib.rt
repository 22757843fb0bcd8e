// What is said on standard error: of a file, with its name, a line and a column, and what was found there, or of the whole command; and
// how a command fails.
//
// Every function is proved safe, and to end; what is written no contract can say, and the gate compares it.
#![tactic(auto)]

use std::fmt;
use std::fmt::{InlineText, Write};
use std::io::Error;

const STDERR_FILENO: i32 = 2;

// Why a command gives no answer: a file or a request is refused, or its words are no command. By then it has been said.
#[derive(Clone, Copy, Debug, PartialEq, Eq)]
pub enum Failure {
    Failed,
    Misused,
}

// How a command ended.
pub type Outcome = Result<(), Failure>;

// What could not be printed has been said where it was tried.
impl From<fmt::Error> for Failure {
    fn from(_: fmt::Error) -> Failure {
        Failure::Failed
    }
}

// Standard error. What it does not take is lost, since there is nowhere to say so.
#[derive(Drop)]
struct StandardError;

impl Write for StandardError {
    fn write_str(&mut self, text: &str) -> fmt::Result {
        io::write_all(STDERR_FILENO, text.as_bytes());
        Ok(())
    }
}

// Says something of a file, of a word of the command or of standard output. A name may be no text, and is written as it is.
pub fn say<D: fmt::Display + Drop>(name: &[u8], what: D)
    ensures { Unit {0} }
{
    io::write_all(STDERR_FILENO, b"skarvolm: ");
    io::write_all(STDERR_FILENO, name);
    let _ = writeln!(StandardError, ": {what}");
}

// Says why a command fails, and that it does.
pub fn failed<D: fmt::Display + Drop>(name: &[u8], what: D) -> Failure
    ensures { Unit {0} }
{
    say(name, what);
    Failure::Failed
}

// What the system says of an error, without the number that stands in brackets behind it.
fn unnumbered(text: &str) -> &str {
    match text.split_once(" (os error ") {
        Some((said, _)) => said,
        None => text,
    }
}

// Says of a file, or of standard output, what the system says of a call that failed.
pub fn failed_by_system(name: &[u8], error: Error) -> Failure
    ensures { Unit {0} }
{
    let text = InlineText::<256>::of(error);
    failed(name, unnumbered(text.as_str()))
}

// Says what is wrong at the line and column of a byte of a file.
pub fn say_at<D: fmt::Display + Drop>(path: &[u8], text: &[u8], at: usize, what: D)
    ensures { Unit {0} }
{
    let place = text::place_at(text, at);
    let line = place.line;
    let column = place.column;
    io::write_all(STDERR_FILENO, b"skarvolm: ");
    io::write_all(STDERR_FILENO, path);
    let _ = writeln!(StandardError, ":{line}:{column}: {what}");
}

// Says that a program was not started by the script, which knows the commands.
pub fn misused() -> Failure
    ensures { Unit {0} }
{
    let _ = writeln!(
        StandardError,
        "skarvolm: these are no words of a command; the script skarvolm starts this program"
    );
    Failure::Misused
}

// Bytes of a file in quotes, at most 40 of them, so that each can be seen.
#[derive(Clone, Copy)]
pub struct Quoted<'a>(pub &'a [u8]);

impl fmt::Display for Quoted<'_> {
    fn fmt<W: Write>(&self, f: &mut fmt::Formatter<W>) -> fmt::Result {
        f.write_str("'")?;
        for b in self.0.iter().take(40) {
            match *b {
                b' '..=b'~' => f.write_char(char::from(*b))?,
                b => write!(f, "\\x{b:02x}")?,
            }
        }
        f.write_str(if 40 < self.0.len() { "..'" } else { "'" })
    }
}

// What was found.
#[derive(Clone, Copy)]
pub struct Found<'a>(pub &'a [u8]);

impl fmt::Display for Found<'_> {
    fn fmt<W: Write>(&self, f: &mut fmt::Formatter<W>) -> fmt::Result {
        if self.0.is_empty() {
            return f.write_str("found nothing");
        }
        let quoted = Quoted(self.0);
        write!(f, "found {quoted}")
    }
}
