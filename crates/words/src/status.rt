// How a command ended. A program of Rattle has no exit status of its own: it tells the script that started it, on descriptor 3, where
// the first word asks for that.
use crate::Words;
use messages::{Failure, Outcome};

const STATUS_FILENO: i32 = 3;

// Tells the status, where word 0 is `report`.
pub fn report(words: &Words, outcome: Outcome)
    ensures { Unit {0} }
{
    if words.is(0, "report") {
        io::print_decimal(STATUS_FILENO, status_of(outcome));
    }
}

// The status is 0 of what is answered, 1 of a file or a request that is refused, 2 of words that are no command.
fn status_of(outcome: Outcome) -> u64 {
    match outcome {
        Ok(()) => 0,
        Err(Failure::Failed) => 1,
        Err(Failure::Misused) => 2,
    }
}
