// The answers to events: each before its event's line, and how many there are of one kind. An answer is 0, or the number of a refusal, as the
// library writes them for C.
use crate::night::Trace;
use messages::{Outcome, say};
use numbered_lines::{print_header, print_lines};
use printing::Output;
use std::rt::HostRuntime;

// How many events have an answer.
pub(crate) fn counted(answers: &[u32], answer: u32) -> usize {
    answers.iter().filter(|other| **other == answer).count()
}

// Says how many events are refused, where some are.
pub(crate) fn say_refused(path: &[u8], answers: &[u32]) {
    let events = answers.len();
    let refused = answers.iter().filter(|answer| **answer != 0).count();
    if refused != 0 {
        say(
            path,
            format_args!("{refused} of {events} events are refused"),
        );
    }
}

// Prints each event's line behind its answer.
pub(crate) fn print(rt: HostRuntime, trace: Trace<'_>, answers: &[u32]) -> Outcome {
    let Trace { layout, events } = trace;
    let mut out = Output::of(rt);
    print_header(&mut out, "answer", layout)?;
    print_lines(&mut out, layout.source, events.starts.places(), answers)?;
    out.finish()
}
