// Words and lines' ends of a text of bytes, and the place of a byte.
//
// A text is lines of words. A word is a run of bytes between gaps: spaces, tabs, commas and carriage returns. A `#`
// starts a comment, which ends with its line. `next_token` goes from one word or line's end to the next; `place_at` says
// where a byte stands, as a person counts.
//
// Every token lies in the text and goes on from where it was looked for (`token_goes_on`).
#![tactic(auto)]

mod place;
mod token;

pub use place::{Place, place_at};
pub use token::{Token, next_token};
