// What parts the fields of a text, as its first line that has a word shows.
//
// A line is empty that holds nothing but blanks (spaces, tabs, carriage returns), or whose first byte that is no blank is a
// `#`. On the first line that is not empty the first comma, semicolon or tab outside double quotes parts the fields;
// where there is none before a comment, blanks do, and a space stands for them. A quote opens where a field may begin: at the
// line's first byte that is no blank, or behind a blank (a comma, a semicolon or a tab has parted already). Behind a closing
// quote another opens again, so that two for one stay inside. Elsewhere a quote is a byte as any other: `7" target,focal` is
// parted by commas. A `#` starts a comment behind a blank or a closing quote. `separator_of` is `separator_of` of its spec.
#![tactic(auto)]

ghost use Rattle.std.specs.Prelude.{◌≡◌};
ghost use Rattle.separators.specs.Separators.{blank_byte, word_byte, open_byte, gap_byte, quoted_byte, comment_byte, sought_byte, separator_of};

use std::ops::ControlFlow;
use std::ops::ControlFlow::{Break, Continue};

// What has been met of a text that has not shown yet what parts its fields: on its line nothing but blanks, and whether a tab is
// among them; the comment of an empty line; a word up to its last byte, a gap behind it (a blank or a closing quote), or an
// open quote. An enum of its own: five cases, none of which is an absence.
#[derive(Clone, Copy, Debug, PartialEq, Eq)]
pub enum Sought {
    Blank(bool),
    Comment,
    Word,
    Gap,
    Quoted,
}

// One byte more of a line that has a word, where no quote opens.
fn word_byte(b: u8) -> ControlFlow<u8, Sought>
    ensures { result ≡ word_byte b }
{
    match b {
        b',' | b';' | b'\t' => Break(b),
        b'\n' => Break(b' '),
        b' ' | b'\r' => Continue(Sought::Gap),
        _ => Continue(Sought::Word),
    }
}

// One byte more where a field may begin, or behind a closing quote: there a quote opens.
fn open_byte(b: u8) -> ControlFlow<u8, Sought>
    ensures { result ≡ open_byte b }
{
    if b == b'"' {
        return Continue(Sought::Quoted);
    }
    word_byte(b)
}

// One byte more of a line that has had nothing but blanks.
fn blank_byte(tabbed: bool, b: u8) -> ControlFlow<u8, Sought>
    ensures { result ≡ blank_byte tabbed b }
{
    match b {
        b'\n' => Continue(Sought::Blank(false)),
        b'\t' => Continue(Sought::Blank(true)),
        b' ' | b'\r' => Continue(Sought::Blank(tabbed)),
        b'#' => Continue(Sought::Comment),
        _ if tabbed => Break(b'\t'),
        _ => open_byte(b),
    }
}

// One byte more behind a gap.
fn gap_byte(b: u8) -> ControlFlow<u8, Sought>
    ensures { result ≡ gap_byte b }
{
    if b == b'#' {
        return Break(b' ');
    }
    open_byte(b)
}

// One byte more between quotes.
fn quoted_byte(b: u8) -> ControlFlow<u8, Sought>
    ensures { result ≡ quoted_byte b }
{
    match b {
        b'"' => Continue(Sought::Gap),
        b'\n' => Break(b' '),
        _ => Continue(Sought::Quoted),
    }
}

// One byte more of an empty line's comment.
fn comment_byte(b: u8) -> ControlFlow<u8, Sought>
    ensures { result ≡ comment_byte b }
{
    if b == b'\n' {
        return Continue(Sought::Blank(false));
    }
    Continue(Sought::Comment)
}

// What has been met with one byte more, or what parts the fields.
fn step(met: Sought, b: u8) -> ControlFlow<u8, Sought>
    ensures { result ≡ sought_byte met b }
{
    match met {
        Sought::Blank(tabbed) => blank_byte(tabbed, b),
        Sought::Comment => comment_byte(b),
        Sought::Word => word_byte(b),
        Sought::Gap => gap_byte(b),
        Sought::Quoted => quoted_byte(b),
    }
}

// What parts the fields of a text: a comma, a semicolon or a tab, or a space where blanks do. A byte and no enum of the four, since
// `field_at` (crate `fields`) answers for any byte.
pub fn separator_of(text: &[u8]) -> u8
    ensures { result ≡ separator_of text.now }
{
    let mut met = Sought::Blank(false);
    for b in text {
        match step(met, *b) {
            Continue(next) => met = next,
            Break(separator) => return separator,
        }
    }
    b' '
}
