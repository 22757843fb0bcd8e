// The fields of a text's lines, as spreadsheets and benches export them.
//
// A separator parts fields: a comma, a semicolon, a tab or any other byte, or a space, which stands for blanks (spaces, carriage
// returns, and tabs where they part nothing). It is a byte and no enum, since `field_at` answers for any byte. Blanks around a
// field do not belong to it. A field in double quotes may hold anything but a line's end, with two quotes for one; quotes that do
// not close, or that something stands behind, are bytes as any other. A `#` starts a comment where a field may begin, behind a
// blank or behind a closing quote. Nothing between two separators is an empty field, nothing behind a line's last separator is
// none.
//
// `separator_of` says what parts the fields of a text; `field_at` goes from one field to the next (`field_at`). Every field lies in
// the text and goes on from where it was looked for (`field_goes_on`). `Fields` goes over the fields of one line.
#![tactic(auto)]

ghost use Rattle.std.specs.Prelude.{◌≡◌, length, take_while, drop};
ghost use Rattle.fields.specs.Fields.{is_blank, parts, is_plain, bare_byte, bare_at, open_byte, quoted_byte, closed_byte, behind_byte, comment_byte, field_byte, found_at, unfinished, field_at};

mod line;

pub use line::{Fields, Span};
pub use separators::separator_of;
use std::ops::ControlFlow;
use std::ops::ControlFlow::{Break, Continue};

// What stands next in a text: a field from its first byte to before another (it may be empty) with the place where the next may
// begin, a comment or a line's end with the place after it, or the text's end. No Option: `field_at` and `field_goes_on` speak of
// `End` as of the other cases.
#[derive(Clone, Copy, Debug, PartialEq, Eq)]
pub enum Field {
    Word(usize, usize, usize),
    Comment(usize),
    LineEnd(usize),
    End,
}

// A field in quotes: the place of the quote that opens it, the place behind that, and the place of the quote that may close it.
#[derive(Clone, Copy, Debug, PartialEq, Eq)]
pub struct Quotes {
    start: usize,
    first: usize,
    end: usize,
}

// What has been met where a field may begin: nothing but blanks; a comment; an open quote, by its place and that behind it; a
// quote that may close it; and that quote with blanks behind it. An enum of its own: five cases, none of which is an absence.
#[derive(Clone, Copy, Debug, PartialEq, Eq)]
pub enum Met {
    Open,
    Comment,
    Quoted(usize, usize),
    Closed(Quotes),
    Behind(Quotes),
}

// What no byte more changes: the place of a field without quotes, which is read from there, or all.
#[derive(Clone, Copy, Debug, PartialEq, Eq)]
pub enum Found {
    Bare(usize),
    Field(Field),
}

// Whether a byte is a space, a carriage return or a tab that parts nothing.
fn is_blank(b: u8, separator: u8) -> bool
    ensures { result ≡ is_blank separator b }
{
    matches!(b, b' ' | b'\r') || b == b'\t' && separator != b'\t'
}

// Whether a byte parts fields.
fn parts_fields(b: u8, separator: u8) -> bool
    ensures { result ≡ parts separator b }
{
    b == separator || separator == b' ' && is_blank(b, separator)
}

// Whether a byte belongs to a field wherever it stands: it parts nothing and is none of the others, which lie below it.
fn is_plain(b: u8, separator: u8) -> bool
    ensures { result ≡ is_plain separator b }
{
    b > b'#' && b != separator
}

// One byte more of a field without quotes: the place behind its last byte so far; or its end, and where the next may begin. Here and
// below `next` is `at + 1`, handed down: inside, each of six functions would need a clause that this number fits.
fn bare_byte(
    end: usize,
    b: u8,
    at: usize,
    next: usize,
    separator: u8,
) -> ControlFlow<(usize, usize), usize>
    ensures { result ≡ bare_byte separator end b at next }
{
    if b == b'\n' {
        return Break((end, at));
    }
    if parts_fields(b, separator) {
        return Break((end, next));
    }
    if is_blank(b, separator) {
        return Continue(end);
    }
    if b == b'#' && end < at {
        return Break((end, at));
    }
    Continue(next)
}

// The bytes from `at` on.
fn rest_of(text: &[u8], at: usize) -> &[u8]
    ensures { result.now ≡ drop at text.now }
{
    text.get(at..).unwrap_or(&[])
}

// The field without quotes that begins at `start`.
#[tactic(auto, using(separators::proofs::Machines::one_more))]
fn bare_from(text: &[u8], start: usize, separator: u8) -> Field
    ensures { result ≡ bare_at separator text.now start }
{
    let mut end = start;
    for (n, b) in rest_of(text, start).iter().enumerate() {
        let at = start + n;
        match bare_byte(end, *b, at, at + 1, separator) {
            Continue(on) => end = on,
            Break((stop, next)) => return Field::Word(start, stop, next),
        }
    }
    Field::Word(start, end, text.len())
}

// One byte more where a field may begin.
fn open_byte(b: u8, at: usize, next: usize, separator: u8) -> ControlFlow<Found, Met>
    ensures { result ≡ open_byte separator b at next }
{
    if b == b'\n' {
        return Break(Found::Field(Field::LineEnd(next)));
    }
    if is_blank(b, separator) {
        return Continue(Met::Open);
    }
    if b == b'#' {
        return Continue(Met::Comment);
    }
    if b == separator {
        return Break(Found::Field(Field::Word(at, at, next)));
    }
    if b == b'"' {
        return Continue(Met::Quoted(at, next));
    }
    Break(Found::Bare(at))
}

// One byte more of a comment.
fn comment_byte(b: u8, next: usize) -> ControlFlow<Found, Met>
    ensures { result ≡ comment_byte b next }
{
    if b == b'\n' {
        return Break(Found::Field(Field::Comment(next)));
    }
    Continue(Met::Comment)
}

// One byte more between quotes.
fn quoted_byte(start: usize, first: usize, b: u8, at: usize) -> ControlFlow<Found, Met>
    ensures { result ≡ quoted_byte start first b at }
{
    match b {
        b'"' => Continue(Met::Closed(Quotes {
            start,
            first,
            end: at,
        })),
        b'\n' => Break(Found::Bare(start)),
        _ => Continue(Met::Quoted(start, first)),
    }
}

// One byte more behind a field in quotes and blanks.
fn behind_byte(
    quotes: Quotes,
    b: u8,
    at: usize,
    next: usize,
    separator: u8,
) -> ControlFlow<Found, Met>
    ensures { result ≡ behind_byte separator quotes b at next }
{
    if b == b'\n' {
        return Break(Found::Field(Field::Word(quotes.first, quotes.end, at)));
    }
    if parts_fields(b, separator) {
        return Break(Found::Field(Field::Word(quotes.first, quotes.end, next)));
    }
    if is_blank(b, separator) {
        return Continue(Met::Behind(quotes));
    }
    if b == b'#' {
        return Break(Found::Field(Field::Word(quotes.first, quotes.end, at)));
    }
    Break(Found::Bare(quotes.start))
}

// One byte more behind a quote that closes a field, or is the first of two.
fn closed_byte(
    quotes: Quotes,
    b: u8,
    at: usize,
    next: usize,
    separator: u8,
) -> ControlFlow<Found, Met>
    ensures { result ≡ closed_byte separator quotes b at next }
{
    if b == b'"' {
        return Continue(Met::Quoted(quotes.start, quotes.first));
    }
    behind_byte(quotes, b, at, next, separator)
}

// What has been met with one byte more, which stands at `at` and before `next`, or what is found.
fn step(met: Met, b: u8, at: usize, next: usize, separator: u8) -> ControlFlow<Found, Met>
    ensures { result ≡ field_byte separator met b at next }
{
    match met {
        Met::Open => open_byte(b, at, next, separator),
        Met::Comment => comment_byte(b, next),
        Met::Quoted(start, first) => quoted_byte(start, first, b, at),
        Met::Closed(quotes) => closed_byte(quotes, b, at, next, separator),
        Met::Behind(quotes) => behind_byte(quotes, b, at, next, separator),
    }
}

// The field that is found.
fn found_at(text: &[u8], found: Found, separator: u8) -> Field
    ensures { result ≡ found_at separator text.now found }
{
    match found {
        Found::Bare(start) => bare_from(text, start, separator),
        Found::Field(field) => field,
    }
}

// The field, by what has been met of it up to the text's end.
fn unfinished(text: &[u8], met: Met, separator: u8) -> Field
    ensures { result ≡ unfinished separator text.now met }
{
    match met {
        Met::Open => Field::End,
        Met::Comment => Field::Comment(text.len()),
        Met::Quoted(start, _) => bare_from(text, start, separator),
        Met::Closed(quotes) | Met::Behind(quotes) => {
            Field::Word(quotes.first, quotes.end, text.len())
        }
    }
}

// What stands next in the text from `from` on, a byte after the other.
#[tactic(auto, using(separators::proofs::Machines::one_more))]
fn met_from(text: &[u8], from: usize, separator: u8) -> Field
    ensures { result ≡ field_at separator text.now from }
{
    let mut met = Met::Open;
    for (n, b) in rest_of(text, from).iter().enumerate() {
        let at = from + n;
        match step(met, *b, at, at + 1, separator) {
            Continue(on) => met = on,
            Break(found) => return found_at(text, found, separator),
        }
    }
    unfinished(text, met, separator)
}

// How many bytes stand first that belong to a field wherever they stand.
fn plain_bytes(rest: &[u8], separator: u8) -> usize
    ensures { result ≡ length (take_while (is_plain separator) rest.now) }
{
    rest.iter().take_while(|b| is_plain(**b, separator)).count()
}

// What stands next in the text from `at` on, where a field may begin. What most fields and lines are is tried first: bytes that belong
// to a field wherever they stand, up to a separator or a line's end.
pub fn field_at(text: &[u8], at: usize, separator: u8) -> Field
    ensures { result ≡ field_at separator text.now at }
{
    let end = at + plain_bytes(rest_of(text, at), separator);
    if text.len() <= end {
        return met_from(text, at, separator);
    }
    match text[end] {
        b'\n' if at < end => Field::Word(at, end, end),
        b'\n' => Field::LineEnd(end + 1),
        b if b == separator && at < end => Field::Word(at, end, end + 1),
        _ => met_from(text, at, separator),
    }
}
