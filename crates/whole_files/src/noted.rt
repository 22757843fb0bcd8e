// What a list of indices says of itself: in its first line, as `index` writes it (`# skarvolm 3d order 12 box 24 105 0.45 1000 2.8 22`),
// and in a header.
use console::source::Source;
use messages::{Failure, failed};
use words::Words;

// The words of a first line that says what a list is, and what it says behind the two that all such lines begin with.
#[derive(Drop)]
pub struct Note<'a> {
    pub words: Words,
    pub said: &'a [u8],
}

// The place of the first end of the box among the words.
pub const BOX: usize = 6;

impl Note<'_> {
    pub fn dimension(&self) -> &[u8]
        ensures { Unit {0} }
    {
        self.words.word(2)
    }

    pub fn order(&self) -> &[u8]
        ensures { Unit {0} }
    {
        self.words.word(4)
    }

    pub fn order_number(&self) -> u32
        ensures { Unit {0} }
    {
        self.words.number_or_refused(4)
    }
}

// What a list says of itself, if it does; or says that it is one of parts, whose lines begin with a part and not with an index.
pub fn note_of(source: Source<'_>) -> Result<Option<Note<'_>>, Failure>
    ensures { Unit {0} }
{
    let line = source.line(0).bytes();
    let words = Words::parted(line);
    if !words.is(0, "#") || !words.is(1, "skarvolm") {
        return Ok(None);
    }
    if words.is(2, "parts") {
        return Err(failed(
            source.path,
            "its lines begin with a part, wanted lines that begin with an index",
        ));
    }
    if !words.is(3, "order") {
        return Ok(None);
    }
    let said = line.get(b"# skarvolm ".len()..).unwrap_or(b"");
    Ok(Some(Note { words, said }))
}

// Whether the first line with a field, which starts at `head`, is a header whose first column is the index.
pub fn is_headed(source: Source<'_>, head: usize) -> bool
    ensures { Unit {0} }
{
    let line = source.line(head);
    source.bytes(line.field(0)) == b"index".as_slice()
}
