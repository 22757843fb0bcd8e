// The words of a command, each in its place: `report` or another word, the command, the grid, the trace, the depth, what is to be shown, and
// the first axis. What is not asked for is an empty word.
use grid_files::halved::Wish;
use words::Words;

pub(crate) fn grid(words: &Words) -> &[u8] {
    words.word(2)
}

pub(crate) fn trace(words: &Words) -> &[u8] {
    words.word(3)
}

// A night is replayed by edition 2.
pub(crate) fn wish(words: &Words) -> Wish {
    Wish {
        edition: rules::EDITION_2,
        first: words.number_or(6, rules::DEFAULT_FIRST),
        depth: words.number_or_refused(4),
    }
}

pub(crate) fn shown(words: &Words) -> &[u8] {
    words.word(5)
}
