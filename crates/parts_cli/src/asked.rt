// The words of a command, each in its place: `report` or another word, the command, the file, how many parts, the column of the weights,
// `sorted` or not, `summary` or not. What is not asked for is an empty word.
use words::Words;

pub(crate) fn path(words: &Words) -> &[u8] {
    words.word(2)
}

// How many parts.
pub(crate) fn count(words: &Words) -> u32 {
    words.number_or_refused(3)
}

// The name or number of the weights' column.
pub(crate) fn weights(words: &Words) -> &[u8] {
    words.word(4)
}

pub(crate) fn sorted(words: &Words) -> bool {
    words.is(5, "sorted")
}

pub(crate) fn summary(words: &Words) -> bool {
    words.is(6, "summary")
}
