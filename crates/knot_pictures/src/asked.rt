// The words of a command behind those that `index` has too (`asked` of `knot_files`): two or three axes, how many parts, and the column of
// the weights. What is not asked for is an empty word.
use words::Words;

pub(crate) fn axes(words: &Words) -> [&[u8]; 3] {
    [words.word(15), words.word(16), words.word(17)]
}

// How many parts are asked for.
pub(crate) fn parts(words: &Words) -> Option<u32> {
    if words.is_empty(18) {
        return None;
    }
    Some(words.number_or_refused(18))
}

// The name or number of the weights' column.
pub(crate) fn weights(words: &Words) -> &[u8] {
    words.word(19)
}
