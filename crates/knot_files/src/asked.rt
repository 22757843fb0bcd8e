// The words of a command, each in its place: `report` or another word, the command, the file, the order, `plain` or not, `sorted` or not,
// up to three columns, and up to six ends of a box. What is not asked for is an empty word.
ghost use Rattle.std.specs.Prelude.{◌≤◌};

use words::Words;

// The first word of the box.
pub const BOX: usize = 9;

pub fn path(words: &Words) -> &[u8]
    ensures { Unit {0} }
{
    words.word(2)
}

// Whether the box alone is wanted.
pub fn extent(words: &Words) -> bool
    ensures { Unit {0} }
{
    words.is(1, "extent")
}

// The order, the default where none is named.
pub fn order(words: &Words) -> u32
    ensures { Unit {0} }
{
    words.number_or(3, rules::DEFAULT_ORDER)
}

pub fn plain(words: &Words) -> bool
    ensures { Unit {0} }
{
    words.is(4, "plain")
}

pub fn sorted(words: &Words) -> bool
    ensures { Unit {0} }
{
    words.is(5, "sorted")
}

pub fn columns(words: &Words) -> [&[u8]; 3]
    ensures { Unit {0} }
{
    [words.word(6), words.word(7), words.word(8)]
}

// How many ends of a box are given: none, 4 or 6.
pub fn ends(words: &Words) -> usize
    ensures { result ≤ 6 }
{
    if words.is_empty(BOX) {
        return 0;
    }
    if words.is_empty(BOX + 4) {
        return 4;
    }
    6
}
