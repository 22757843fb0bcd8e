// What a word of a file spells: its sign, and what is no finite number.

// A word without its sign.
pub fn unsigned(word: &[u8]) -> &[u8]
    ensures { Unit {0} }
{
    match word {
        [b'+' | b'-', rest @ ..] => rest,
        _ => word,
    }
}

// Whether a word spells what is no finite number, with a sign or none.
pub fn not_finite(word: &[u8]) -> bool
    ensures { Unit {0} }
{
    let spelled = unsigned(word);
    spelled.eq_ignore_ascii_case(b"nan")
        || spelled.eq_ignore_ascii_case(b"inf")
        || spelled.eq_ignore_ascii_case(b"infinity")
}
