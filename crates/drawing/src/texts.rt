// Text out of a file or a command as it stands in a picture: letters of UTF-8, each by its number where it is none of ASCII, so that
// the picture is well-formed whatever the file has.
use std::fmt;

// The first letters of a text, at most so many, and two points where there are more. A byte that is no letter's stands as U+FFFD.
#[derive(Clone, Copy)]
pub struct Text<'a> {
    pub text: &'a [u8],
    pub most: usize,
}

impl fmt::Display for Text<'_> {
    fn fmt<W: fmt::Write>(&self, f: &mut fmt::Formatter<W>) -> fmt::Result {
        let mut rest = self.text;
        for _ in 0..self.most {
            let Some((letter, behind)) = split_letter(rest) else {
                break;
            };
            write!(f, "{}", Letter(letter))?;
            rest = behind;
        }
        f.write_str(if rest.is_empty() { "" } else { ".." })
    }
}

// A letter, by its number where it means something in SVG or is none of ASCII.
#[derive(Clone, Copy)]
struct Letter(char);

impl fmt::Display for Letter {
    fn fmt<W: fmt::Write>(&self, f: &mut fmt::Formatter<W>) -> fmt::Result {
        match self.0 {
            '"' | '&' | '\'' | '<' | '>' => {}
            ' '..='~' => return f.write_char(self.0),
            _ => {}
        }
        let code = u32::from(self.0);
        write!(f, "&#{code};")
    }
}

// The letter that a text begins with, and what is behind it; none of an empty text.
fn split_letter(text: &[u8]) -> Option<(char, &[u8])> {
    let (first, rest) = text.split_first()?;
    Some(spelled(*first, rest).unwrap_or(('\u{fffd}', rest)))
}

// The letter that a byte begins which may stand in a picture, with those of its other bytes that it needs, and the bytes behind it.
// Spelled by hand: the library takes no byte from 248 on for a first one, which counts here as the one eight below it.
fn spelled(first: u8, rest: &[u8]) -> Option<(char, &[u8])> {
    let (bits, more, least) = match first {
        0x20..=0x7f => (first, 0, '\0'),
        0xc0..=0xdf => (first % 32, 1, '\u{80}'),
        0xe0..=0xef => (first % 16, 2, '\u{800}'),
        0xf0..=0xff => (first % 8, 3, '\u{10000}'),
        _ => return None,
    };
    let (others, behind) = rest.split_at_checked(more)?;
    let mut code = u32::from(bits);
    for b in others {
        if b / 64 != 2 {
            return None;
        }
        code = code << 6 | u32::from(b % 64);
    }
    match char::from_u32(code)? {
        '\u{fffe}' | '\u{ffff}' => None,
        letter => (least <= letter).then_some((letter, behind)),
    }
}
