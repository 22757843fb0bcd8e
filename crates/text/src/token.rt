// From one word or line's end of a text to the next.
ghost use Rattle.std.specs.Prelude.{◌≡◌, not};
ghost use Rattle.text.specs.Bytes.{is_gap, is_line_end};
ghost use Rattle.text.specs.Tokens.{is_letter, run_of, token_at};

// What stands next in a text: a word from its first byte to before another, a comment to before its line's end, a line's end
// with the place after it, or the text's end. No Option: `token_at` and `token_goes_on` speak of `End` as of the other cases.
#[derive(Clone, Copy, Debug, PartialEq, Eq)]
pub enum Token {
    Word(usize, usize),
    Comment(usize),
    LineEnd(usize),
    End,
}

// Whether a byte is a space, a comma, a tab or a carriage return.
fn is_gap(b: u8) -> bool
    ensures { result ≡ is_gap b }
{
    matches!(b, b' ' | b',' | b'\t' | b'\r')
}

// Whether a byte belongs to a word.
fn is_letter(b: u8) -> bool
    ensures { result ≡ is_letter b }
{
    !(is_gap(b) || b == b'\n' || b == b'#')
}

// How many gaps stand first.
fn gaps(rest: &[u8]) -> usize
    ensures { result ≡ run_of is_gap rest.now }
{
    rest.iter().take_while(|b| is_gap(**b)).count()
}

// How long the comment is that stands first.
fn comment(rest: &[u8]) -> usize
    ensures { result ≡ run_of (λ b. not (is_line_end b)) rest.now }
{
    rest.iter().take_while(|b| **b != b'\n').count()
}

// How long the word is that stands first.
fn word(rest: &[u8]) -> usize
    ensures { result ≡ run_of is_letter rest.now }
{
    rest.iter().take_while(|b| is_letter(**b)).count()
}

// What stands next in the text from `at` on.
pub fn next_token(text: &[u8], at: usize) -> Token
    ensures { result ≡ token_at text.now at }
{
    if text.len() <= at {
        return Token::End;
    }
    let start = at + gaps(&text[at..]);
    if text.len() <= start {
        return Token::End;
    }
    match text[start] {
        b'\n' => Token::LineEnd(start + 1),
        b'#' => Token::Comment(start + comment(&text[start..])),
        _ => Token::Word(start, start + word(&text[start..])),
    }
}
