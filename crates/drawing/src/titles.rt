// The head of a picture, and what its titles say of files and numbers.
use crate::texts::Text;
use std::fmt;

// The head of a picture of so many pixels, and its ground.
#[derive(Clone, Copy)]
pub struct Head {
    pub width: u64,
    pub height: u64,
}

impl fmt::Display for Head {
    fn fmt<W: fmt::Write>(&self, f: &mut fmt::Formatter<W>) -> fmt::Result {
        let Head { width, height } = *self;
        write!(
            f,
            "<svg xmlns='http://www.w3.org/2000/svg' width='{width}' height='{height}' viewBox='0 0 {width} {height}' font-family='sans-serif' font-size='13'>\n<rect width='100%' height='100%' fill='white'/>\n"
        )
    }
}

// The name of a file without its folders, of which at most so many letters.
#[derive(Clone, Copy)]
pub struct FileName<'a> {
    pub path: &'a [u8],
    pub most: usize,
}

impl fmt::Display for FileName<'_> {
    fn fmt<W: fmt::Write>(&self, f: &mut fmt::Formatter<W>) -> fmt::Result {
        if self.path == b"-".as_slice() {
            return f.write_str("standard input");
        }
        let mut names = self.path.rsplit(|b| *b == b'/');
        let text = names.next().unwrap_or(b"");
        let name = Text {
            text,
            most: self.most,
        };
        write!(f, "{name}")
    }
}

// How many there are of what has this name.
#[derive(Clone, Copy)]
pub struct Count<'a> {
    pub n: u64,
    pub name: &'a str,
}

impl fmt::Display for Count<'_> {
    fn fmt<W: fmt::Write>(&self, f: &mut fmt::Formatter<W>) -> fmt::Result {
        let Count { n, name } = *self;
        let end = if n == 1 { "" } else { "s" };
        write!(f, "{n} {name}{end}")
    }
}
