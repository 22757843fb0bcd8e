// Standard output. What it does not take is lost, since there is nowhere to say so.
use std::fmt;
use std::fmt::Write;

const STDOUT_FILENO: i32 = 1;

#[derive(Drop)]
struct StandardOutput;

impl Write for StandardOutput {
    fn write_str(&mut self, text: &str) -> fmt::Result {
        io::write_all(STDOUT_FILENO, text.as_bytes());
        Ok(())
    }
}

// Prints a line.
pub(crate) fn say<D: fmt::Display + Drop>(what: D) {
    let _ = writeln!(StandardOutput, "{what}");
}

// Prints a line of a file's name, which may be no text, as it is.
pub(crate) fn say_name(name: &[u8]) {
    io::write_all(STDOUT_FILENO, name);
    say("");
}
