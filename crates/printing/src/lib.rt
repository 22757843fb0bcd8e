// Standard output through a buffer, and how numbers with decimals are printed.
//
// Where standard output takes no more, that is said on standard error, and what printed is an error that `?` passes on. So nothing more is
// printed, and it is said once.
#![tactic(auto)]

ghost use Rattle.std.specs.Prelude.{◌≡◌, OnOk};
ghost use Rattle.arrayvec.specs.ArrayVec.{array_vec_len};

use arrayvec::ArrayVec;
use messages::{Outcome, failed_by_system};
use std::fmt;
use std::fmt::Write;
use std::io::Print;
use std::rt::HostRuntime;

// Standard output, with the bytes that are still to be written; they are once there are 4,096 of them, and at the end.
#[derive(Drop)]
pub struct Output {
    buffer: ArrayVec<u8, 4096>,
    rt: HostRuntime,
}

impl Output {
    pub fn of(rt: HostRuntime) -> Output
        ensures { Unit {0} }
    {
        Output {
            buffer: ArrayVec::new(),
            rt,
        }
    }

    // Prints bytes that may be no text, as those of a file.
    pub fn bytes(&mut self, what: &[u8]) -> Outcome
        ensures { Unit {0} }
    {
        if self.buffer.try_extend_from_slice(what).is_ok() {
            return Ok(());
        }
        for b in what {
            self.byte(*b)?;
        }
        Ok(())
    }

    fn byte(&mut self, b: u8) -> Outcome {
        if self.buffer.is_full() {
            self.flush()?;
        }
        self.buffer.push(b);
        Ok(())
    }

    fn flush(&mut self) -> Outcome
        ensures { OnOk result (array_vec_len self.new.buffer ≡ 0) }
    {
        if let Err(error) = self.rt.write_all(self.buffer.as_slice()) {
            return Err(failed_by_system(b"standard output", error));
        }
        self.buffer.clear();
        Ok(())
    }

    // Writes what is still to be written.
    pub fn finish(mut self) -> Outcome
        ensures { Unit {0} }
    {
        self.flush()
    }
}

impl Write for Output {
    fn write_str(&mut self, text: &str) -> fmt::Result {
        self.bytes(text.as_bytes()).map_err(|_| fmt::Error)
    }
}

// Thousandths, with three digits behind a point.
#[derive(Clone, Copy)]
pub struct Thousandths(pub u64);

impl fmt::Display for Thousandths {
    fn fmt<W: Write>(&self, f: &mut fmt::Formatter<W>) -> fmt::Result {
        let whole = self.0 / 1000;
        let rest = self.0 % 1000;
        write!(f, "{whole}.{rest:03}")
    }
}

// A value, rounded to millionths, with six digits behind the point.
#[derive(Clone, Copy)]
pub struct Millionths(pub f64);

impl fmt::Display for Millionths {
    fn fmt<W: Write>(&self, f: &mut fmt::Formatter<W>) -> fmt::Result {
        let value = self.0;
        if value < 0.0 {
            f.write_str("-")?;
        }
        let size = millionths_of(value.abs());
        let whole = size / 1000000;
        let rest = size % 1000000;
        write!(f, "{whole}.{rest:06}")
    }
}

// The size of a value in millionths, rounded; 0 of what has too many, and of what is no number.
fn millionths_of(size: f64) -> u64 {
    let n = size * 1000000.0 + 0.5;
    if n < 18446744073709551616.0 {
        return std::num::saturating_f64_to_u64(n);
    }
    0
}
