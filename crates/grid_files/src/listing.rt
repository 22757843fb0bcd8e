// The weights or the ids of a grid in its shape, as a file has its weights.
use crate::shape::Shape;
use messages::Outcome;
use printing::Output;
use std::fmt::{Display, Write};
use std::rt::HostRuntime;

// Prints a number of each cell; where they are weights, they are a grid's file again.
pub fn print<N: Display + Copy>(rt: HostRuntime, shape: Shape, numbers: &[N]) -> Outcome
    ensures { Unit {0} }
{
    let mut out = Output::of(rt);
    for (i, layer) in numbers.chunks(shape.layer()).enumerate() {
        if i != 0 {
            out.write_str("\n")?;
        }
        for line in layer.chunks(shape.width) {
            print_line(&mut out, line, shape.separator)?;
        }
    }
    out.finish()
}

fn print_line<N: Display + Copy>(out: &mut Output, line: &[N], separator: u8) -> Outcome {
    for (i, number) in line.iter().enumerate() {
        if i != 0 {
            out.bytes(&[separator])?;
        }
        write!(out, "{}", *number)?;
    }
    out.write_str("\n")?;
    Ok(())
}
