// A line for each index: the index, its cell, and where the box is known the range of each coordinate.
use crate::ranges::Range;
use crate::setting::Setting;
use decoding::{decode_2d, decode_3d};
use knot_rows::sides::Side;
use messages::Outcome;
use printing::Output;
use std::fmt::Write;
use std::rt::HostRuntime;

// Prints the lines of indices, none of which is refused. There are no sides where the box is not known.
pub(crate) fn print(
    rt: HostRuntime,
    indices: &[u64],
    setting: Setting,
    sides: &[Side<'_>],
) -> Outcome {
    let mut out = Output::of(rt);
    for index in indices {
        write!(out, "{index}")?;
        // The decoders answer cells of different lengths, so that none of them is chosen before.
        if setting.solid {
            let cell = decode_3d(*index, setting.order).unwrap_or([0, 0, 0]);
            print_cell(&mut out, &cell, setting.order, sides)?;
        } else {
            let cell = decode_2d(*index, setting.order).unwrap_or([0, 0]);
            print_cell(&mut out, &cell, setting.order, sides)?;
        }
        out.write_str("\n")?;
    }
    out.finish()
}

// Prints a cell, and its ranges on the sides of the box.
fn print_cell(out: &mut Output, cell: &[u64], order: u32, sides: &[Side<'_>]) -> Outcome {
    for coordinate in cell {
        write!(out, ",{coordinate}")?;
    }
    for (side, coordinate) in sides.iter().zip(cell) {
        let range = Range {
            side: side.extent(),
            order,
            cell: *coordinate,
        };
        write!(out, ",{range}")?;
    }
    Ok(())
}
