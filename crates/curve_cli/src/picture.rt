// A picture of the curve through its cells, as SVG, its hue going round once from the first index to the last: with the numbers of columns and
// lines, marks on the first and the last cell, and at low orders the index of each cell. What is drawn is in tenths of a pixel.
ghost use Rattle.std.specs.Prelude.{◌≤◌, ◌<◌};

use decoding::decode_2d;
use drawing::ends::{Ends, Place};
use drawing::ticks::Cells;
use drawing::titles::{Count, Head};
use messages::{Outcome, failed};
use printing::Output;
use std::fmt;
use std::fmt::Write;
use std::rt::HostRuntime;
use words::Words;

// How much all cells take across and down, and where they begin. Each of 2^8 takes a whole number of it.
const SIDE: u64 = 7680;

const CORNER: Place = Place { x: 500, y: 1000 };

// The highest order that is drawn, and the highest at which the index of each cell is written.
const TOP: u32 = 8;

const WRITTEN: u32 = 4;

// What begins at a corner and takes so much, across and down.
#[derive(Clone, Copy)]
struct Square {
    corner: Place,
    size: u64,
}

impl Square {
    fn middle(self) -> Place {
        let Place { x, y } = self.corner;
        Place {
            x: x.saturating_add(self.size / 2),
            y: y.saturating_add(self.size / 2),
        }
    }
}

// A place between two cells' corners, where a cell takes 1.
#[derive(Clone, Copy)]
struct Centre([u64; 2]);

impl fmt::Display for Centre {
    fn fmt<W: Write>(&self, f: &mut fmt::Formatter<W>) -> fmt::Result {
        let [x, y] = self.0;
        write!(f, " {x}.5,{y}.5")
    }
}

// The curve of an order.
#[derive(Clone, Copy)]
struct Curve {
    order: u32,
    ghost low: { order ≤ 8 },
}

impl Curve {
    // How many cells there are on a side, and all of them.
    fn side(self) -> u64 {
        1 << self.order
    }

    fn cells(self) -> u64 {
        1 << (2 * self.order)
    }

    fn last(self) -> u64 {
        self.cells().saturating_sub(1)
    }

    // The cell of an index, which is one of the curve's.
    fn cell(self, index: u64) -> [u64; 2] {
        decode_2d(index, self.order).unwrap_or([0, 0])
    }

    // How much so many cells take.
    fn taken(self, cells: u64) -> u64 {
        cells.saturating_mul(SIDE) >> self.order
    }

    // The cell of an index as it is drawn.
    fn drawn(self, index: u64) -> Square {
        let [x, y] = self.cell(index);
        Square {
            corner: Place {
                x: self.taken(x).saturating_add(CORNER.x),
                y: self.taken(y).saturating_add(CORNER.y),
            },
            size: self.taken(1),
        }
    }

    // How many steps of one hue there are.
    fn steps(self) -> u64
        ensures { 0 < result }
    {
        match self.order {
            0..=2 => 1,
            3..=4 => 4,
            _ => 16,
        }
    }

    // The hue that an index is drawn in.
    fn hue(self, index: u64) -> u64 {
        index.saturating_mul(330) >> (2 * self.order)
    }

    // Prints the curve in stretches, each of which begins where the last one ended. What is drawn is the number itself, here and in the corners.
    fn print_stretches(self, out: &mut Output) -> Outcome {
        for index in 0..self.cells() {
            let centre = Centre(self.cell(index));
            write!(out, "{centre}")?;
            if (index + 1) % self.steps() == 0 {
                let hue = self.hue(index);
                write!(
                    out,
                    "'/>\n<polyline stroke='hsl({hue},70%,48%)' points='{centre}"
                )?;
            }
        }
        Ok(())
    }

    // Prints the curve.
    fn print_line(self, out: &mut Output) -> Outcome {
        let scale = self.taken(1);
        write!(
            out,
            "<g transform='translate(500 1000) scale({scale})' fill='none' stroke-width='0.25' stroke-linejoin='round' stroke-linecap='round'>\n<polyline stroke='hsl(0,70%,48%)' points='"
        )?;
        self.print_stretches(out)?;
        out.write_str("'/>\n</g>\n")?;
        Ok(())
    }

    // Prints the index of each cell in its corner, at low orders.
    fn print_indices(self, out: &mut Output) -> Outcome {
        if WRITTEN < self.order {
            return Ok(());
        }
        out.write_str(
            "<g font-size='90' stroke='white' stroke-width='20' stroke-linejoin='round' paint-order='stroke'>\n",
        )?;
        for index in 0..self.cells() {
            let Place { x, y } = self.drawn(index).corner;
            let left = x.saturating_add(20);
            let base = y.saturating_add(100);
            writeln!(out, "<text x='{left}' y='{base}'>{index}</text>")?;
        }
        out.write_str("</g>\n")?;
        Ok(())
    }

    // Prints the numbers of columns and lines, and the frame.
    fn print_frame(self, out: &mut Output) -> Outcome {
        let cells = Cells {
            x: CORNER.x,
            y: CORNER.y,
            columns: self.side(),
            lines: self.side(),
            across: self.taken(1),
            down: self.taken(1),
        };
        writeln!(
            out,
            "{cells}<path stroke='#666' stroke-width='10' fill='none' d='M500 1000h7680v7680h-7680z'/>"
        )?;
        Ok(())
    }

    // Prints marks on the first and the last cell.
    fn print_ends(self, out: &mut Output) -> Outcome {
        let all = Square {
            corner: CORNER,
            size: SIDE,
        };
        let last = (self.order != 0).then_some(self.drawn(self.last()).middle());
        let ends = Ends {
            first: self.drawn(0).middle(),
            last,
            middle: all.middle(),
        };
        write!(out, "<g fill='none'>\n{ends}</g>\n")?;
        Ok(())
    }

    // Prints what the picture is.
    fn print_title(self, out: &mut Output) -> Outcome {
        let order = self.order;
        let side = self.side();
        let count = Count {
            n: side,
            name: "cell",
        };
        let last = self.last();
        writeln!(
            out,
            "<text x='50' y='34' font-size='17' font-weight='bold'>the Hilbert curve of order {order}: {side} by {count}</text>"
        )?;
        writeln!(
            out,
            "<text x='50' y='56' fill='#444'>indices 0 to {last}, in hues from red round to magenta</text>"
        )?;
        Ok(())
    }

    fn print(self, rt: HostRuntime) -> Outcome {
        let mut out = Output::of(rt);
        let head = Head {
            width: 840,
            height: 890,
        };
        write!(out, "{head}")?;
        self.print_title(&mut out)?;
        out.write_str("<g transform='scale(.1)'>\n")?;
        self.print_frame(&mut out)?;
        self.print_line(&mut out)?;
        self.print_indices(&mut out)?;
        self.print_ends(&mut out)?;
        out.write_str("</g>\n</svg>\n")?;
        out.finish()
    }
}

pub(crate) fn command(rt: HostRuntime, words: &Words) -> Outcome {
    match words.number(3) {
        Some(order) if order <= TOP => Curve { order }.print(rt),
        _ => Err(failed(
            b"curve",
            "wanted an order of at most 8, which has 65,536 cells",
        )),
    }
}
