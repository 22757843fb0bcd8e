// The weights: over the boxes of the parts, white squares of a cell or a group of cells, the thinner the more weight there is.
use crate::drawn::{Drawn, Square};
use printing::Thousandths;
use std::fmt;

// The squares, and the most that one shows.
#[derive(Clone, Copy)]
pub struct Shades<'a> {
    pub drawn: Drawn<'a>,
    pub darkest: u64,
}

impl fmt::Display for Shades<'_> {
    fn fmt<W: fmt::Write>(&self, f: &mut fmt::Formatter<W>) -> fmt::Result {
        let drawn = self.drawn;
        let single = drawn.plan.is_single();
        f.write_str("<g fill='white'>\n")?;
        for square in (0..drawn.ids.len()).filter_map(|cell| drawn.square_at(cell)) {
            let Square { id, mean, area } = square;
            let white = white(mean, self.darkest);
            write!(f, "{area} opacity='{white}'><title>")?;
            if single {
                write!(f, "weight {mean}, part {id}")?;
            } else {
                write!(f, "mean {mean}")?;
            }
            f.write_str("</title></rect>\n")?;
        }
        f.write_str("</g>\n")
    }
}

// How much white lies over a square: from 0.7 for weight 0 to none for the darkest.
fn white(weight: u64, darkest: u64) -> Thousandths {
    if weight == 0 {
        return Thousandths(700);
    }
    if darkest <= weight {
        return Thousandths(0);
    }
    Thousandths((darkest - weight).saturating_mul(700) / darkest)
}
