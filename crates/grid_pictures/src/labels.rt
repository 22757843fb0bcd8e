// The id and the weight of each part in its box, or the id alone, where they fit.
ghost use Rattle.std.specs.Prelude.{◌≤◌};

use crate::drawn::Drawn;
use grid_files::sums::Sums;
use std::fmt;

#[derive(Clone, Copy)]
pub struct Labels<'a> {
    pub drawn: Drawn<'a>,
    pub sums: &'a Sums,
}

impl fmt::Display for Labels<'_> {
    fn fmt<W: fmt::Write>(&self, f: &mut fmt::Formatter<W>) -> fmt::Result {
        let drawn = self.drawn;
        f.write_str(
            "<g font-size='120' text-anchor='middle' stroke='white' stroke-width='32' stroke-linejoin='round' paint-order='stroke' pointer-events='none'>\n",
        )?;
        for part in (0..drawn.ids.len()).filter_map(|cell| drawn.part_at(cell)) {
            let area = part.area;
            let id = part.id;
            let weight = self.sums.of(id as usize);
            let narrow = taken(u64::from(id)) + 80;
            if area.height < 140 || area.width < narrow {
                continue;
            }
            let x = area.left + area.width / 2;
            let y = area.top + area.height / 2 + 42;
            write!(f, "<text x='{x}' y='{y}'>{id}")?;
            if narrow + taken(weight) + 75 <= area.width {
                write!(f, ": {weight}")?;
            }
            f.write_str("</text>\n")?;
        }
        f.write_str("</g>\n")
    }
}

// How much the digits of a number take across.
fn taken(n: u64) -> usize
    ensures { result ≤ 4294967296000 }
{
    75 * (n.checked_ilog10().unwrap_or(0) as usize + 1)
}
