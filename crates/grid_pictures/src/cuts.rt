// The cuts: lines along the boxes' left and upper sides, for each level thicker the earlier it was made; and dashes in boxes that a cut across z
// parts from the layer that is shown before.
ghost use Rattle.std.specs.Prelude.{◌≤◌};

use crate::drawn::{Drawn, Part};
use crate::plan::Plan;
use std::fmt;

// The cuts of so many levels.
#[derive(Clone, Copy)]
pub struct Cuts<'a> {
    pub drawn: Drawn<'a>,
    pub depth: u32,
}

impl fmt::Display for Cuts<'_> {
    fn fmt<W: fmt::Write>(&self, f: &mut fmt::Formatter<W>) -> fmt::Result {
        let drawn = self.drawn;
        let unit = unit(drawn.plan, self.depth);
        f.write_str("<g fill='none' stroke='black' stroke-linecap='square'>\n")?;
        // the last level first, so that earlier ones lie above
        for below in 0..self.depth {
            let width = unit * (below as usize + 2);
            let level = Level { drawn, below };
            writeln!(f, "<path stroke-width='{width}' d='{level}'/>")?;
        }
        let through = Through(drawn);
        write!(
            f,
            "<path stroke-width='10' stroke-linecap='butt' stroke-dasharray='40 25' d='M0 0{through}'/>\n</g>\n"
        )
    }
}

// How much the lines of a level are thicker than those of the next: less where parts are small.
fn unit(plan: Plan, depth: u32) -> usize
    ensures { result ≤ 6 }
{
    let frame = plan.frame(0);
    let side = frame.width.min(frame.height);
    (side.checked_shr(depth / 2).unwrap_or(0) / 36).clamp(1, 6)
}

// The lines of the cuts that are so many levels above the last.
#[derive(Clone, Copy)]
struct Level<'a> {
    drawn: Drawn<'a>,
    below: u32,
}

impl Level<'_> {
    // Whether a part and the cell so many before its first one are parted by a cut of this level: the paths of their ids go on alike up to there.
    fn parts(self, part: Part, before: usize) -> bool {
        let other = self.drawn.id_before(part.cell, before);
        other.is_some_and(|id| (id ^ part.id).checked_ilog2() == Some(self.below))
    }
}

impl fmt::Display for Level<'_> {
    fn fmt<W: fmt::Write>(&self, f: &mut fmt::Formatter<W>) -> fmt::Result {
        let drawn = self.drawn;
        for part in (0..drawn.ids.len()).filter_map(|cell| drawn.part_at(cell)) {
            let area = part.area;
            let left = area.left;
            let top = area.top;
            if part.spot.x != 0 && self.parts(part, 1) {
                let height = area.height;
                write!(f, "M{left} {top}v{height}")?;
            }
            if part.spot.y != 0 && self.parts(part, drawn.plan.shape.width) {
                let width = area.width;
                write!(f, "M{left} {top}h{width}")?;
            }
        }
        Ok(())
    }
}

// A rectangle in each box that a cut across z parts from the layer that is shown before, where it is large enough.
#[derive(Clone, Copy)]
struct Through<'a>(Drawn<'a>);

impl fmt::Display for Through<'_> {
    fn fmt<W: fmt::Write>(&self, f: &mut fmt::Formatter<W>) -> fmt::Result {
        let drawn = self.0;
        let before = drawn.plan.shape.layer() * drawn.plan.every;
        for part in (0..drawn.ids.len()).filter_map(|cell| drawn.part_at(cell)) {
            let other = drawn.id_before(part.cell, before);
            let is_parted = other.is_some_and(|id| id != part.id);
            let area = part.area;
            if is_parted && 100 <= area.width && 100 <= area.height {
                let left = area.left + 30;
                let top = area.top + 30;
                let width = area.width - 60;
                let height = area.height - 60;
                write!(f, "M{left} {top}h{width}v{height}h-{width}z")?;
            }
        }
        Ok(())
    }
}
