// The parts as boxes in their colours.
use crate::drawn::Drawn;
use crate::hues::Hues;
use std::fmt;

#[derive(Clone, Copy)]
pub struct Boxes<'a> {
    pub drawn: Drawn<'a>,
    pub hues: &'a Hues,
}

impl fmt::Display for Boxes<'_> {
    fn fmt<W: fmt::Write>(&self, f: &mut fmt::Formatter<W>) -> fmt::Result {
        let drawn = self.drawn;
        for part in (0..drawn.ids.len()).filter_map(|cell| drawn.part_at(cell)) {
            let area = part.area;
            let colour = self.hues.colour(part.id);
            write!(f, "{area} fill='{colour}'/>\n")?;
        }
        Ok(())
    }
}
