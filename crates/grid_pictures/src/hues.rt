// The colours of parts: each has the first that no neighbour has which begins before it, and the last where the others are all taken.
use crate::drawn::Drawn;

const COLOURS: [&str; 12] = [
    "hsl(212,75%,52%)",
    "hsl(28,90%,52%)",
    "hsl(135,55%,42%)",
    "hsl(325,65%,58%)",
    "hsl(50,90%,46%)",
    "hsl(182,70%,40%)",
    "hsl(0,70%,50%)",
    "hsl(268,60%,58%)",
    "hsl(85,65%,42%)",
    "hsl(240,60%,42%)",
    "hsl(295,60%,40%)",
    "hsl(20,45%,32%)",
];

// The place of each part's colour, once it has one.
#[derive(Drop)]
pub struct Hues {
    hues: [Option<usize>; 4096],
}

impl Hues {
    // The colours of all parts, given in the order of their first cells.
    pub(crate) fn of(drawn: Drawn<'_>) -> Hues {
        let mut hues = Hues { hues: [None; 4096] };
        for (cell, id) in drawn.ids.iter().enumerate() {
            if hues.hue(*id).is_none() {
                let taken = hues.around_box(drawn, cell, *id);
                hues.give(*id, taken);
            }
        }
        hues
    }

    pub(crate) fn colour(&self, id: u32) -> &'static str {
        let colour = COLOURS.get(self.hue(id).unwrap_or(11));
        colour.copied().unwrap_or("")
    }

    fn hue(&self, id: u32) -> Option<usize> {
        self.hues.get(id as usize).copied().flatten()
    }

    // Gives a part the first colour that is not taken.
    fn give(&mut self, id: u32, taken: [bool; 11]) {
        let free = taken.iter().position(|is_taken| !*is_taken);
        if let Some(hue) = self.hues.get_mut(id as usize) {
            *hue = Some(free.unwrap_or(11));
        }
    }

    // Which colours the parts around a box have, of those before the last one. The place is carried on from line to line, since step_by goes over
    // all that lies between.
    fn around_box(&self, drawn: Drawn<'_>, first: usize, id: u32) -> [bool; 11] {
        let shape = drawn.plan.shape;
        let spot = shape.spot(first);
        let across = drawn.run(first, 1, shape.width - spot.x);
        let down = drawn.run(first, shape.width, shape.height - spot.y);
        let through = drawn.run(first, shape.layer(), shape.layers - spot.z);
        let cells = drawn.ids.len();
        let mut taken = [false; 11];
        let mut layer = first;
        for _ in 0..through {
            let mut line = layer;
            for _ in 0..down {
                for cell in (line..cells).take(across) {
                    self.mark_around(drawn, cell, id, &mut taken);
                }
                line = line.saturating_add(shape.width);
            }
            layer = layer.saturating_add(shape.layer());
        }
        taken
    }

    // Marks the colours of the other parts around a cell. The last cell of a line counts as a neighbour of the first one of the next, which
    // does no harm.
    fn mark_around(&self, drawn: Drawn<'_>, cell: usize, id: u32, taken: &mut [bool; 11]) {
        let shape = drawn.plan.shape;
        for apart in [1, shape.width, shape.layer()] {
            let before = cell.checked_sub(apart);
            let behind = cell.checked_add(apart);
            for neighbour in [before, behind].into_iter().flatten() {
                let other = drawn.ids.get(neighbour).copied().unwrap_or(id);
                if other != id
                    && let Some(hue) = self.hue(other)
                    && let Some(is_taken) = taken.get_mut(hue)
                {
                    *is_taken = true;
                }
            }
        }
    }
}
