// The panels: each layer that is shown with its number, where there are several, and the numbers of its cells.
use crate::plan::Plan;
use drawing::ticks::Cells;
use std::fmt;

#[derive(Clone, Copy)]
pub struct Panels(pub Plan);

impl fmt::Display for Panels {
    fn fmt<W: fmt::Write>(&self, f: &mut fmt::Formatter<W>) -> fmt::Result {
        let plan = self.0;
        let shape = plan.shape;
        for panel in 0..plan.panels {
            let frame = plan.frame(panel);
            if plan.panels != 1 {
                let x = frame.left;
                let y = frame.top.saturating_sub(170);
                let layer = panel * plan.every;
                writeln!(
                    f,
                    "<text font-size='120' font-weight='bold' x='{x}' y='{y}'>z {layer}</text>"
                )?;
            }
            let cells = Cells {
                x: frame.left as u64,
                y: frame.top as u64,
                columns: shape.width as u64,
                lines: shape.height as u64,
                across: plan.across as u64,
                down: plan.down as u64,
            };
            writeln!(f, "{cells}{frame} stroke='#444' stroke-width='12'/>")?;
        }
        Ok(())
    }
}
