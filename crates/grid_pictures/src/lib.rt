// A picture of a halved grid, as SVG. Each part is a box in a colour of its own among its neighbours, with its id and weight where they fit;
// cells are darker where they weigh more; the cuts are lines, thicker the earlier they were made. Layers stand beside each other.
//
// The whole fits 1,200 by 900 pixels. Where cells are small, weights are shown in groups of cells, and of many layers some; the picture says so.
// Every function is proved safe, and to end; what is written no contract can say, and the gate compares it.
#![tactic(auto)]

mod boxes;
mod cuts;
mod drawn;
mod hues;
mod labels;
mod panels;
mod plan;
mod shades;
mod titles;

use boxes::Boxes;
use cuts::Cuts;
use drawn::Drawn;
use grid_files::halved::Halved;
use hues::Hues;
use labels::Labels;
use messages::Outcome;
use panels::Panels;
use plan::Plan;
use printing::Output;
use shades::Shades;
use std::fmt::Write;
use std::rt::HostRuntime;
pub use titles::Files;
use titles::Titles;

// Draws a grid out of files, halved.
pub fn draw(rt: HostRuntime, files: Files<'_>, halved: Halved<'_>) -> Outcome
    ensures { Unit {0} }
{
    let mut out = Output::of(rt);
    let plan = Plan::of(halved.shape);
    let drawn = Drawn {
        plan,
        weights: halved.weights,
        ids: halved.ids,
    };
    let sums = halved.parts();
    let darkest = drawn.darkest();
    let titles = Titles {
        files,
        plan,
        wish: halved.wish,
        sums: &sums,
        darkest,
    };
    let panels = Panels(plan);
    write!(out, "{titles}<g transform='scale(.1)'>\n{panels}")?;
    let hues = Hues::of(drawn);
    let boxes = Boxes { drawn, hues: &hues };
    let shades = Shades { drawn, darkest };
    let cuts = Cuts {
        drawn,
        depth: halved.wish.depth,
    };
    let labels = Labels { drawn, sums: &sums };
    write!(out, "{boxes}{shades}{cuts}{labels}</g>\n</svg>\n")?;
    out.finish()
}
