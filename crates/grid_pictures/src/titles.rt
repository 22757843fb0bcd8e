// What the picture is, above it: the file, the sides, the depth, what the parts weigh, and what is shown.
use crate::plan::Plan;
use drawing::titles::{FileName, Head};
use grid_files::halved::Wish;
use grid_files::shape::Shape;
use grid_files::sums::Sums;
use std::fmt;

// Whose picture it is, how it is laid out and halved, what its parts weigh, and the most that a square of weights shows.
#[derive(Clone, Copy)]
pub struct Titles<'a> {
    pub files: Files<'a>,
    pub plan: Plan,
    pub wish: Wish,
    pub sums: &'a Sums,
    pub darkest: u64,
}

impl fmt::Display for Titles<'_> {
    fn fmt<W: fmt::Write>(&self, f: &mut fmt::Formatter<W>) -> fmt::Result {
        let plan = self.plan;
        let head = Head {
            width: plan.pixels_across() as u64,
            height: plan.pixels_down() as u64,
        };
        let files = self.files;
        let sides = Sides(plan.shape);
        let depth = self.wish.depth;
        let weights = Weights {
            sums: self.sums,
            parts: self.wish.nodes() + 1,
        };
        let squares = Squares(plan);
        let darkest = self.darkest;
        let panels = PanelsSaid(plan);
        write!(
            f,
            "{head}<text x='20' y='30' font-size='17' font-weight='bold'>{files}: {sides} cells, depth {depth}</text>\n"
        )?;
        write!(f, "<text x='20' y='52'>{weights}</text>\n")?;
        write!(
            f,
            "<text x='20' y='71' fill='#444'>in a part its id: weight; shade: the {squares}, darkest {darkest}</text>\n{panels}"
        )
    }
}

// The file of a grid, and that of the trace of the night after which it is drawn, where there is one.
#[derive(Clone, Copy)]
pub struct Files<'a> {
    pub grid: &'a [u8],
    pub trace: Option<&'a [u8]>,
}

// Their names.
impl fmt::Display for Files<'_> {
    fn fmt<W: fmt::Write>(&self, f: &mut fmt::Formatter<W>) -> fmt::Result {
        let path = self.grid;
        match self.trace {
            None => {
                let grid = FileName { path, most: 40 };
                write!(f, "{grid}")
            }
            Some(trace) => {
                let grid = FileName { path, most: 24 };
                let night = FileName {
                    path: trace,
                    most: 24,
                };
                write!(f, "{grid} after {night}")
            }
        }
    }
}

// The sides of a grid.
#[derive(Clone, Copy)]
struct Sides(Shape);

impl fmt::Display for Sides {
    fn fmt<W: fmt::Write>(&self, f: &mut fmt::Formatter<W>) -> fmt::Result {
        let width = self.0.width;
        let height = self.0.height;
        match self.0.layers {
            1 => write!(f, "{width} by {height}"),
            layers => write!(f, "{width} by {height} by {layers}"),
        }
    }
}

// What all of so many parts weigh, and the heaviest and the lightest of them.
#[derive(Clone, Copy)]
struct Weights<'a> {
    sums: &'a Sums,
    parts: usize,
}

impl fmt::Display for Weights<'_> {
    fn fmt<W: fmt::Write>(&self, f: &mut fmt::Formatter<W>) -> fmt::Result {
        let all = self.sums.total();
        if all == 0 {
            return f.write_str("all weights are 0");
        }
        let (heavy, most) = self.sums.heaviest();
        let (light, least) = self.sums.lightest(self.parts);
        write!(
            f,
            "T {all}; heaviest part {heavy}: {most}; lightest part {light}: {least}"
        )
    }
}

// Whose weight a square shows.
#[derive(Clone, Copy)]
struct Squares(Plan);

impl fmt::Display for Squares {
    fn fmt<W: fmt::Write>(&self, f: &mut fmt::Formatter<W>) -> fmt::Result {
        if self.0.is_single() {
            return f.write_str("weight of a cell");
        }
        let across = self.0.group_across;
        let down = self.0.group_down;
        write!(
            f,
            "mean weight of {across} by {down} cells, too small alone"
        )
    }
}

// What the panels are, where there are several layers.
#[derive(Clone, Copy)]
struct PanelsSaid(Plan);

impl fmt::Display for PanelsSaid {
    fn fmt<W: fmt::Write>(&self, f: &mut fmt::Formatter<W>) -> fmt::Result {
        if self.0.shape.is_flat() {
            return Ok(());
        }
        f.write_str(
            "<text x='20' y='88' fill='#444'>dashed: a cut across z parts it from the layer shown before",
        )?;
        let every = self.0.every;
        if every != 1 {
            write!(f, "; one layer of each {every} is shown")?;
        }
        f.write_str("</text>\n")
    }
}
