// Points out of the lines of a list.
use console::faults::{Faults, Wrong};
use console::source::Line;
use console::starts::Starts;
use divisions::weighed::read_weight;
use knot_files::layout::Layout;
use rules::Refusal;
use whole_files::numbers::{Limit, Numbers, read_line};

// The index and the weight of each point, which the library takes each as a slice, and where its line starts. They are large: lend them.
#[derive(Drop)]
pub(crate) struct Points<'a> {
    pub layout: Layout<'a>,
    pub indices: Numbers,
    pub weights: Numbers,
    pub starts: Starts,
}

impl<'a> Points<'a> {
    pub(crate) fn none(layout: Layout<'a>) -> Points<'a> {
        Points {
            layout,
            indices: Numbers::new(),
            weights: Numbers::new(),
            starts: Starts::none(),
        }
    }

    // Reads the points behind the header, with their weights out of a column, while there is room for faults. What is wrong is kept.
    pub(crate) fn read(&mut self, column: Option<usize>, faults: &mut Faults) {
        let layout = self.layout;
        for line in layout.lines() {
            if faults.is_full() {
                break;
            }
            self.read_line(line, column, faults);
        }
        if self.indices.is_empty() {
            faults.note_at(Wrong::Nothing, layout.source.text.len());
        }
    }

    // Reads a line as a point, where it has a field.
    fn read_line(&mut self, line: Line<'a>, column: Option<usize>, faults: &mut Faults) {
        // Any index is taken: a list need not say its order.
        let limit = Limit::none(Refusal::Index);
        if read_line(line, limit, Some(1), &mut self.indices, faults) == 0 {
            return;
        }
        if self.starts.keep(line) {
            read_weight(line, column, &mut self.weights, faults);
        }
    }
}
