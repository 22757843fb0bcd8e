// The range of values that a cell stands for.
use printing::Millionths;
use rules::Extent;
use std::fmt;

// A cell of an axis that goes from low to high.
#[derive(Clone, Copy)]
pub(crate) struct Range {
    pub side: Extent,
    pub order: u32,
    pub cell: u64,
}

impl Range {
    // Where a cell of the axis begins.
    fn start_of(self, cell: u64) -> f64 {
        let Extent { low, high } = self.side;
        let cells = std::num::nearest_u64_to_f64(1u64.wrapping_shl(self.order));
        low + (high - low) / cells * std::num::nearest_u64_to_f64(cell)
    }
}

// Where the cell begins and where the next one does, to six places behind the point.
impl fmt::Display for Range {
    fn fmt<W: fmt::Write>(&self, f: &mut fmt::Formatter<W>) -> fmt::Result {
        let low = Millionths(self.start_of(self.cell));
        let high = Millionths(self.start_of(self.cell.saturating_add(1)));
        write!(f, "{low},{high}")
    }
}
