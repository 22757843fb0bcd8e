// The order of a list, and whether it is in 3D.
ghost use Rattle.std.specs.Prelude.{◌≤◌};

#[derive(Clone, Copy)]
pub(crate) struct Setting {
    pub order: u32,
    pub solid: bool,
    ghost low: { order ≤ 32 },
}

impl Setting {
    // The setting, where the order is no higher than the highest.
    pub(crate) fn of(order: u32, solid: bool) -> Option<Setting> {
        let top = if solid {
            rules::TOP_ORDER_3D
        } else {
            rules::TOP_ORDER_2D
        };
        if order <= top {
            Some(Setting { order, solid })
        } else {
            None
        }
    }

    pub(crate) fn dimension(self) -> usize {
        if self.solid { 3 } else { 2 }
    }

    // The largest index. At order 32 in 2D the number of cells has no bit left, and one less is the largest u64.
    pub(crate) fn last_index(self) -> u64 {
        let square = (1u64 << self.order) << self.order;
        let cells = if self.solid {
            square << self.order
        } else {
            square
        };
        cells.wrapping_sub(1)
    }
}
