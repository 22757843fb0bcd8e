// A whole number in parts.
ghost use Rattle.fives.specs.Parted.{Parted};

// (high * second + middle) * first + low, each part below its base.
#[derive(Clone, Copy, Debug, PartialEq, Eq)]
pub struct Parts {
    pub(crate) first: u64,
    pub(crate) second: u64,
    pub(crate) high: u64,
    pub(crate) middle: u64,
    pub(crate) low: u64,
    ghost parted: { Parted first second high middle low },
}
