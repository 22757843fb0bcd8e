// An f64 as the number of its bits, and back. A NaN has one number: std's `to_bits` and `from_bits` want none.

// The bits of a number that is none.
pub(crate) const NAN: u64 = 0x7ff8_0000_0000_0000;

// The bits of an infinite number, and of one below nought.
pub(crate) const INFINITE: u64 = 0x7ff0_0000_0000_0000;

pub(crate) const NEGATIVE: u64 = 0xfff0_0000_0000_0000;

// The bits of an f64.
pub(crate) fn bits(value: f64) -> u64 {
    if value.is_nan() {
        return NAN;
    }
    value.to_bits()
}

// The f64 of some bits.
pub(crate) fn float(bits: u64) -> f64 {
    match bits {
        INFINITE => f64::INFINITY,
        NEGATIVE => f64::NEG_INFINITY,
        _ if bits % 0x8000_0000_0000_0000 / 0x0010_0000_0000_0000 == 2047 => f64::NAN,
        _ => f64::from_bits(bits),
    }
}
