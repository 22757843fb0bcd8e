// A coordinate out of a word.
use console::faults::Wrong;
use decimals::{NotDecimal, decimal_of};
use knot_columns::spelled::not_finite;
use rules::Refusal;

// A word's value as a coordinate, or what is wrong with it.
pub(crate) fn value_of(word: &[u8]) -> Result<f64, Wrong> {
    if word.is_empty() {
        return Err(Wrong::Empty);
    }
    let value = decimal_of(word).map_err(|why| wrong_of(word, why))?;
    if rules::TOP_VALUE < value.abs() {
        return Err(Wrong::Refused(Refusal::Value));
    }
    Ok(value)
}

// What is wrong with a word that is no decimal.
fn wrong_of(word: &[u8], why: NotDecimal) -> Wrong {
    match why {
        NotDecimal::Long(_) => Wrong::Long,
        NotDecimal::Deep(_) => Wrong::Deep,
        NotDecimal::High(_) => Wrong::High,
        _ if not_finite(word) => Wrong::Refused(Refusal::Value),
        _ => Wrong::NoDecimal,
    }
}
