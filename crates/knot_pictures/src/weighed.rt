// The weights that are asked for.
use crate::asked;
use console::faults::Faults;
use divisions::weighed::{read_weight, weights_column};
use knot_rows::knots::Knots;
use messages::Outcome;
use whole_files::numbers::Numbers;
use words::Words;

// Reads the weight of each knot, while there is room for faults, or says what is wrong.
pub(crate) fn read(words: &Words, knots: &Knots<'_>, weights: &mut Numbers) -> Outcome {
    let source = knots.layout.source;
    let column = weights_column(knots.layout, asked::weights(words))?;
    let mut faults = Faults::none();
    for start in knots.starts() {
        if faults.is_full() {
            break;
        }
        let line = source.line(*start as usize);
        read_weight(line, column, weights, &mut faults);
    }
    faults.say_all(source)
}
