// Calls of an axis: a cell of a value, on an axis that is made first or on a record that is made up, and the low and high of points.
// A float comes as its bits.
use crate::answer::Answer;
use crate::calls::Request;
use crate::floats::{bits, float};
use crate::lent::small;
use rules::{Axis, Refusal};

// cell LOW HIGH [ORDER] VALUE, cell_flat LOW HIGH ORDER VALUE, cell_sloped LOW HIGH ORDER FACTOR VALUE and extent_of VALUE VALUE
pub(crate) fn call(request: Request<'_>, answer: &mut Answer<'_>) {
    let [numbers] = request.parts else {
        return;
    };
    match (request.name, *numbers) {
        (b"cell", [low, high, value]) => {
            let axis = axis::make_axis_default(float(*low), float(*high));
            cell(axis, *value, answer);
        }
        (b"cell", [low, high, order, value]) => {
            let axis = axis::make_axis(float(*low), float(*high), small(*order));
            cell(axis, *value, answer);
        }
        (b"cell_flat", [low, high, order, value]) => {
            let axis = Axis::Flat {
                low: float(*low),
                high: float(*high),
                order: small(*order),
            };
            cell(Ok(axis), *value, answer);
        }
        (b"cell_sloped", [low, high, order, factor, value]) => {
            let axis = Axis::Sloped {
                low: float(*low),
                high: float(*high),
                order: small(*order),
                factor: float(*factor),
            };
            cell(Ok(axis), *value, answer);
        }
        (b"extent_of", [first, second]) => {
            let extent = axis::extent_of(&[float(*first), float(*second)]);
            answer.number(bits(extent.low));
            answer.number(bits(extent.high));
        }
        _ => {}
    }
}

// Answers by the number and the cell of a value.
fn cell(axis: Result<Axis, Refusal>, value: u64, answer: &mut Answer<'_>) {
    let cell = axis.and_then(|axis| axis::cell(axis, float(value)));
    answer.values(cell.map(|cell| [cell]));
}
