// Calls of the curve: deposit X Y, encode_2d X Y [ORDER], encode_3d X Y Z [ORDER], decode_2d INDEX [ORDER] and decode_3d INDEX [ORDER];
// without an order, the call that needs none.
use crate::answer::Answer;
use crate::calls::Request;
use crate::lent::small;
use rules::Refusal;

pub(crate) fn call(request: Request<'_>, answer: &mut Answer<'_>) {
    let [numbers] = request.parts else {
        return;
    };
    match (request.name, *numbers) {
        (b"deposit", [x, y]) => answer.number(curve::deposit(*x, *y)),
        (b"encode_2d", [x, y]) => index(curve::encode_2d_default(*x, *y), answer),
        (b"encode_2d", [x, y, order]) => index(curve::encode_2d(*x, *y, small(*order)), answer),
        (b"encode_3d", [x, y, z]) => index(curve::encode_3d_default(*x, *y, *z), answer),
        (b"encode_3d", [x, y, z, order]) => {
            index(curve::encode_3d(*x, *y, *z, small(*order)), answer)
        }
        (b"decode_2d", [index]) => answer.values(curve::decode_2d_default(*index)),
        (b"decode_2d", [index, order]) => answer.values(curve::decode_2d(*index, small(*order))),
        (b"decode_3d", [index]) => answer.values(curve::decode_3d_default(*index)),
        (b"decode_3d", [index, order]) => answer.values(curve::decode_3d(*index, small(*order))),
        _ => {}
    }
}

// Answers by the number and the index.
fn index(index: Result<u64, Refusal>, answer: &mut Answer<'_>) {
    answer.values(index.map(|index| [index]));
}
