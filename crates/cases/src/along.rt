// The call that gives points parts: `n / indices / weights / parts / order`, where the last two parts are what the slices hold
// before.
use crate::answer::Answer;
use crate::calls::Request;
use crate::lent::{Lent, MOST, small};

pub(crate) fn call(request: Request<'_>, answer: &mut Answer<'_>) {
    let [[n], indices, weights, parts, order] = request.parts else {
        return;
    };
    let mut parts_room = [0u32; MOST];
    let mut order_room = [0u32; MOST];
    let parts = Lent::of(parts, &mut parts_room, small);
    let order = Lent::of(order, &mut order_room, small);
    let refused = parts::parts_along(small(*n), indices, weights, parts.held, order.held);
    answer.refusal(refused);
    parts.put(answer);
    order.put(answer);
}
