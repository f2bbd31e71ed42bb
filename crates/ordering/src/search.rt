// The first of several values, under any strict total order.
ghost use Rattle.std.specs.Prelude.{◌≡◌, if◌then◌else◌};
ghost use Rattle.ordering.specs.First.{first, GoesFirst};

use crate::order::Order;

// The first of two values that stand beside their places: the next, if it goes before the best so far, and else the best so far.
fn first_of_two<'a, T, O: Order<T>>(
    order: &O,
    best: (usize, &'a T),
    next: (usize, &'a T),
) -> (usize, &'a T)
    ensures { result ≡ (if O.before order.now next.entry.1.now best.entry.1.now then next.entry else best.entry) }
{
    if order.goes_before(next.1, best.1) {
        next
    } else {
        best
    }
}

// The place of the value that goes before all others, and none where there are no values. Of equal values it is the lowest place.
pub fn first_in_order<T, O: Order<T>>(order: &O, values: &[T]) -> Option<usize>
    ensures place { result ≡ first (O.before order.now) values.now }
    ensures law { GoesFirst (O.before order.now) values.now result }
{
    values
        .iter()
        .enumerate()
        .reduce(|best, next| first_of_two(order, best, next))
        .map(|(place, _)| place)
}
