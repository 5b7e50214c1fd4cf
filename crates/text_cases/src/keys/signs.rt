//! Orders as signs.

use std::cmp::Ordering;

/// The sign of an order.
pub(crate) fn sign_of(order: Ordering) -> char {
    match order {
        Ordering::Less => '<',
        Ordering::Equal => '=',
        Ordering::Greater => '>',
    }
}

/// The sign of an order, if the other ways to ask agree.
pub(crate) fn agreed(order: Ordering, do_agree: bool) -> char {
    if do_agree { sign_of(order) } else { '!' }
}
