//! A change of an order in place.

use crate::order::Order;
use modify_ops::Edit;
use std::mem::swap;

/// Gives an order another number; undone, it gives the old one back.
#[derive(Drop)]
pub struct Renumber {
    /// The other number.
    pub id: u64,
}

impl Edit<Order> for Renumber {
    ghost applied = { λ edit order. record order { id = edit.id } };

    ghost after_apply = { λ edit order. record edit { id = order.id } };

    ghost undone = { λ edit order. record order { id = edit.id } };

    ghost after_undo = { λ edit order. record edit { id = order.id } };

    fn apply(&mut self, order: &mut Order) {
        swap(&mut self.id, &mut order.id);
    }

    fn undo(&mut self, order: &mut Order) {
        self.apply(order);
    }
}
