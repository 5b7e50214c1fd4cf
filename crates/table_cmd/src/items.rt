//! Items in an order, seen as their list.

ghost use Rattle.std.specs.Prelude.{◌≡◌};

use crate::part::CommandPart;
use std::alloc::AllocError;
use std::marker::Model;

/// Items in an order.
#[derive(Debug, Drop)]
pub struct Items<T: Drop> {
    items: Vec<T>,
}

impl<T: Drop> Model for Items<T> {
    ghost use Rattle.std.specs.Prelude.{List};

    ghost Value = { List T };

    ghost view = { λ i. i.items.items };
}

impl<T: Drop> Items<T> {
    /// These items, in this order. O(1).
    pub fn new(items: Vec<T>) -> Items<T>
        ensures { result ≡ items.items }
    {
        Items { items }
    }

    /// The items, as long as they are borrowed. O(1).
    pub fn as_slice(&self) -> &[T]
        ensures { result.now ≡ self.now }
    {
        &self.items
    }
}

impl<T: CommandPart + Drop> CommandPart for Items<T> {
    fn copy(&self) -> Result<Items<T>, AllocError> {
        let mut items = Vec::with_capacity(*self.items.allocator(), self.items.len())?;
        for item in &self.items {
            items.push(item.copy()?)?;
        }
        Ok(Items::new(items))
    }

    fn is_same(&self, other: &Items<T>) -> bool {
        if self.items.len() != other.items.len() {
            return false;
        }
        for (place, item) in self.items.iter().enumerate() {
            if !item.is_same(&other.items[place]) {
                return false;
            }
        }
        true
    }
}
