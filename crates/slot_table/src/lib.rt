//! Slots numbered from 0, each free or taken. The least free one is found by a heap.
//!
//! The heap always has room to note each slot once more, so a release takes no memory.
#![tactic(auto)]

mod restore;

ghost use Rattle.std.specs.Prelude.{◌≡◌, ◌≢◌, ◌<◌, ◌≤◌, [], None, Some, OnOk, OnErr};
ghost use Rattle.slot_table.specs.Slots.{HasRoom, first_free, item_at, with_item};

pub use restore::put;
use std::alloc::{AllocError, Global};
use std::cmp::Reverse;
use std::collections::BinaryHeap;
use std::marker::Model;

/// What lies in each slot, and which slots are free.
#[derive(Drop)]
pub struct SlotTable<T: Copy + Drop> {
    items: Vec<Option<T>>,
    free: BinaryHeap<Reverse<usize>>,
}

impl<T: Copy + Drop> Model for SlotTable<T> {
    ghost use Rattle.slot_table.specs.Slots.{Slots};

    ghost Value = { Slots T };

    ghost use Rattle.std.specs.Prelude.{min, vec_capacity};
    ghost use Rattle.std.specs.BinaryHeap.{heap_items, heap_capacity};
    ghost use Rattle.slot_table.specs.Noted.{IsNoted};

    ghost view = { λ t. record { items = t.items.items; capacity = min (vec_capacity t.items) (heap_capacity t.free) } };

    ghost invariant = { λ t. IsNoted t.items.items (heap_items t.free) (heap_capacity t.free) };
}

impl<T: Copy + Drop> SlotTable<T> {
    /// A table whose slots are all free, which allocates nothing.
    pub fn new(alloc: Global) -> Self
        ensures { result.items ≡ [] }
    {
        SlotTable {
            items: Vec::new(alloc),
            free: BinaryHeap::new(alloc),
        }
    }

    /// What lies in the slot, or `None` where it is free. O(1).
    pub fn get(&self, slot: usize) -> Option<T>
        ensures { result ≡ item_at self.now.items slot }
    {
        match self.items.get(slot) {
            Some(item) => *item,
            None => None,
        }
    }

    /// The least free slot. O(1).
    pub fn least_free(&self) -> usize
        ensures { result ≡ first_free self.now.items }
    {
        match self.free.peek() {
            Some(least) => least.0,
            None => self.items.len(),
        }
    }

    /// Makes room to take one more slot. Where memory is refused, each slot stays as it was. It asks for memory only where
    /// there was no such room. O(1), but for moving the slots to where there is more room.
    pub fn reserve_one(&mut self) -> Result<(), AllocError>
        ensures items { self.new.items ≡ self.old.items }
        ensures capacity { self.old.capacity ≤ self.new.capacity }
        ensures room { OnOk result (HasRoom self.new) }
        ensures full { OnErr result (¬ HasRoom self.old) }
    {
        if !self.free.is_empty() {
            return Ok(());
        }
        self.items.reserve(1)?;
        self.free.reserve(self.items.len() + 1)
    }

    /// Puts the item into the least free slot, in room that was reserved. It takes no memory. O(log slots).
    pub fn take(&mut self, item: T) -> usize
        requires { HasRoom self.old }
        ensures slot { result ≡ first_free self.old.items }
        ensures items { self.new.items ≡ with_item self.old.items (first_free self.old.items) (Some item) }
        ensures capacity { self.old.capacity ≤ self.new.capacity }
    {
        match self.free.pop() {
            Some(least) => {
                let slot = least.0;
                self.items[slot] = Some(item);
                slot
            }
            None => {
                let slot = self.items.len();
                self.items.push(Some(item)).unwrap();
                slot
            }
        }
    }

    /// Frees a taken slot. It takes no memory. O(log slots).
    pub fn release(&mut self, slot: usize)
        requires { item_at self.old.items slot ≢ None }
        ensures items { self.new.items ≡ with_item self.old.items slot None }
        ensures capacity { self.old.capacity ≤ self.new.capacity }
    {
        self.items[slot] = None;
        self.free.push(Reverse(slot)).unwrap();
    }

    /// Frees every slot. It takes no memory. O(slots).
    pub fn clear(&mut self)
        ensures items { self.new.items ≡ [] }
        ensures capacity { self.old.capacity ≤ self.new.capacity }
    {
        self.items.clear();
        self.free.clear();
    }
}
