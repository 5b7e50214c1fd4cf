//! Tables whose slots are taken as they are told to be.
ghost use Rattle.std.specs.Prelude.{◌≡◌, Some, IfOk, OnOk};
ghost use Rattle.std.specs.BinaryHeap.{heap_items, heap_capacity};
ghost use Rattle.slot_table.specs.Noted.{IsNoted};
ghost use Rattle.slot_table.specs.Slots.{with_item};

use crate::SlotTable;
use std::alloc::{AllocError, Global};
use std::cmp::Reverse;
use std::collections::BinaryHeap;

/// Puts the item into a slot of a list of slots, with free slots before it where there were none yet. Where memory is
/// refused, the list may have become longer by free slots. O(1), but for the free slots that it adds.
pub fn put<T: Copy + Drop>(
    items: &mut Vec<Option<T>>,
    slot: usize,
    item: T,
) -> Result<(), AllocError>
    ensures { OnOk result (items.new.items ≡ with_item items.old.items slot (Some item)) }
{
    while items.len() < slot {
        items.push(None)?;
    }
    if slot == items.len() {
        items.push(Some(item))?;
    } else {
        items[slot] = Some(item);
    }
    Ok(())
}

// A heap that notes each free slot before the end.
fn noted<T: Copy + Drop>(
    alloc: Global,
    items: &[Option<T>],
) -> Result<BinaryHeap<Reverse<usize>>, AllocError>
    ensures { IfOk result (λ free. IsNoted items.now (heap_items free) (heap_capacity free)) }
{
    let mut free = BinaryHeap::with_capacity(alloc, items.len())?;
    for slot in 0..items.len() {
        if items[slot].is_none() {
            free.push(Reverse(slot))?;
        }
    }
    Ok(free)
}

impl<T: Copy + Drop> SlotTable<T> {
    /// A table of these slots. It takes memory for a number for each slot. O(slots log slots).
    pub fn of_items(alloc: Global, items: Vec<Option<T>>) -> Result<Self, AllocError>
        ensures { IfOk result (λ made. made.items ≡ items.items) }
    {
        let free = noted(alloc, &items)?;
        Ok(SlotTable { items, free })
    }
}
