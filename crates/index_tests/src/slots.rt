//! Slots taken and freed out of order.
use slot_table::SlotTable;
use std::alloc::Global;

fn put(table: &mut SlotTable<u64>, item: u64) -> Option<usize> {
    table.reserve_one().ok()?;
    Some(table.take(item))
}

fn free(table: &mut SlotTable<u64>, slot: usize) {
    if let Some(_) = table.get(slot) {
        table.release(slot);
    }
}

// Whether each item is put into this slot.
fn are_put(table: &mut SlotTable<u64>, items: &[(u64, usize)]) -> bool {
    for (item, slot) in items {
        if put(table, *item) != Some(*slot) {
            return false;
        }
    }
    true
}

/// Whether items come into the least slots that are free, also once slots in the middle were freed, until the table is
/// emptied.
pub(crate) fn script(alloc: Global) -> bool {
    let mut table = SlotTable::new(alloc);
    let is_empty = table.least_free() == 0;
    let items = [(10, 0), (11, 1), (12, 2), (13, 3), (14, 4)];
    let are_filled = are_put(&mut table, &items);
    for slot in [3, 1, 4] {
        free(&mut table, slot);
    }
    let are_freed = table.least_free() == 1 && table.get(0) == Some(10) && table.get(1) == None;
    let are_refilled = are_put(&mut table, &[(20, 1), (21, 3), (22, 4), (23, 5)])
        && table.get(3) == Some(21)
        && table.get(6) == None;
    table.clear();
    let is_cleared = table.least_free() == 0 && table.get(5) == None;
    is_empty && are_filled && are_freed && are_refilled && is_cleared
}
