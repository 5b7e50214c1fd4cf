//! Records, numbered by their slots.

use container_model::{Entry, Handle, Why};
use key_extract::Row;
use std::alloc::Global;

#[derive(Drop)]
pub(super) struct Records {
    entries: Vec<Option<Entry<Row>>>,
}

impl Records {
    pub(super) fn new(alloc: Global) -> Records {
        Records {
            entries: Vec::new(alloc),
        }
    }

    pub(super) fn get(&self, handle: Handle) -> Result<&Row, Why> {
        match self.entries.get(handle.slot as usize) {
            Some(Some(entry)) if entry.handle == handle => Ok(&entry.row),
            _ => Err(Why::Stale),
        }
    }

    /// The least slot that no record has.
    pub(super) fn free_slot(&self) -> usize {
        for (slot, entry) in self.entries.iter().enumerate() {
            if entry.is_none() {
                return slot;
            }
        }
        self.entries.len()
    }

    /// Keeps a row at the slot of its handle.
    pub(super) fn keep(&mut self, handle: Handle, row: &Row) -> Option<()> {
        let entry = Entry {
            handle,
            row: row.copy().ok()?,
        };
        match self.entries.get_mut(handle.slot as usize) {
            Some(place) => {
                *place = Some(entry);
                Some(())
            }
            None => self.entries.push(Some(entry)).ok(),
        }
    }

    /// Frees the slot of a handle.
    pub(super) fn take(&mut self, handle: Handle) {
        if let Some(place) = self.entries.get_mut(handle.slot as usize) {
            *place = None;
        }
    }

    pub(super) fn clear(&mut self) {
        self.entries.clear();
    }
}
