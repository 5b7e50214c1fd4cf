//! Where records go in the lists.

use super::PlainIndex;
use container_model::{Handle, Kind, Why};
use key_extract::Row;
use std::cmp::Ordering;

impl PlainIndex {
    // Puts a row in under the number of the last write: where it is asked for, and elsewhere at its usual places.
    pub(super) fn put(&mut self, at: Option<(usize, u64)>, row: &Row) -> Option<Handle> {
        let handle = Handle {
            slot: u32::try_from(self.records.free_slot()).ok()?,
            stamp: self.writes,
        };
        for index in 0..self.specs.len() {
            let place = self.entry_place(index, at, row);
            self.lists.enter(index, place, handle)?;
        }
        self.records.keep(handle, row)?;
        Some(handle)
    }

    // Takes a record out.
    pub(super) fn take(&mut self, handle: Handle) {
        for index in 0..self.specs.len() {
            self.lists.leave(index, handle);
        }
        self.records.take(handle);
    }

    // Gives a record another row, and puts it where it then goes in each list.
    pub(super) fn change(&mut self, handle: Handle, row: &Row) -> Result<(), Why> {
        if self.records.keep(handle, row).is_none() {
            return Err(Why::Memory);
        }
        for index in 0..self.specs.len() {
            if let Some(place) = self.settled_place(index, handle, row) {
                self.lists.leave(index, handle);
                self.lists.enter(index, place, handle);
            }
        }
        Ok(())
    }

    // Where a new record goes in an index's list.
    pub(super) fn entry_place(&self, index: usize, at: Option<(usize, u64)>, row: &Row) -> usize {
        if self.is_in_order(index) {
            return self.upper_place(index, row);
        }
        match at {
            Some((asked, place)) if asked == index => place as usize,
            _ => self.view(index).len(),
        }
    }

    // Where a record that has this row now goes among the others in an index in order, where it is no more in order
    // between its neighbours: after all whose key is at most its own.
    fn settled_place(&self, index: usize, handle: Handle, row: &Row) -> Option<usize> {
        if !self.is_in_order(index) {
            return None;
        }
        let place = self.lists.place(index, handle)?;
        let before = self.side_at(index, place.wrapping_sub(1), row);
        let after = self.side_at(index, place.wrapping_add(1), row);
        if before != Some(Ordering::Greater) && after != Some(Ordering::Less) {
            return None;
        }
        Some(self.upper_place(index, row).saturating_sub(1))
    }

    fn is_in_order(&self, index: usize) -> bool {
        matches!(self.kind(index), Kind::Ordered | Kind::Ranked)
    }
}
