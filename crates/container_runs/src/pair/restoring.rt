//! The container goes, and another is made of what it held.

use super::{Pair, keys_match};
use crate::tally::{Count, Tally};
use container_model::Entry;
use key_extract::{Row, RowKeys};
use multi_index::{MultiIndex, Saved};
use std::alloc::AllocError;

impl Pair {
    /// Puts a container that is made of what the container holds in its place, and compares all views.
    pub(crate) fn restore(&mut self, tally: &mut Tally) -> Result<(), AllocError> {
        let is_made = match self.saved()? {
            Some(saved) => self.restore_from(saved)?,
            None => false,
        };
        tally.count(Count::Restored);
        tally.count_if(!is_made, Count::Differences);
        tally.count_if(!self.same_views(), Count::Differences);
        tally.count_if(!self.same_sizes(), Count::Differences);
        Ok(())
    }

    // What the container holds, or nothing where one of its calls refuses to tell it.
    fn saved(&self) -> Result<Option<Saved<Row>>, AllocError> {
        let mut orders = Vec::new(self.alloc());
        for index in 0..self.indices() {
            match self.container.view(index) {
                Ok(order) => orders.push(order)?,
                Err(_) => return Ok(None),
            }
        }
        let Some(entries) = self.entries()? else {
            return Ok(None);
        };
        Ok(Some(Saved {
            writes: self.container.writes(),
            entries,
            orders,
        }))
    }

    // The records in the order of their insertion, or nothing where a handle has none.
    fn entries(&self) -> Result<Option<Vec<Entry<Row>>>, AllocError> {
        let mut handles = self.handles().to_vec(self.alloc())?;
        handles.sort_unstable_by_key(|handle| handle.stamp);
        let mut entries = Vec::new(self.alloc());
        for handle in handles {
            match self.container.get(handle) {
                Ok(row) => entries.push(Entry {
                    handle,
                    row: row.copy()?,
                })?,
                Err(_) => return Ok(None),
            }
        }
        Ok(Some(entries))
    }

    // Makes the container of what was saved. Answers whether that could be done.
    fn restore_from(&mut self, saved: Saved<Row>) -> Result<bool, AllocError> {
        let alloc = self.alloc();
        let keys = RowKeys::new(alloc, &self.indices.keys)?;
        let (count, most) = (self.indices.len(), self.plain.most());
        if count < 1 || count > most || most > 8 || !keys_match(&keys, &self.indices.specs) {
            return Ok(false);
        }
        let kept = RowKeys::new(alloc, &self.indices.keys)?;
        let specs = self.indices.specs.to_vec(alloc)?;
        match MultiIndex::restore(alloc, specs, keys, most, self.plain.max(), saved) {
            Ok(made) => {
                self.container = made;
                self.keys = kept;
                Ok(true)
            }
            Err(_) => Ok(false),
        }
    }
}
