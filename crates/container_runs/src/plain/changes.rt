//! Changes of records.

use super::PlainIndex;
use container_model::{Handle, Why};
use key_extract::{Probe, Row};

impl PlainIndex {
    /// Puts a row in, at its usual places or before a place of an index.
    pub(crate) fn insert(&mut self, at: Option<(usize, u64)>, row: &Row) -> Result<Handle, Why> {
        if let Some(why) = self.insert_refusal(at, row) {
            return Err(why);
        }
        self.count_write()?;
        self.put(at, row).ok_or(Why::Memory)
    }

    /// Takes a record out, and names the record after it in the index, where one is named.
    pub(crate) fn erase(
        &mut self,
        handle: Handle,
        index: Option<usize>,
    ) -> Result<Option<Handle>, Why> {
        if let Some(why) = self.erase_refusal(handle, index) {
            return Err(why);
        }
        self.count_write()?;
        let next = match index {
            Some(index) => self.lists.after(index, handle),
            None => None,
        };
        self.take(handle);
        Ok(next)
    }

    /// Takes out all records that have the key, one after the other.
    pub(crate) fn erase_key(&mut self, index: usize, probe: &Probe) -> Result<u64, Why> {
        self.has_key(index)?;
        self.count_write()?;
        let mut count = 0u64;
        for _ in 0..self.len() {
            if let Some(handle) = self.first_equal(index, probe) {
                self.take(handle);
                count = count.saturating_add(1);
            }
        }
        Ok(count)
    }

    pub(crate) fn clear(&mut self) -> Result<(), Why> {
        self.count_write()?;
        self.records.clear();
        self.lists.clear();
        Ok(())
    }

    /// Gives a record another row.
    pub(crate) fn replace(&mut self, handle: Handle, row: &Row) -> Result<(), Why> {
        if let Some(why) = self.replace_refusal(handle, row) {
            return Err(why);
        }
        self.count_write()?;
        self.change(handle, row)
    }

    /// Gives a record another row. Where another record has its new key in a unique index, it is taken out: then comes
    /// the first such index and the record there.
    pub(crate) fn modify(
        &mut self,
        handle: Handle,
        row: &Row,
    ) -> Result<Option<(usize, Handle)>, Why> {
        self.get(handle)?;
        self.count_write()?;
        let ban = self.first_ban(row, Some(handle));
        match ban {
            Some(_) => self.take(handle),
            None => self.change(handle, row)?,
        }
        Ok(ban)
    }

    pub(super) fn count_write(&mut self) -> Result<(), Why> {
        match self.writes.checked_add(1) {
            Some(next) => {
                self.writes = next;
                Ok(())
            }
            None => Err(Why::Spent),
        }
    }
}
