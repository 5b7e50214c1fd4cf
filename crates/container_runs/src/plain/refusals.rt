//! What refuses a call.

use super::PlainIndex;
use container_model::{Handle, Kind, Why};
use key_extract::Row;

impl PlainIndex {
    pub(super) fn insert_refusal(&self, at: Option<(usize, u64)>, row: &Row) -> Option<Why> {
        if let Some((index, place)) = at {
            if self.has_key(index).is_ok() {
                return Some(Why::Kind);
            }
            if place > self.len() {
                return Some(Why::Place);
            }
        }
        if let Some((index, by)) = self.first_ban(row, None) {
            return Some(Why::Banned { index, by });
        }
        if self.len() == u64::from(self.max) {
            return Some(Why::Full);
        }
        self.spent()
    }

    pub(super) fn erase_refusal(&self, handle: Handle, index: Option<usize>) -> Option<Why> {
        match index {
            Some(index) if self.kind(index) == Kind::Hashed => Some(Why::Kind),
            _ => self.get(handle).err(),
        }
    }

    pub(super) fn replace_refusal(&self, handle: Handle, row: &Row) -> Option<Why> {
        if let Err(why) = self.get(handle) {
            return Some(why);
        }
        match self.first_ban(row, Some(handle)) {
            Some((index, by)) => Some(Why::Banned { index, by }),
            None => self.spent(),
        }
    }

    fn spent(&self) -> Option<Why> {
        if self.writes == u64::MAX {
            Some(Why::Spent)
        } else {
            None
        }
    }

    // The first unique index in which a record other than the excepted one has the row's key, with that record.
    pub(super) fn first_ban(&self, row: &Row, except: Option<Handle>) -> Option<(usize, Handle)> {
        for (index, spec) in self.specs.iter().enumerate() {
            if spec.unique {
                if let Some(by) = self.first_same(index, row, except) {
                    return Some((index, by));
                }
            }
        }
        None
    }
}
