//! Changes of both containers.
ghost use Rattle.std.specs.Prelude.{◌<◌, IfSome, length};

use super::Pair;
use super::answers::{erased, inserted, modified, replaced, without_row};
use super::swap::Swap;
use crate::tally::{Count, Tally};
use container_model::{Handle, Refused, Why};
use key_extract::{Probe, Row};
use std::alloc::AllocError;

/// What is done with a row: it is put in, at its usual places or before a place of an index, or given to a record, which
/// by `Modify` is lost to a ban, and by `ModifyOrUndo` keeps its old row.
#[derive(Clone, Copy)]
pub(crate) enum Write {
    Insert(Option<(usize, u64)>),
    Replace(Handle),
    Modify(Handle),
    ModifyOrUndo(Handle),
}

impl Pair {
    /// Makes a change with a row, of which the container gets a copy, and compares all views.
    pub(crate) fn write(
        &mut self,
        write: Write,
        row: &Row,
        tally: &mut Tally,
    ) -> Result<(), AllocError> {
        let copy = row.copy()?;
        match write {
            Write::Insert(at) => self.insert(at, row, copy, tally),
            Write::Replace(handle) => self.replace(handle, row, copy, tally),
            Write::Modify(handle) => self.modify(handle, row, copy, tally),
            Write::ModifyOrUndo(handle) => self.modify_or_undo(handle, row, copy, tally),
        }
        Ok(())
    }

    // Counts a change, and compares all views.
    pub(super) fn compare(&self, count: Count, why: Option<Why>, same: bool, tally: &mut Tally) {
        tally.count_if(why.is_none(), count);
        tally.call(why, same && self.same_views() && self.same_sizes());
    }

    fn insert(&mut self, at: Option<(usize, u64)>, row: &Row, copy: Row, tally: &mut Tally) {
        let answer = inserted(&self.insert_in_container(at, copy), row);
        let wanted = self.plain.insert(at, row);
        self.compare(Count::Inserted, wanted.err(), answer == Some(wanted), tally);
    }

    pub(super) fn insert_in_container(
        &mut self,
        at: Option<(usize, u64)>,
        row: Row,
    ) -> Result<Handle, Refused<Row>> {
        match at {
            Some((index, place)) if index < self.indices() => {
                self.container.insert_at(index, place, row)
            }
            _ => self.container.insert(row),
        }
    }

    fn replace(&mut self, handle: Handle, row: &Row, copy: Row, tally: &mut Tally) {
        let answer = self.container.replace(handle, copy);
        let answer = replaced(&answer, self.plain.get(handle), row);
        let wanted = self.plain.replace(handle, row);
        self.get(handle, tally);
        self.compare(Count::Changed, wanted.err(), answer == Some(wanted), tally);
    }

    fn modify(&mut self, handle: Handle, row: &Row, copy: Row, tally: &mut Tally) {
        let mut edit = Swap::new(copy);
        let answer = self.container.modify(handle, &mut edit);
        let left = edit.is_left(answer.is_ok(), false, self.plain.get(handle), row);
        let answer = modified(&answer, row);
        let wanted = self.plain.modify(handle, row);
        self.get(handle, tally);
        let same = left && answer == Some(wanted);
        self.compare(Count::Changed, wanted.err(), same, tally);
    }

    // Refused like a replacement.
    fn modify_or_undo(&mut self, handle: Handle, row: &Row, copy: Row, tally: &mut Tally) {
        let mut edit = Swap::new(copy);
        let answer = self.container.modify_or_undo(handle, &mut edit);
        let old = self.plain.get(handle);
        let left = edit.is_left(old.is_ok(), old.is_ok() && answer.is_err(), old, row);
        let answer = without_row(&answer);
        let wanted = self.plain.replace(handle, row);
        self.get(handle, tally);
        let same = left && answer == Some(wanted);
        self.compare(Count::Changed, wanted.err(), same, tally);
    }

    /// Takes a record out, and compares the records after it in an index.
    pub(crate) fn erase(&mut self, handle: Handle, index: Option<usize>, tally: &mut Tally)
        requires { IfSome index (λ i. i < length self.old.specs) }
    {
        let answer = self.container.erase(handle, index);
        let answer = erased(&answer, self.plain.get(handle));
        let wanted = self.plain.erase(handle, index);
        self.compare(Count::Changed, wanted.err(), answer == Some(wanted), tally);
    }

    /// Takes out all records that have the key, where the index can be searched by it.
    pub(crate) fn erase_key(&mut self, index: usize, probe: &Probe, tally: &mut Tally) {
        if self.may_search(index, probe) {
            let answer = without_row(&self.container.erase_key(index, probe));
            let wanted = self.plain.erase_key(index, probe);
            self.compare(Count::Changed, wanted.err(), answer == Some(wanted), tally);
        }
    }

    /// Takes all records out.
    pub(crate) fn clear(&mut self, tally: &mut Tally) {
        let answer = without_row(&self.container.clear());
        let wanted = self.plain.clear();
        self.was_cleared = self.was_cleared || wanted.is_ok();
        self.compare(Count::Changed, wanted.err(), answer == Some(wanted), tally);
    }
}
