//! Records put in, replaced, changed and taken out.

ghost use Rattle.std.specs.Prelude.{◌≡◌, ◌<◌, IfErr, IfOk, IfSome, Some, length, option_and_then, unwrap_or};
ghost use Rattle.container_model.specs.Change.{cleared, erase_key_refusal, erase_refusal, erased_count, modify_refusal, next_in, replace_refusal, spent, with_erased, with_key_erased, with_modified, with_replaced};
ghost use Rattle.container_model.specs.Insert.{ban, new_handle, with_inserted};
ghost use Rattle.container_model.specs.declared.refusal.Why.TheVariants as whys;
ghost use Rattle.table_records.specs.Changes.{Leaves, refusal_at};
ghost use Rattle.table_terms.specs.Table.{probe_order, row_order};
ghost use Rattle.table_terms.specs.Words.{IsKeyAt};

use crate::records::Records;
use container_model::{Handle, Why};
use key_extract::{Probe, Row};
use modify_ops::RowEdit;
use multi_index::Modified;

impl Records {
    /// Puts a row in, before a place of one index, counted from 0, or last at each sequence. Costs what
    /// `MultiIndex::insert_at` does, or `MultiIndex::insert`.
    pub fn insert(&mut self, at: Option<(usize, u64)>, row: Row) -> Result<Handle, Why>
        requires { IfSome at (λ at. at.0 < length self.old.shape.indices) }
        ensures handle { IfOk result (λ handle. handle ≡ new_handle self.old.records) }
        ensures leaves { Leaves result self.old self.new (refusal_at self.old at row)
            (with_inserted row_order self.old.records at row) }
        ensures why { IfErr result (λ why. why ≡
            unwrap_or (refusal_at self.old at row) whys.Memory) }
    {
        let inserted = match at {
            None => self.container.insert(row),
            Some((index, before)) => self.container.insert_at(index, before, row),
        };
        inserted.map_err(|refused| refused.why)
    }

    /// Gives a record another row. Costs what `MultiIndex::replace` does.
    pub fn replace(&mut self, handle: Handle, row: Row) -> Result<(), Why>
        ensures leaves { Leaves result self.old self.new
            (replace_refusal row_order self.old.records handle row)
            (with_replaced row_order self.old.records handle row) }
        ensures why { IfErr result (λ why. Some why ≡ replace_refusal row_order self.old.records
            handle row) }
    {
        let replaced = self.container.replace(handle, row);
        replaced.map(|_| ()).map_err(|refused| refused.why)
    }

    /// Changes a record's row. Where another record has the new key at a unique index, the record is lost, and the answer is
    /// the first such index with the record there. Costs what `MultiIndex::modify` does.
    pub fn modify(&mut self, handle: Handle, row: Row) -> Result<Option<(usize, Handle)>, Why>
        ensures lost { IfOk result (λ lost. lost ≡ ban row_order self.old.records
            (Some handle) row) }
        ensures leaves { Leaves result self.old self.new (modify_refusal self.old.records handle)
            (with_modified row_order self.old.records handle row) }
        ensures why { IfErr result (λ why. Some why ≡ modify_refusal self.old.records handle) }
    {
        let mut edit = RowEdit::new(row);
        match self.container.modify(handle, &mut edit) {
            Ok(Modified::Kept) => Ok(None),
            Ok(Modified::Erased { index, by, .. }) => Ok(Some((index, by))),
            Err(refused) => Err(refused.why),
        }
    }

    /// Takes a record out, and answers the one after it at an index where one is asked. Costs what `MultiIndex::erase` does.
    pub fn erase(&mut self, handle: Handle, index: Option<usize>) -> Result<Option<Handle>, Why>
        requires { IfSome index (λ i. i < length self.old.shape.indices) }
        ensures next { IfOk result (λ next. next ≡
            option_and_then (λ i. next_in self.old.records i handle) index) }
        ensures leaves { Leaves result self.old self.new
            (erase_refusal self.old.records handle index) (with_erased self.old.records handle) }
        ensures why { IfErr result (λ why. Some why ≡ erase_refusal self.old.records handle index) }
    {
        let erased = self.container.erase(handle, index);
        erased
            .map(|erased| erased.next)
            .map_err(|refused| refused.why)
    }

    /// Takes out the records that have a search key at an index, and answers how many. Costs what `MultiIndex::erase_key` does.
    pub fn erase_key(&mut self, index: usize, probe: &Probe) -> Result<u64, Why>
        requires { IsKeyAt self.old.shape index probe.now }
        ensures number { IfOk result (λ number. number ≡ erased_count probe_order self.old.records
            index probe.now) }
        ensures leaves { Leaves result self.old self.new (erase_key_refusal self.old.records index)
            (with_key_erased probe_order self.old.records index probe.now) }
        ensures why { IfErr result (λ why. Some why ≡ erase_key_refusal self.old.records index) }
    {
        match self.container.erase_key(index, probe) {
            Ok(number) => Ok(number),
            Err(refused) => Err(refused.why),
        }
    }

    /// Takes all records out. O(records).
    pub fn clear(&mut self) -> Result<(), Why>
        ensures leaves { Leaves result self.old self.new (spent self.old.records)
            (cleared self.old.records) }
        ensures why { IfErr result (λ why. Some why ≡ spent self.old.records) }
    {
        let cleared = self.container.clear();
        cleared.map_err(|refused| refused.why)
    }
}
