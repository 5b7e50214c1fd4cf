//! Giving a record another row.
ghost use Rattle.any_index.specs.Keyed.{marks_of};
ghost use Rattle.std.specs.Prelude.{◌≡◌, ◌+◌, ℕ, IfErr, IfOk, None, OnErr, OnOk, Some, cond};
ghost use Rattle.std.specs.Option.{option_map_or};
ghost use Rattle.container_model.specs.State.{row_of};
ghost use Rattle.container_model.specs.Find.{is_live};
ghost use Rattle.container_model.specs.Insert.{ban, ban_from};
ghost use Rattle.container_model.specs.Change.{with_modified, with_replaced};
ghost use Rattle.container_model.specs.Undone.{KeepsKeys, modify_or_undo_refusal, with_modified_or_undone};
ghost use Rattle.index_set.specs.Indices.{HoldIt};
ghost use Rattle.index_set.specs.Set.{keys_of, specs_of, contents, record_of, lists_of};
ghost use Rattle.linked_set.specs.Linked.{handle_of, entries_in, handles_in};
ghost use Rattle.linked_set.specs.Modified.{told};
ghost use Rattle.linked_set.specs.Records.{alone, row_kept_out, state_of};
ghost use Rattle.linked_set.specs.Seen.{IsLinked};

use crate::linked::{node_at, replacement_ban};
use crate::linked_set::LinkedSet;
use crate::modify::{Modified, change};
use crate::modify_or_undo::change_or_undo;
use crate::replace::rewrite;
use container_model::{Entry, Handle, Refused, Why};
use index_set::{ByRow, IndexSet};
use key_extract::Extract;
use modify_ops::Edit;
use node_store::Node;
use slot_table::SlotTable;

impl<R: Drop, E: Extract<R> + Drop> LinkedSet<R, E> {
    /// Gives a record another row, and hands out the old one; its handle stays. Refused are, in this order: `Stale`; `Banned`,
    /// by the first unique index in which another record has the row's key; the `limit`, which is what else keeps every
    /// change out. The row is then handed back, and nothing is changed. It takes no memory. O(log n) for each index.
    pub fn rewrite(&mut self, handle: Handle, row: R, limit: Option<Why>) -> Result<R, Refused<R>>
        ensures old { IfOk result (λ old. row_of self.old.entries handle ≡ Some old) }
        ensures allowed { OnOk result (row_kept_out E.order_of self.old handle row limit ≡ None) }
        ensures ok { (max writes : ℕ) → OnOk result (state_of self.new max (writes + 1) ≡
            with_replaced E.order_of (state_of self.old max writes) handle row) }
        ensures added { self.new.added ≡ self.old.added }
        ensures why { IfErr result (λ refused. Some refused.why ≡
            row_kept_out E.order_of self.old handle row limit) }
        ensures handed_back { IfErr result (λ refused. refused.row ≡ Some row) }
        ensures unchanged { OnErr result (self.new ≡ self.old) }
    {
        let Some(node) = node_at(&self.set, &self.slots, handle) else {
            return Err(Refused {
                why: Why::Stale,
                row: Some(row),
            });
        };
        let entry = Entry { handle, row };
        if let Some(why) = keeps_out(&self.set, &self.slots, limit, node, &entry) {
            return Err(Refused {
                why,
                row: Some(entry.row),
            });
        }
        Ok(rewrite(&mut self.set, &self.slots, node, entry))
    }

    /// Changes a record in place; its handle stays, and it settles as after `rewrite`. Where another record has its new key
    /// in a unique index, it is taken out, and the answer has the changed row, the first such index and the record there.
    /// `Stale` and the `limit` are refused, in this order: the edit is then not applied, and nothing is changed. It takes no
    /// memory. O(log n) for each index, but to take a record out of an index whose places can be counted O(the records
    /// behind it).
    pub fn change<T: Edit<R>>(
        &mut self,
        handle: Handle,
        edit: &mut T,
        limit: Option<Why>,
    ) -> Result<Modified<R>, Why>
        ensures allowed { OnOk result (cond (is_live (alone self.old) handle) limit (Some Why.Stale)
            ≡ None) }
        ensures ok { (r : R) (max writes : ℕ) → row_of self.old.entries handle ≡ Some r →
            OnOk result (state_of self.new max (writes + 1) ≡
            with_modified E.order_of (state_of self.old max writes) handle
            (T.applied edit.old r)) }
        ensures added { self.new.added ≡ self.old.added }
        ensures answer { (r : R) → row_of self.old.entries handle ≡ Some r →
            IfOk result (λ told_of. told_of ≡
            told (ban E.order_of (alone self.old) (Some handle) (T.applied edit.old r))
            (T.applied edit.old r)) }
        ensures edit { (r : R) → row_of self.old.entries handle ≡ Some r →
            OnOk result (edit.new ≡ T.after_apply edit.old r) }
        ensures why { IfErr result (λ why. Some why ≡
            cond (is_live (alone self.old) handle) limit (Some Why.Stale)) }
        ensures not_applied { OnErr result (edit.new ≡ edit.old) }
        ensures unchanged { OnErr result (self.new ≡ self.old) }
    {
        let Some(node) = node_at(&self.set, &self.slots, handle) else {
            return Err(Why::Stale);
        };
        if let Some(why) = limit {
            return Err(why);
        }
        Ok(change(&mut self.set, &mut self.slots, node, edit))
    }

    /// Changes a record in place; its handle stays, and it settles as after `rewrite`. Where another record has the new key in
    /// a unique index, or the last write has the greatest number (`writes` is that of the last one), the change is undone,
    /// which has to give the row its keys back: the record stays where it stands in each index, and the answer is why. A
    /// handle that names no record is `Stale`, and then the edit is not applied. It takes no memory. O(log n) for each index.
    pub fn change_or_undo<T: Edit<R>>(
        &mut self,
        handle: Handle,
        edit: &mut T,
        writes: u64,
    ) -> Option<Why>
        requires undone { KeepsKeys E.order_of (alone self.old) handle
            (λ r. T.undone (T.after_apply edit.old r) (T.applied edit.old r)) }
        ensures why { result ≡ modify_or_undo_refusal E.order_of (state_of self.old 0 writes) handle
            (T.applied edit.old) }
        ensures left { (max : ℕ) →
            state_of self.new max (option_map_or (λ why. writes) result (writes + 1)) ≡
            with_modified_or_undone E.order_of (state_of self.old max writes) handle
            (T.applied edit.old) (λ r. T.undone (T.after_apply edit.old r) (T.applied edit.old r)) }
        ensures added { self.new.added ≡ self.old.added }
        ensures edit { (r : R) → row_of self.old.entries handle ≡ Some r → edit.new ≡
            option_map_or (λ why. T.after_undo (T.after_apply edit.old r) (T.applied edit.old r))
            result (T.after_apply edit.old r) }
        ensures not_applied { row_of self.old.entries handle ≡ None → edit.new ≡ edit.old }
    {
        let Some(node) = node_at(&self.set, &self.slots, handle) else {
            return Some(Why::Stale);
        };
        change_or_undo(&mut self.set, &self.slots, writes, node, edit)
    }
}

// Why a record may not take the place of a node's, under the same handle: a ban comes before the limit.
fn keeps_out<R, E: Extract<R>>(
    set: &IndexSet<Entry<R>, ByRow<E>>,
    slots: &SlotTable<Node>,
    limit: Option<Why>,
    node: Node,
    entry: &Entry<R>,
) -> Option<Why>
    requires linked { IsLinked E.has_key E.order_of (marks_of E.Extract) set.now slots.now.items }
    requires held { HoldIt (lists_of set.now) node }
    requires handle { handle_of (record_of set.now) node ≡ entry.now.handle }
    ensures { result ≡ option_map_or (λ at. Some (Why.Banned at.0 at.1))
        (ban_from (E.order_of (keys_of set.now).keys) (entries_in (contents set.now))
        (handles_in (record_of set.now) (lists_of set.now)) (Some entry.now.handle) entry.now.row 0
        (specs_of set.now)) limit }
{
    match replacement_ban(set, slots, entry, node) {
        Some((index, by)) => Some(Why::Banned { index, by }),
        None => limit,
    }
}
