//! Changes of the row of a record by an edit.
ghost use Rattle.std.specs.Prelude.{◌≡◌, ◌&&◌, cond, not, Some};
ghost use Rattle.std.specs.Option.{is_some, option_copied};
ghost use Rattle.container_model.specs.declared.handle.Entry.{Entry};
ghost use Rattle.node_store.specs.Store.{IsNodeOf};
ghost use Rattle.index_set.specs.Asked.{IsKept};
ghost use Rattle.index_set.specs.ByRow.{by_row, has_by_row, order_by_row, with_row};
ghost use Rattle.index_set.specs.Set.{store_of, record_of, with_record, AgreesBeside, IsSound};
ghost use Rattle.index_set.specs.Writes.{GivesKeysBack, IsModified, IsModifiedOrUndone};

use crate::by_row::ByRow;
use crate::changed::Changed;
use crate::edit::Edit;
use crate::parts::Parts;
use crate::set::IndexSet;
use container_model::Entry;
use key_extract::Extract;
use node_store::Node;

/// A record that a change has lost.
#[derive(Drop)]
pub struct Lost<R> {
    /// The record, as the change made it.
    pub value: R,
    /// The first unique index in which another record has its key.
    pub index: usize,
    /// The node of that record.
    pub by: Node,
}

// The indices at which the row of a node's record has another key than it had before, or all where nobody knows how it was.
fn changed_rows<R, E: Extract<R>>(
    parts: &Parts<Entry<R>, ByRow<E>>,
    node: Node,
    before: Option<&R>,
) -> Changed
    requires sound { IsSound (has_by_row E.has_key) parts.now }
    requires node { IsNodeOf (store_of parts.now) node }
    ensures { (was now : Entry R) →
        ((row : R) → option_copied before.entry ≡ Some row → row ≡ was.row) →
        record_of parts.now node ≡ Some now →
        AgreesBeside (order_by_row E.order_of) parts.now result now was }
{
    match before {
        Some(old) => {
            let row = &parts.store.get(node).row;
            Changed::between(&parts.keys.keys, &parts.specs, old, row)
        }
        None => Changed::all(),
    }
}

// Changes the row of a node's record, and answers at which indices its key has changed. No index is settled yet.
fn edited<R, E: Extract<R>, T: Edit<R>>(
    parts: &mut Parts<Entry<R>, ByRow<E>>,
    node: Node,
    edit: &mut T,
) -> Changed
    requires sound { IsSound (has_by_row E.has_key) parts.old }
    requires node { IsNodeOf (store_of parts.old) node }
    ensures written { (e : Entry R) → record_of parts.old node ≡ Some e →
        parts.new ≡ with_record parts.old node (with_row e (T.applied edit.old e.row)) }
    ensures agrees { (e : Entry R) → record_of parts.old node ≡ Some e → AgreesBeside (order_by_row E.order_of)
        parts.old result (with_row e (T.applied edit.old e.row)) e }
    ensures edit { (e : Entry R) → record_of parts.old node ≡ Some e →
        edit.new ≡ T.after_apply edit.old e.row }
{
    edit.apply(&mut parts.store.get_mut(node).row);
    changed_rows(parts, node, edit.replaced())
}

// Whether a change stays: it may, and no other record bans it.
fn is_kept(stays: bool, ban: Option<(usize, Node)>) -> bool
    ensures { result ≡ (stays && not (is_some ban)) }
{
    match ban {
        Some(_) => false,
        None => stays,
    }
}

impl<R: Drop, E: Extract<R>> IndexSet<Entry<R>, ByRow<E>> {
    /// Changes the row of a node's record, and settles the node in each index. Where another record has the new one's key in a
    /// unique index, the node is taken out, and its record handed out. It takes no memory. O(log n) for each index at which the
    /// key has changed, but O(the nodes behind it) to take the node out of one with places.
    pub fn modify<T: Edit<R>>(&mut self, node: Node, edit: &mut T) -> Option<Lost<Entry<R>>>
        requires { IsNodeOf (store_of self.old) node }
        ensures kept { IsKept (by_row E.Extract) self.new }
        ensures edit { (e : Entry R) → record_of self.old node ≡ Some e →
            edit.new ≡ T.after_apply edit.old e.row }
        ensures modified { (e : Entry R) → record_of self.old node ≡ Some e → IsModified E.order_of
            self.old self.new node e (T.applied edit.old e.row) result }
    {
        let changed = edited(&mut self.parts, node, edit);
        let Some((index, by)) = self.parts.written_bans(node, changed) else {
            self.parts.settle_changed(node, changed);
            return None;
        };
        self.parts.leave(node);
        let value = self.parts.remove(node);
        Some(Lost { value, index, by })
    }
}

impl<R, E: Extract<R>> IndexSet<Entry<R>, ByRow<E>> {
    /// Changes the row of a node's record, and settles the node in each index. Where another record has the new one's key in a
    /// unique index, or where it may not stay, the change is undone instead, which has to give the record its keys back: the
    /// node stays where it stands in each index. The first unique index that bans the new record is answered, with the node of
    /// the other. It takes no memory. O(log n) for each index.
    pub fn modify_or_undo<T: Edit<R>>(
        &mut self,
        node: Node,
        edit: &mut T,
        stays: bool,
    ) -> Option<(usize, Node)>
        requires node { IsNodeOf (store_of self.old) node }
        requires undone { GivesKeysBack E.order_of self.old node
            (λ r. T.undone (T.after_apply edit.old r) (T.applied edit.old r)) }
        ensures kept { IsKept (by_row E.Extract) self.new }
        ensures edit { (e : Entry R) → record_of self.old node ≡ Some e →
            edit.new ≡ cond (stays && not (is_some result)) (T.after_apply edit.old e.row)
            (T.after_undo (T.after_apply edit.old e.row) (T.applied edit.old e.row)) }
        ensures modified { (e : Entry R) → record_of self.old node ≡ Some e → IsModifiedOrUndone
            E.order_of self.old self.new node e (T.applied edit.old e.row)
            (T.undone (T.after_apply edit.old e.row) (T.applied edit.old e.row)) result
            (stays && not (is_some result)) }
    {
        let changed = edited(&mut self.parts, node, edit);
        let ban = self.parts.written_bans(node, changed);
        if is_kept(stays, ban) {
            self.parts.settle_changed(node, changed);
        } else {
            edit.undo(&mut self.parts.store.get_mut(node).row);
            self.parts.put_back(node);
        }
        ban
    }
}
