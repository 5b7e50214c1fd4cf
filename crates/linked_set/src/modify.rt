//! Changing a record in place.
ghost use Rattle.any_index.specs.Keyed.{marks_of};
ghost use Rattle.std.specs.Prelude.{◌≡◌, ◌+◌, ℕ, option_map, Some};
ghost use Rattle.container_model.specs.Insert.{ban};
ghost use Rattle.container_model.specs.Change.{with_modified};
ghost use Rattle.index_set.specs.Indices.{HoldIt};
ghost use Rattle.index_set.specs.Set.{store_of, record_of, lists_of};
ghost use Rattle.linked_set.specs.Linked.{handle_of};
ghost use Rattle.linked_set.specs.Modified.{told};
ghost use Rattle.linked_set.specs.Seen.{seen, IsLinked};

use crate::linked::handle_at;
use container_model::{Entry, Handle};
use index_set::{ByRow, IndexSet};
use key_extract::Extract;
use modify_ops::{Edit, modify_node};
use node_store::Node;
use slot_table::SlotTable;

/// What became of a record that was changed.
#[derive(Debug, Drop)]
pub enum Modified<R> {
    /// It stays.
    Kept,
    /// It is lost: in the unique index `index`, the first that bans, the record `by` has its key.
    Erased { row: R, index: usize, by: Handle },
}

/// Changes the row of a node's record, and settles the node; where another record has the new key in a unique index, the
/// node is taken out and its slot freed. It takes no memory. O(log n) for each index, but to take a node out of an index
/// whose places can be counted O(the records behind it).
pub(crate) fn change<R: Drop, E: Extract<R>, T: Edit<R>>(
    set: &mut IndexSet<Entry<R>, ByRow<E>>,
    slots: &mut SlotTable<Node>,
    node: Node,
    edit: &mut T,
) -> Modified<R>
    requires linked { IsLinked E.has_key E.order_of (marks_of E.Extract) set.old slots.old.items }
    requires held { HoldIt (lists_of set.old) node }
    ensures linked { IsLinked E.has_key E.order_of (marks_of E.Extract) set.new slots.new.items }
    ensures count { (store_of set.new).added ≡ (store_of set.old).added }
    ensures left { (r : R) (max writes : ℕ) → option_map (λ e. e.row) (record_of set.old node) ≡
        Some r → seen set.new max (writes + 1) ≡ with_modified E.order_of (seen set.old max writes)
        (handle_of (record_of set.old) node) (T.applied edit.old r) }
    ensures answer { (r : R) (max writes : ℕ) → option_map (λ e. e.row) (record_of set.old node) ≡
        Some r → result ≡
        told (ban E.order_of (seen set.old max writes) (Some (handle_of (record_of set.old) node))
        (T.applied edit.old r)) (T.applied edit.old r) }
    ensures edit { (r : R) → option_map (λ e. e.row) (record_of set.old node) ≡ Some r → edit.new ≡
        T.after_apply edit.old r }
{
    let Some(lost) = modify_node(set, node, edit) else {
        return Modified::Kept;
    };
    slots.release(lost.value.handle.slot as usize);
    Modified::Erased {
        row: lost.value.row,
        index: lost.index,
        by: handle_at(set, lost.by),
    }
}
