//! Changing a record in place, and undoing the change where it is refused.
ghost use Rattle.any_index.specs.Keyed.{marks_of};
ghost use Rattle.std.specs.Prelude.{◌≡◌, ◌+◌, ◌-◌, ◌<◌, ℕ, cond, length, option_map, IsTrue, None, Some};
ghost use Rattle.std.specs.Option.{option_map_or};
ghost use Rattle.std.specs.declared.cmp.Ordering.TheVariants.{Equal};
ghost use Rattle.container_model.specs.State.{has_key_kind};
ghost use Rattle.container_model.specs.Insert.{ban};
ghost use Rattle.container_model.specs.Change.{spent, with_replaced, with_row};
ghost use Rattle.index_set.specs.Indices.{HoldIt};
ghost use Rattle.index_set.specs.Set.{store_of, keys_of, specs_of, kind_at, contents, record_of, lists_of};
ghost use Rattle.linked_set.specs.Linked.{entries_in, handle_of};
ghost use Rattle.linked_set.specs.Seen.{seen, IsLinked};

use crate::linked::handle_at;
use crate::spent::is_spent;
use container_model::{Entry, Why};
use index_set::{ByRow, IndexSet};
use key_extract::Extract;
use modify_ops::{Edit, modify_or_undo_node};
use node_store::Node;
use slot_table::SlotTable;

/// Changes the row of a node's record, and settles the node. Where another record has the new key in a unique index, or the
/// last write has the greatest number (`writes` is that of the last one), the change is undone, which has to give the row its
/// keys back: the node stays where it stands in each index, and the answer is why. It takes no memory. O(log n) for each
/// index.
pub(crate) fn change_or_undo<R, E: Extract<R>, T: Edit<R>>(
    set: &mut IndexSet<Entry<R>, ByRow<E>>,
    slots: &SlotTable<Node>,
    writes: u64,
    node: Node,
    edit: &mut T,
) -> Option<Why>
    requires linked { IsLinked E.has_key E.order_of (marks_of E.Extract) set.old slots.now.items }
    requires held { HoldIt (lists_of set.old) node }
    requires undone { (index : ℕ) (r : R) → index < length (specs_of set.old) →
        IsTrue (has_key_kind (kind_at set.old index)) → option_map (λ e. e.row)
        (record_of set.old node) ≡ Some r → E.order_of (keys_of set.old).keys index
        (T.undone (T.after_apply edit.old r) (T.applied edit.old r)) r ≡ Equal }
    ensures linked { IsLinked E.has_key E.order_of (marks_of E.Extract) set.new slots.now.items }
    ensures count { (store_of set.new).added ≡ (store_of set.old).added }
    ensures why { (r : R) (max : ℕ) → option_map (λ e. e.row) (record_of set.old node) ≡ Some r →
        result ≡ option_map_or (λ at. Some (Why.Banned at.0 at.1))
        (ban E.order_of (seen set.old max writes) (Some (handle_of (record_of set.old) node))
        (T.applied edit.old r)) (spent (seen set.old max writes)) }
    ensures left { (r : R) (max : ℕ) → option_map (λ e. e.row) (record_of set.old node) ≡ Some r →
        seen set.new max (option_map_or (λ why. writes) result (writes + 1)) ≡
        option_map_or
        (λ why. record (seen set.old max writes) {
          entries = with_row
              (handle_of (record_of set.old) node) (T.undone (T.after_apply edit.old r)
              (T.applied edit.old r)) (entries_in (contents set.old));
        }) result
        (with_replaced E.order_of (seen set.old max writes) (handle_of (record_of set.old) node)
        (T.applied edit.old r)) }
    ensures edit { (r : R) → option_map (λ e. e.row) (record_of set.old node) ≡ Some r → edit.new ≡
        option_map_or (λ why. T.after_undo (T.after_apply edit.old r) (T.applied edit.old r)) result
        (T.after_apply edit.old r) }
{
    let stays = !is_spent(writes);
    let Some((index, by)) = modify_or_undo_node(set, node, edit, stays) else {
        return spent_unless(stays);
    };
    Some(Why::Banned {
        index,
        by: handle_at(set, by),
    })
}

// That no write is left, unless a record may stay as it was changed.
fn spent_unless(stays: bool) -> Option<Why>
    ensures { result ≡ cond stays None (Some Why.Spent) }
{
    if stays { None } else { Some(Why::Spent) }
}
