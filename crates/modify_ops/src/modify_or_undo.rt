//! Changes of the record of a node that are undone where another record bans them.
ghost use Rattle.std.specs.Prelude.{◌≡◌, ◌&&◌, cond, not, Some};
ghost use Rattle.std.specs.Option.{is_some};
ghost use Rattle.container_model.specs.declared.handle.Entry.{Entry};
ghost use Rattle.node_store.specs.Store.{IsNodeOf};
ghost use Rattle.index_set.specs.Asked.{IsKept};
ghost use Rattle.index_set.specs.ByRow.{by_row};
ghost use Rattle.index_set.specs.Set.{store_of, record_of};
ghost use Rattle.index_set.specs.Writes.{GivesKeysBack, IsModifiedOrUndone};

use container_model::Entry;
use index_set::{ByRow, Edit, IndexSet};
use key_extract::Extract;
use node_store::Node;

/// Changes the row of a node's record, and settles the node in each index. Where another record has the new one's key in a unique
/// index, or where it may not stay, the change is undone instead, which has to give the record its keys back: the node stays
/// where it stands in each index. The first unique index that bans the new record is answered, with the node of the other. It
/// takes no memory. O(log n) for each index.
pub fn modify_or_undo_node<R, E: Extract<R>, T: Edit<R>>(
    set: &mut IndexSet<Entry<R>, ByRow<E>>,
    node: Node,
    edit: &mut T,
    stays: bool,
) -> Option<(usize, Node)>
    requires node { IsNodeOf (store_of set.old) node }
    requires undone { GivesKeysBack E.order_of set.old node
        (λ r. T.undone (T.after_apply edit.old r) (T.applied edit.old r)) }
    ensures kept { IsKept (by_row E.Extract) set.new }
    ensures edit { (e : Entry R) → record_of set.old node ≡ Some e →
        edit.new ≡ cond (stays && not (is_some result)) (T.after_apply edit.old e.row)
        (T.after_undo (T.after_apply edit.old e.row) (T.applied edit.old e.row)) }
    ensures modified { (e : Entry R) → record_of set.old node ≡ Some e →
        IsModifiedOrUndone E.order_of set.old set.new node e (T.applied edit.old e.row)
        (T.undone (T.after_apply edit.old e.row) (T.applied edit.old e.row)) result
        (stays && not (is_some result)) }
{
    set.modify_or_undo(node, edit, stays)
}
