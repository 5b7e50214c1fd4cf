//! Changes of the record of a node.
ghost use Rattle.std.specs.Prelude.{◌≡◌, Some};
ghost use Rattle.container_model.specs.declared.handle.Entry.{Entry};
ghost use Rattle.node_store.specs.Store.{IsNodeOf};
ghost use Rattle.index_set.specs.Asked.{IsKept};
ghost use Rattle.index_set.specs.ByRow.{by_row};
ghost use Rattle.index_set.specs.Set.{store_of, record_of};
ghost use Rattle.index_set.specs.Writes.{IsModified};

use container_model::Entry;
use index_set::{ByRow, Edit, IndexSet, Lost};
use key_extract::Extract;
use node_store::Node;

/// Changes the row of a node's record, and settles the node in each index. Where another record has the new one's key in a unique
/// index, the node is taken out, and its record handed out. It takes no memory. O(log n) for each index at which the key has
/// changed, but O(the nodes behind it) to take the node out of one with places.
pub fn modify_node<R: Drop, E: Extract<R>, T: Edit<R>>(
    set: &mut IndexSet<Entry<R>, ByRow<E>>,
    node: Node,
    edit: &mut T,
) -> Option<Lost<Entry<R>>>
    requires { IsNodeOf (store_of set.old) node }
    ensures kept { IsKept (by_row E.Extract) set.new }
    ensures edit { (e : Entry R) → record_of set.old node ≡ Some e →
        edit.new ≡ T.after_apply edit.old e.row }
    ensures modified { (e : Entry R) → record_of set.old node ≡ Some e →
        IsModified E.order_of set.old set.new node e (T.applied edit.old e.row) result }
{
    set.modify(node, edit)
}
