//! Another record for a node.
ghost use Rattle.std.specs.Prelude.{◌≡◌, Some, None};
ghost use Rattle.node_store.specs.Store.{IsNodeOf};
ghost use Rattle.index_set.specs.Asked.{IsKept};
ghost use Rattle.index_set.specs.Lists.{ban_from};
ghost use Rattle.index_set.specs.Set.{store_of, keys_of, specs_of, record_of, lists_of};
ghost use Rattle.index_set.specs.Writes.{IsRewritten};

use index_set::IndexSet;
use key_extract::Extract;
use node_store::Node;

/// Gives a node another record, which nothing else bans, and settles it in each index; the old record is handed out. In a
/// sequence the node keeps its place. It takes no memory. O(log n) for each index at which the key differs.
pub fn replace_node<R, E: Extract<R>>(set: &mut IndexSet<R, E>, node: Node, value: R) -> R
    requires node { IsNodeOf (store_of set.old) node }
    requires allowed { ban_from (E.order_of (keys_of set.old)) (record_of set.old)
        (lists_of set.old) (Some node) value 0 (specs_of set.old) ≡ None }
    ensures kept { IsKept E.Extract set.new }
    ensures old { record_of set.old node ≡ Some result }
    ensures written { IsRewritten E.order_of set.old set.new node value }
{
    set.replace(node, value)
}
