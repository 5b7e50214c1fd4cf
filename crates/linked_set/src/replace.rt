//! Giving a record another row.
ghost use Rattle.any_index.specs.Keyed.{marks_of};
ghost use Rattle.std.specs.Prelude.{◌≡◌, option_map, None, Some};
ghost use Rattle.container_model.specs.Insert.{ban_from};
ghost use Rattle.container_model.specs.Change.{settled_from, with_row};
ghost use Rattle.index_set.specs.Indices.{HoldIt};
ghost use Rattle.index_set.specs.Set.{store_of, keys_of, specs_of, contents, record_of, lists_of, IsOfSame};
ghost use Rattle.linked_set.specs.Linked.{handle_of, entries_in, handles_in};
ghost use Rattle.linked_set.specs.Seen.{IsLinked};

use container_model::Entry;
use index_set::{ByRow, IndexSet};
use key_extract::Extract;
use modify_ops::replace_node;
use node_store::Node;
use slot_table::SlotTable;

/// Puts a record that nothing else bans in the place of a node's, under the same handle, and hands out the old row. The
/// node settles in each index. It takes no memory. O(log n) for each index.
pub(crate) fn rewrite<R, E: Extract<R>>(
    set: &mut IndexSet<Entry<R>, ByRow<E>>,
    slots: &SlotTable<Node>,
    node: Node,
    entry: Entry<R>,
) -> R
    requires linked { IsLinked E.has_key E.order_of (marks_of E.Extract) set.old slots.now.items }
    requires held { HoldIt (lists_of set.old) node }
    requires handle { handle_of (record_of set.old) node ≡ entry.handle }
    requires allowed { ban_from (E.order_of (keys_of set.old).keys) (entries_in (contents set.old))
        (handles_in (record_of set.old) (lists_of set.old)) (Some entry.handle) entry.row 0
        (specs_of set.old) ≡ None }
    ensures linked { IsLinked E.has_key E.order_of (marks_of E.Extract) set.new slots.now.items }
    ensures same { IsOfSame set.old set.new }
    ensures old { option_map (λ e. e.row) (record_of set.old node) ≡ Some result }
    ensures entries { entries_in (contents set.new) ≡ with_row entry.handle entry.row
        (entries_in (contents set.old)) }
    ensures lists { handles_in (record_of set.new) (lists_of set.new) ≡
        settled_from (E.order_of (keys_of set.old).keys) (entries_in (contents set.old))
        entry.handle entry.row 0 (specs_of set.old)
        (handles_in (record_of set.old) (lists_of set.old)) }
    ensures count { (store_of set.new).added ≡ (store_of set.old).added }
{
    let old = replace_node(set, node, entry);
    old.row
}
