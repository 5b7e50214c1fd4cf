//! Taking records out.
ghost use Rattle.any_index.specs.Keyed.{marks_of};
ghost use Rattle.std.specs.Prelude.{◌≡◌, ◌+◌, filter, map, not, Some};
ghost use Rattle.node_store.specs.Store.{IsNodeOf, len_of};
ghost use Rattle.container_model.specs.State.{is_handle};
ghost use Rattle.index_set.specs.Set.{store_of, contents, record_of, lists_of, IsOfSame};
ghost use Rattle.linked_set.specs.Linked.{entries_in, handles_in};
ghost use Rattle.linked_set.specs.Seen.{IsLinked};
ghost use Rattle.index_set.specs.Set.{AreHeld};

use container_model::Entry;
use index_set::{ByRow, IndexSet};
use key_extract::Extract;
use node_store::Node;
use slot_table::SlotTable;

/// Takes a node out of each index, its record out of the set, and frees its slot. It takes no memory. O(log n) for each
/// index, but O(the records behind it) in one whose places can be counted.
pub(crate) fn take_out<R: Drop, E: Extract<R>>(
    set: &mut IndexSet<Entry<R>, ByRow<E>>,
    slots: &mut SlotTable<Node>,
    node: Node,
) -> Entry<R>
    requires linked { IsLinked E.has_key E.order_of (marks_of E.Extract) set.old slots.old.items }
    requires held { AreHeld set.old }
    requires node { IsNodeOf (store_of set.old) node }
    ensures linked { IsLinked E.has_key E.order_of (marks_of E.Extract) set.new slots.new.items }
    ensures held { AreHeld set.new }
    ensures same { IsOfSame set.old set.new }
    ensures record { record_of set.old node ≡ Some result }
    ensures entries { entries_in (contents set.new) ≡
        filter (λ e. not (is_handle result.handle e.handle)) (entries_in (contents set.old)) }
    ensures lists { handles_in (record_of set.new) (lists_of set.new) ≡
        map (λ list. filter (λ g. not (is_handle result.handle g)) list)
        (handles_in (record_of set.old) (lists_of set.old)) }
    ensures count { (store_of set.new).added ≡ (store_of set.old).added }
    ensures len { len_of (store_of set.new) + 1 ≡ len_of (store_of set.old) }
{
    let entry = set.take(node);
    slots.release(entry.handle.slot as usize);
    entry
}
