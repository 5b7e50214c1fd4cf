//! Taking out all records of a key.
ghost use Rattle.any_index.specs.Keyed.{marks_of};
ghost use Rattle.std.specs.Prelude.{◌≡◌, ◌+◌, ◌<◌, filter, map, None, Some, IfSome};
ghost use Rattle.std.specs.declared.cmp.Ordering.TheVariants.{Equal};
ghost use Rattle.list_model.specs.Place.{find_equal};
ghost use Rattle.node_store.specs.Nodes.{Holds};
ghost use Rattle.node_store.specs.Store.{len_of};
ghost use Rattle.index_set.specs.Set.{probe_side, store_of, contents, record_of, list_of, lists_of, IsOfSame};
ghost use Rattle.linked_set.specs.Asked.{CanTakeKey};
ghost use Rattle.index_set.specs.ByRow.{probe_by_row};
ghost use Rattle.index_set.specs.Set.{AreHeld};
ghost use Rattle.linked_set.specs.Held.{has_other_key};
ghost use Rattle.linked_set.specs.Linked.{entries_in, handles_in};
ghost use Rattle.linked_set.specs.Seen.{IsLinked};

use crate::erase::take_out;
use container_model::{Entry, Kind};
use index_set::{ByRow, IndexSet, Nodes};
use key_extract::Extract;
use node_store::Node;
use slot_table::SlotTable;
use std::cmp::Ordering;

// Up to this many records leave rows one by one.
const FEW: u64 = 5;

/// Takes out every record that has the key at the index, also a leading part of one, and answers how many there were. It
/// takes no memory. For each record that goes, a look-up and O(log n) for each index; and where there are more than a few,
/// O(the records from the first of them on) for each index whose places can be counted, in which they go behind all others
/// first, and no record of another key is read.
pub(crate) fn take_key<R: Drop, E: Extract<R>>(
    set: &mut IndexSet<Entry<R>, ByRow<E>>,
    slots: &mut SlotTable<Node>,
    index: usize,
    probe: &E::Probe,
) -> u64
    requires { CanTakeKey E.Extract set.old slots.old.items index probe.now }
    ensures linked { IsLinked E.has_key E.order_of (marks_of E.Extract) set.new slots.new.items }
    ensures same { IsOfSame set.old set.new }
    ensures entries { entries_in (contents set.new) ≡
        filter (λ e. has_other_key E.probe_order_of set.old index probe.now e.handle)
        (entries_in (contents set.old)) }
    ensures lists { handles_in (record_of set.new) (lists_of set.new) ≡
        map (λ list. filter (has_other_key E.probe_order_of set.old index probe.now) list)
        (handles_in (record_of set.old) (lists_of set.old)) }
    ensures added { (store_of set.new).added ≡ (store_of set.old).added }
    ensures count { result + len_of (store_of set.new) ≡ len_of (store_of set.old) }
{
    if set.at(index).count(probe) > FEW {
        sink_key(set, slots, index, probe);
    }
    take_each(set, slots, index, probe)
}

// Takes out every record that has the key, one by one.
fn take_each<R: Drop, E: Extract<R>>(
    set: &mut IndexSet<Entry<R>, ByRow<E>>,
    slots: &mut SlotTable<Node>,
    index: usize,
    probe: &E::Probe,
) -> u64
    requires { CanTakeKey E.Extract set.old slots.old.items index probe.now }
    ensures linked { IsLinked E.has_key E.order_of (marks_of E.Extract) set.new slots.new.items }
    ensures same { IsOfSame set.old set.new }
    ensures entries { entries_in (contents set.new) ≡
        filter (λ e. has_other_key E.probe_order_of set.old index probe.now e.handle)
        (entries_in (contents set.old)) }
    ensures lists { handles_in (record_of set.new) (lists_of set.new) ≡
        map (λ list. filter (has_other_key E.probe_order_of set.old index probe.now) list)
        (handles_in (record_of set.old) (lists_of set.old)) }
    ensures added { (store_of set.new).added ≡ (store_of set.old).added }
    ensures count { result + len_of (store_of set.new) ≡ len_of (store_of set.old) }
{
    let before = set.store().len();
    while let Some(node) = last_or_any(set, slots, index, probe) {
        take_out(set, slots, node);
    }
    (before - set.store().len()) as u64
}

// Puts the records that have the key behind all others in each index whose places can be counted.
fn sink_key<R, E: Extract<R>>(
    set: &mut IndexSet<Entry<R>, ByRow<E>>,
    slots: &SlotTable<Node>,
    index: usize,
    probe: &E::Probe,
)
    requires { CanTakeKey E.Extract set.old slots.now.items index probe.now }
    ensures linked { IsLinked E.has_key E.order_of (marks_of E.Extract) set.new slots.now.items }
    ensures held { AreHeld set.new }
    ensures same { IsOfSame set.old set.new }
    ensures contents { contents set.new ≡ contents set.old }
    ensures lists { map (λ list. filter (has_other_key E.probe_order_of set.old index probe.now)
        list) (handles_in (record_of set.new) (lists_of set.new)) ≡
        map (λ list. filter (has_other_key E.probe_order_of set.old index probe.now) list)
        (handles_in (record_of set.old) (lists_of set.old)) }
{
    for row in 0..set.specs().len() {
        if let Kind::Random = set.specs()[row].kind {
            set.sink(row, index, probe);
        }
    }
}

// A node whose record has the key: the last of an index whose places can be counted, where one has it, so that no other
// closes up when it goes.
fn last_or_any<R, E: Extract<R>>(
    set: &IndexSet<Entry<R>, ByRow<E>>,
    slots: &SlotTable<Node>,
    index: usize,
    probe: &E::Probe,
) -> Option<Node>
    requires { CanTakeKey E.Extract set.now slots.now.items index probe.now }
    ensures found { IfSome result (λ n. Holds (list_of set.now index) n ×
        (probe_side (probe_by_row E.probe_order_of) set.now index probe.now n ≡ Equal)) }
    ensures none { result ≡ None →
        find_equal (probe_side (probe_by_row E.probe_order_of) set.now index probe.now)
        (list_of set.now index) ≡ None }
{
    for row in 0..set.specs().len() {
        if let Kind::Random = set.specs()[row].kind {
            if let Some(node) = set.at(row).last() {
                if set.keys().order_probe(index, set.store().get(node), probe) == Ordering::Equal {
                    return Some(node);
                }
            }
        }
    }
    set.at(index).find_any(probe)
}
