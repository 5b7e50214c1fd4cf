//! Sets whose records lie and stand as they are told to.
ghost use Rattle.any_index.specs.Keyed.{marks_of};
ghost use Rattle.std.specs.Prelude.{◌≡◌, ◌≤◌, ℕ, List, [], IfOk, IfErr, OnOk, length, map};
ghost use Rattle.std.specs.declared.cmp.Ordering.{Ordering};
ghost use Rattle.container_model.specs.declared.handle.Handle.{Handle};
ghost use Rattle.container_model.specs.declared.handle.Spec.{Spec};
ghost use Rattle.container_model.specs.State.{AreIndices, KeysMatch};
ghost use Rattle.slot_table.specs.Slots.{item_at};
ghost use Rattle.index_set.specs.Set.{store_of, keys_of, specs_of, contents, record_of, lists_of, IsSound, IsKeyed, IsOfSame};
ghost use Rattle.index_set.specs.ByRow.{has_by_row, order_by_row, marks_by_row};
ghost use Rattle.linked_set.specs.LeadsTo.{LeadsTo};
ghost use Rattle.linked_set.specs.Linked.{entries_in, handles_in};
ghost use Rattle.linked_set.specs.Restored.{AreApart, IsMisfit, misfit_of, restored};
ghost use Rattle.linked_set.specs.Seen.{seen, IsLinked};

use crate::fill::{Unfit, filled};
use container_model::{Entry, Handle, Spec};
use index_set::{ByRow, Filling, IndexSet};
use key_extract::Extract;
use node_store::Node;
use slot_table::{SlotTable, put};
use std::alloc::Global;
use thiserror::Error;

/// Why records and orders are not those of a container.
#[derive(Clone, Copy, Debug, PartialEq, Eq, Error)]
pub enum Misfit {
    /// Memory was refused.
    #[error("out of memory")]
    Memory,
    /// Two records lie in one slot.
    #[error("two records lie in one slot")]
    Slots,
    /// The order of this index has not each record's handle once.
    #[error("the order of index {0} does not have each record's handle once")]
    Members(usize),
    /// This index is unique, and two records have one key.
    #[error("two records have one key in the unique index {0}")]
    Clash(usize),
    /// The order of this index goes against its key, or in a hashed index against the order of insertion.
    #[error("the order of index {0} is not by its key, or in a hashed index not that of insertion")]
    Order(usize),
}

// What lies in a slot.
fn lying_in(slots: &[Option<Node>], slot: usize) -> Option<Node>
    ensures { result ≡ item_at slots.now slot }
{
    match slots.get(slot) {
        Some(item) => *item,
        None => None,
    }
}

// Adds the records, in no index yet, and makes the list of slots that lead to their nodes.
fn add_all<R: Drop, E: Extract<R>>(
    alloc: Global,
    set: &mut Filling<Entry<R>, ByRow<E>>,
    entries: Vec<Entry<R>>,
) -> Result<Vec<Option<Node>>, Misfit>
    requires sound { IsSound (has_by_row E.has_key) set.old }
    requires keyed { IsKeyed (order_by_row E.order_of) (marks_by_row (marks_of E.Extract)) set.old }
    requires none { entries_in (contents set.old) ≡ [] }
    requires leads { LeadsTo (store_of set.old) [] }
    requires count { (store_of set.old).added ≡ 0 }
    ensures sound { IsSound (has_by_row E.has_key) set.new }
    ensures keyed { IsKeyed (order_by_row E.order_of) (marks_by_row (marks_of E.Extract)) set.new }
    ensures same { IsOfSame set.old set.new }
    ensures lists { lists_of set.new ≡ lists_of set.old }
    ensures leads { IfOk result (λ slots. LeadsTo (store_of set.new) slots.items) }
    ensures apart { OnOk result (AreApart entries.items) }
    ensures entries { OnOk result (entries_in (contents set.new) ≡ entries.items) }
    ensures count { OnOk result ((store_of set.new).added ≡ length entries.items) }
    ensures cause { IfErr result (λ why. (order : ℕ → R → R → Ordering) (specs : List Spec)
        (lists : List (List Handle)) → IsMisfit entries.items order specs lists why) }
{
    let mut slots = Vec::new(alloc);
    for entry in entries {
        let slot = entry.handle.slot as usize;
        if lying_in(&slots, slot).is_some() {
            return Err(Misfit::Slots);
        }
        let Ok(node) = set.add(entry) else {
            return Err(Misfit::Memory);
        };
        let Ok(()) = put(&mut slots, slot, node) else {
            return Err(Misfit::Memory);
        };
    }
    Ok(slots)
}

// The same of an index of this number.
fn told(why: Unfit, index: usize) -> Misfit
    ensures { result ≡ misfit_of why index }
{
    match why {
        Unfit::Memory => Misfit::Memory,
        Unfit::Members => Misfit::Members(index),
        Unfit::Clash => Misfit::Clash(index),
        Unfit::Order => Misfit::Order(index),
    }
}

// The set with all its records in each index, in the index's order.
fn fill_all<R: Drop, E: Extract<R> + Drop>(
    alloc: Global,
    set: Filling<Entry<R>, ByRow<E>>,
    slots: &SlotTable<Node>,
    orders: &[Vec<Handle>],
) -> Result<Filling<Entry<R>, ByRow<E>>, Misfit>
    requires linked { IsLinked E.has_key E.order_of (marks_of E.Extract) set slots.now.items }
    requires one_each { length orders.now ≡ length (specs_of set) }
    ensures linked { IfOk result (λ made. IsLinked E.has_key E.order_of (marks_of E.Extract)
        made slots.now.items) }
    ensures same { IfOk result (λ made. IsOfSame set made) }
    ensures contents { IfOk result (λ made. contents made ≡ contents set) }
    ensures lists { IfOk result (λ made. handles_in (record_of made) (lists_of made) ≡
        map (λ order. order.items) orders.now) }
    ensures fits { OnOk result (AreIndices (E.order_of (keys_of set).keys)
        (entries_in (contents set)) 0 (specs_of set) (map (λ order. order.items) orders.now)) }
    ensures cause { IfErr result (IsMisfit (entries_in (contents set))
        (E.order_of (keys_of set).keys) (specs_of set) (map (λ order. order.items) orders.now)) }
{
    let mut set = set;
    for index in 0..orders.len() {
        set = match filled(alloc, set, slots, index, &orders[index]) {
            Ok(made) => made,
            Err(why) => return Err(told(why, index)),
        };
    }
    Ok(set)
}

/// A set of these records under indices in these orders, one for each index, and the slots that lead to their nodes. What is
/// given is tried: the first cause of `Misfit` tells what it is not, and all causes of an index come before those of a later
/// one. It moves the records, and takes memory for slots up to the greatest that is named. O(n log n) for each index, and O(slots log slots).
pub(crate) fn restore<R: Drop, E: Extract<R> + Drop>(
    alloc: Global,
    specs: Vec<Spec>,
    keys: E,
    columns: usize,
    entries: Vec<Entry<R>>,
    orders: &[Vec<Handle>],
) -> Result<(IndexSet<Entry<R>, ByRow<E>>, SlotTable<Node>), Misfit>
    requires some { 1 ≤ length specs.items }
    requires few { length specs.items ≤ columns }
    requires most { columns ≤ 8 }
    requires keys { KeysMatch (E.has_key keys) specs.items }
    requires one_each { length orders.now ≡ length specs.items }
    ensures linked { IfOk result (λ made. IsLinked E.has_key E.order_of (marks_of E.Extract)
        made.0 made.1.items) }
    ensures seen { IfOk result (λ made. (max writes : ℕ) → seen made.0 max writes ≡
        restored columns max writes keys specs.items entries.items
        (map (λ order. order.items) orders.now)) }
    ensures fits { OnOk result (AreIndices (E.order_of keys) entries.items 0 specs.items
        (map (λ order. order.items) orders.now)) }
    ensures apart { OnOk result (AreApart entries.items) }
    ensures count { IfOk result (λ made. (store_of made.0).added ≡ length entries.items) }
    ensures cause { IfErr result (IsMisfit entries.items (E.order_of keys) specs.items
        (map (λ order. order.items) orders.now)) }
{
    let Ok(empty) = IndexSet::new(alloc, specs, ByRow { keys }, columns) else {
        return Err(Misfit::Memory);
    };
    let mut set = empty.open();
    let items = match add_all(alloc, &mut set, entries) {
        Ok(items) => items,
        Err(why) => return Err(why),
    };
    let Ok(slots) = SlotTable::of_items(alloc, items) else {
        return Err(Misfit::Memory);
    };
    match fill_all(alloc, set, &slots, orders) {
        Ok(set) => Ok((set.close(), slots)),
        Err(why) => Err(why),
    }
}
