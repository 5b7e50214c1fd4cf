//! An index whose records stand as they are told to.
ghost use Rattle.any_index.specs.Keyed.{marks_of};
ghost use Rattle.std.specs.Prelude.{◌≡◌, ◌↔◌, ◌<◌, IfOk, IfErr, IsTrue, OnOk, false, length, map, slice_set, true};
ghost use Rattle.std.specs.List.{AllByRecursion};
ghost use Rattle.container_model.specs.State.{IsIndex, is_hashed_kind};
ghost use Rattle.node_store.specs.Store.{IsNodeOf};
ghost use Rattle.index_set.specs.Set.{store_of, keys_of, specs_of, contents, record_of, list_of, lists_of, IsSound, IsOfSame};
ghost use Rattle.index_set.specs.ByRow.{has_by_row};
ghost use Rattle.linked_set.specs.Linked.{handle_of, entries_in, handles_in, nodes_in};
ghost use Rattle.linked_set.specs.Restored.{HasMembers, IsUnfit, spec_at, standing, unfit_of};
ghost use Rattle.linked_set.specs.Seen.{IsLinked};

use crate::rearrange::{all_live, has_each_once, nodes_of};
use crate::walk::{by_age, in_order};
use container_model::{Entry, Handle, Kind};
use index_set::{ByRow, Filling, NoIndex, Nodes};
use key_extract::Extract;
use node_store::Node;
use slot_table::SlotTable;
use std::alloc::{AllocError, Global};

/// Why an order of handles is not the list of an index.
#[derive(Clone, Copy, Debug, PartialEq, Eq)]
pub enum Unfit {
    /// Memory was refused.
    Memory,
    /// It has not each record's handle once.
    Members,
    /// The index is unique, and two records have one key.
    Clash,
    /// It goes against the key, or in a hashed index against the order of insertion.
    Order,
}

// Whether two orders are one.
fn are_same(given: &[Handle], listed: &[Handle]) -> bool
    ensures { (result ≡ true) ↔ (given.now ≡ listed.now) }
{
    if given.len() != listed.len() {
        return false;
    }
    for place in 0..given.len() {
        if given[place] != listed[place] {
            return false;
        }
    }
    true
}

// Whether an order has each record's handle once.
fn has_members<R, E: Extract<R>>(
    alloc: Global,
    set: &Filling<Entry<R>, ByRow<E>>,
    slots: &SlotTable<Node>,
    order: &[Handle],
) -> Result<bool, AllocError>
    requires { IsLinked E.has_key E.order_of (marks_of E.Extract) set.now slots.now.items }
    ensures { IfOk result (λ has. (has ≡ true) ↔ HasMembers (entries_in (contents set.now)) order.now) }
{
    if !all_live(set, slots, order) {
        return Ok(false);
    }
    has_each_once(alloc, set, slots, order)
}

// The nodes that an index is filled with: those of an order that has each record's handle once, and in a hashed index
// those of all records by age.
fn ordered_nodes<R, E: Extract<R>>(
    alloc: Global,
    set: &Filling<Entry<R>, ByRow<E>>,
    slots: &SlotTable<Node>,
    index: usize,
    order: &[Handle],
) -> Result<Vec<Node>, AllocError>
    requires linked { IsLinked E.has_key E.order_of (marks_of E.Extract) set.now slots.now.items }
    requires index { index < length (specs_of set.now) }
    requires members { HasMembers (entries_in (contents set.now)) order.now }
    ensures nodes { IfOk result (λ nodes. AllByRecursion (IsNodeOf (store_of set.now))
        nodes.items) }
    ensures handles { IfOk result (λ nodes.
        is_hashed_kind (spec_at (specs_of set.now) index).kind ≡ false →
        map (handle_of (record_of set.now)) nodes.items ≡ order.now) }
    ensures aged { IfOk result (λ nodes.
        IsTrue (is_hashed_kind (spec_at (specs_of set.now) index).kind) →
        nodes.items ≡ nodes_in (contents set.now)) }
{
    match set.specs()[index].kind {
        Kind::Hashed => by_age(alloc, set),
        Kind::Sequenced | Kind::Random | Kind::Ordered | Kind::Ranked => {
            nodes_of(alloc, set, slots, order)
        }
    }
}

// Whether an index that was filled lists the records in this order. A sequence does.
fn is_in_place<R, E: Extract<R>>(
    alloc: Global,
    set: &Filling<Entry<R>, ByRow<E>>,
    index: usize,
    order: &[Handle],
) -> Result<bool, AllocError>
    requires sound { IsSound (has_by_row E.has_key) set.now }
    requires index { index < length (specs_of set.now) }
    ensures { IfOk result (λ same. (same ≡ true) ↔ (order.now ≡ standing (spec_at (specs_of set.now) index).kind
        (map (handle_of (record_of set.now)) (list_of set.now index))
        (map (λ e. e.handle) (entries_in (contents set.now))) order.now)) }
{
    match set.specs()[index].kind {
        Kind::Ordered | Kind::Ranked => {
            let handles = in_order(alloc, set, index)?;
            Ok(are_same(order, &handles))
        }
        Kind::Hashed => {
            let handles = by_age(alloc, set)?;
            Ok(are_same(order, &handles))
        }
        Kind::Sequenced | Kind::Random => Ok(true),
    }
}

// Why the set refuses nodes that it has.
fn told(why: NoIndex) -> Unfit
    ensures { result ≡ unfit_of why }
{
    match why {
        NoIndex::Clash { .. } => Unfit::Clash,
        NoIndex::Columns | NoIndex::Memory => Unfit::Memory,
    }
}

/// The set with all its records in an index, in this order. Where the order is not that of such an index, or where memory is
/// refused, the set is dropped; the causes come in the order of `Unfit`. It takes memory for a number and a node for each record, and what the index itself takes.
/// O(n log n).
pub(crate) fn filled<R: Drop, E: Extract<R> + Drop>(
    alloc: Global,
    set: Filling<Entry<R>, ByRow<E>>,
    slots: &SlotTable<Node>,
    index: usize,
    order: &[Handle],
) -> Result<Filling<Entry<R>, ByRow<E>>, Unfit>
    requires linked { IsLinked E.has_key E.order_of (marks_of E.Extract) set slots.now.items }
    requires index { index < length (specs_of set) }
    ensures linked { IfOk result (λ made. IsLinked E.has_key E.order_of (marks_of E.Extract)
        made slots.now.items) }
    ensures same { IfOk result (λ made. IsOfSame set made) }
    ensures contents { IfOk result (λ made. contents made ≡ contents set) }
    ensures lists { IfOk result (λ made. handles_in (record_of made) (lists_of made) ≡
        slice_set (handles_in (record_of set) (lists_of set)) index order.now) }
    ensures fits { OnOk result (IsIndex (E.order_of (keys_of set).keys index)
        (entries_in (contents set)) (spec_at (specs_of set) index) order.now) }
    ensures cause { IfErr result (IsUnfit (entries_in (contents set))
        (E.order_of (keys_of set).keys index) (spec_at (specs_of set) index) order.now) }
{
    let Ok(has_members) = has_members(alloc, &set, slots, order) else {
        return Err(Unfit::Memory);
    };
    if !has_members {
        return Err(Unfit::Members);
    }
    let Ok(nodes) = ordered_nodes(alloc, &set, slots, index, order) else {
        return Err(Unfit::Memory);
    };
    let made = match set.filled(index, &nodes) {
        Ok(made) => made,
        Err(why) => return Err(told(why)),
    };
    let Ok(in_place) = is_in_place(alloc, &made, index, order) else {
        return Err(Unfit::Memory);
    };
    if !in_place {
        return Err(Unfit::Order);
    }
    Ok(made)
}
