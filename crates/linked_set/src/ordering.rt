//! The order of one sequence. A number that no index has names one without records.
ghost use Rattle.any_index.specs.Keyed.{marks_of};
ghost use Rattle.std.specs.Prelude.{◌≡◌, ◌+◌, ◌⊎◌, ℕ, IfErr, IfOk, IsTrue, None, OnErr, OnOk, Some, map};
ghost use Rattle.std.specs.List.{AllByRecursion};
ghost use Rattle.container_model.specs.State.{is_sequence_kind};
ghost use Rattle.container_model.specs.Find.{kind_at};
ghost use Rattle.container_model.specs.Sequence.{rearrange_refusal, relocate_refusal, with_list, with_relocated, with_reversed, with_sorted};
ghost use Rattle.node_store.specs.Store.{IsNodeOf};
ghost use Rattle.index_set.specs.Set as nodes;
ghost use Rattle.index_set.specs.Set.{store_of, record_of};
ghost use Rattle.linked_set.specs.Linked.{handle_of};
ghost use Rattle.linked_set.specs.Rearranged.{is_after_memory};
ghost use Rattle.linked_set.specs.Records.{alone, state_of};
ghost use Rattle.linked_set.specs.Seen.{seen, IsLinked};

use crate::beside::is_there;
use crate::linked::node_at;
use crate::linked_set::LinkedSet;
use crate::rearrange::{all_live, has_each_once, nodes_of};
use crate::sort::sorted_nodes;
use crate::spent::is_spent;
use container_model::{Entry, Handle, Kind, Why};
use index_set::{ByRow, IndexSet, Nodes};
use key_extract::{Extract, RowOrder};
use node_store::Node;
use slot_table::SlotTable;
use std::alloc::{AllocError, Global};

impl<R: Drop, E: Extract<R> + Drop> LinkedSet<R, E> {
    /// Moves a record before the place of a sequence, or at the place `len` last; the place counts with the record still in.
    /// Refused are, in this order: `Kind`, where the index is no sequence; `Stale`; `Place`, where the place is past the end;
    /// `Spent`, where the last write, whose number is `writes`, has the greatest. Then nothing is changed. It takes no memory.
    /// O(the distance of the place from the nearer end), in a sequence with places O(the records between both places).
    pub fn relocate(
        &mut self,
        index: usize,
        place: u64,
        handle: Handle,
        writes: u64,
    ) -> Result<(), Why>
        ensures allowed { OnOk result (relocate_refusal (state_of self.old 0 writes) index place
            handle ≡ None) }
        ensures ok { (max : ℕ) → OnOk result (state_of self.new max (writes + 1) ≡
            with_relocated (state_of self.old max writes) index place handle) }
        ensures added { self.new.added ≡ self.old.added }
        ensures why { IfErr result (λ why. Some why ≡ relocate_refusal (state_of self.old 0 writes)
            index place handle) }
        ensures unchanged { OnErr result (self.new ≡ self.old) }
    {
        match movable(&self.set, &self.slots, writes, index, place, handle) {
            Ok(node) => {
                if !is_there(&self.set, index) {
                    return Ok(());
                }
                self.set.move_to(index, place, node);
                Ok(())
            }
            Err(why) => Err(why),
        }
    }

    /// Puts the records of a sequence into the order of their handles. Refused are, in this order: `Kind`, where the index is
    /// no sequence; `Stale`; `Order`, where the handles are not each record's once; `Spent`, where the last write, whose number
    /// is `writes`, has the greatest. Then nothing is changed. It takes memory for a number and a node for each record, and
    /// may be refused it before `Order` or `Spent` is seen. O(n log n).
    pub fn rearrange(&mut self, index: usize, handles: &[Handle], writes: u64) -> Result<(), Why>
        ensures allowed { OnOk result (rearrange_refusal (state_of self.old 0 writes) index
            handles.now ≡ None) }
        ensures ok { (max : ℕ) → OnOk result (state_of self.new max (writes + 1) ≡
            with_list (state_of self.old max writes) index handles.now) }
        ensures added { self.new.added ≡ self.old.added }
        ensures why { IfErr result
            (λ why. (Some why ≡ rearrange_refusal (state_of self.old 0 writes) index handles.now) ⊎
            ((why ≡ Why.Memory) × IsTrue (is_after_memory
            (rearrange_refusal (state_of self.old 0 writes) index handles.now)))) }
        ensures unchanged { OnErr result (self.new ≡ self.old) }
    {
        match arrangement(self.alloc, &self.set, &self.slots, writes, index, handles) {
            Ok(nodes) => {
                if !is_there(&self.set, index) {
                    return Ok(());
                }
                self.set.rearrange(index, &nodes);
                Ok(())
            }
            Err(why) => Err(why),
        }
    }

    /// Turns the order of a sequence round. It takes no memory. O(records).
    pub fn reverse(&mut self, index: usize)
        requires { IsTrue (is_sequence_kind (kind_at (alone self.old) index)) }
        ensures left { (max writes : ℕ) → state_of self.new max (writes + 1) ≡
            with_reversed (state_of self.old max writes) index }
        ensures added { self.new.added ≡ self.old.added }
    {
        if !is_there(&self.set, index) {
            return;
        }
        self.set.reverse(index);
    }

    /// Puts a sequence in the order of its records, equal ones as they stood. Where memory is refused, it is unchanged. It
    /// takes memory for a few words for each record. O(n log n).
    pub fn sort<O: RowOrder<R>>(&mut self, index: usize, order: &O) -> Result<(), AllocError>
        requires { IsTrue (is_sequence_kind (kind_at (alone self.old) index)) }
        ensures left { (max writes : ℕ) → OnOk result (state_of self.new max (writes + 1) ≡
            with_sorted (O.comparison order.now) (state_of self.old max writes) index) }
        ensures added { self.new.added ≡ self.old.added }
        ensures unchanged { OnErr result (self.new ≡ self.old) }
    {
        if !is_there(&self.set, index) {
            return Ok(());
        }
        let nodes = sorted_nodes(self.alloc, &self.set, index, order)?;
        self.set.rearrange(index, &nodes);
        Ok(())
    }
}

// Whether the index keeps an order of one's own, as one that is not there does.
fn is_sequence<R, E: Extract<R>>(set: &IndexSet<Entry<R>, ByRow<E>>, index: usize) -> bool
    ensures { result ≡ is_sequence_kind (nodes.kind_at set.now index) }
{
    let Some(spec) = set.specs().get(index) else {
        return true;
    };
    match spec.kind {
        Kind::Sequenced | Kind::Random => true,
        Kind::Ordered | Kind::Ranked | Kind::Hashed => false,
    }
}

// The node of a record that may be moved before a place of the index, or why it may not.
fn movable<R, E: Extract<R>>(
    set: &IndexSet<Entry<R>, ByRow<E>>,
    slots: &SlotTable<Node>,
    writes: u64,
    index: usize,
    place: u64,
    handle: Handle,
) -> Result<Node, Why>
    requires { IsLinked E.has_key E.order_of (marks_of E.Extract) set.now slots.now.items }
    ensures allowed { OnOk result (relocate_refusal (seen set.now 0 writes) index place
        handle ≡ None) }
    ensures node { IfOk result (λ n. IsNodeOf (store_of set.now) n) }
    ensures handle { IfOk result (λ n. handle_of (record_of set.now) n ≡ handle) }
    ensures why { IfErr result (λ why. Some why ≡ relocate_refusal (seen set.now 0 writes) index
        place handle) }
{
    if !is_sequence(set, index) {
        return Err(Why::Kind);
    }
    let Some(node) = node_at(set, slots, handle) else {
        return Err(Why::Stale);
    };
    if place > set.store().len() as u64 {
        return Err(Why::Place);
    }
    if is_spent(writes) {
        return Err(Why::Spent);
    }
    Ok(node)
}

// The nodes of handles that may be the new order of the index, or why they may not.
fn arrangement<R, E: Extract<R>>(
    alloc: Global,
    set: &IndexSet<Entry<R>, ByRow<E>>,
    slots: &SlotTable<Node>,
    writes: u64,
    index: usize,
    handles: &[Handle],
) -> Result<Vec<Node>, Why>
    requires { IsLinked E.has_key E.order_of (marks_of E.Extract) set.now slots.now.items }
    ensures allowed { OnOk result
        (rearrange_refusal (seen set.now 0 writes) index handles.now ≡ None) }
    ensures nodes { IfOk result (λ nodes. AllByRecursion (IsNodeOf (store_of set.now))
        nodes.items) }
    ensures handles { IfOk result (λ nodes. map (handle_of (record_of set.now)) nodes.items ≡
        handles.now) }
    ensures why { IfErr result
        (λ why. (Some why ≡ rearrange_refusal (seen set.now 0 writes) index handles.now) ⊎
        ((why ≡ Why.Memory) ×
        IsTrue (is_after_memory (rearrange_refusal (seen set.now 0 writes) index handles.now)))) }
{
    if !is_sequence(set, index) {
        return Err(Why::Kind);
    }
    if !all_live(set, slots, handles) {
        return Err(Why::Stale);
    }
    let Ok(each_once) = has_each_once(alloc, set, slots, handles) else {
        return Err(Why::Memory);
    };
    if !each_once {
        return Err(Why::Order);
    }
    if is_spent(writes) {
        return Err(Why::Spent);
    }
    let Ok(nodes) = nodes_of(alloc, set, slots, handles) else {
        return Err(Why::Memory);
    };
    Ok(nodes)
}
