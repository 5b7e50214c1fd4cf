//! Handles that stand for each record once, and their nodes.
ghost use Rattle.any_index.specs.Keyed.{marks_of};
ghost use Rattle.std.specs.Prelude.{◌≡◌, IsTrue, None, Some, IfOk, false, map, nat_eq};
ghost use Rattle.std.specs.List.{AllByRecursion, IsDistinct, list_all};
ghost use Rattle.container_model.specs.Find.{is_live};
ghost use Rattle.container_model.specs.Sequence.{has_each_once};
ghost use Rattle.node_store.specs.Store.{IsNodeOf};
ghost use Rattle.index_set.specs.Set.{store_of, contents, record_of};
ghost use Rattle.linked_set.specs.Linked.{handle_of, entries_in};
ghost use Rattle.linked_set.specs.Seen.{seen, IsLinked};

use crate::linked::node_at;
use container_model::{Entry, Handle};
use index_set::{ByRow, Nodes};
use key_extract::Extract;
use node_store::Node;
use slot_table::SlotTable;
use std::alloc::{AllocError, Global};
use std::collections::BTreeSet;

// Whether the handle names a record.
fn is_live<R, E: Extract<R>, S: Nodes<Entry<R>, ByRow<E>>>(
    set: &S,
    slots: &SlotTable<Node>,
    handle: Handle,
) -> bool
    requires { IsLinked E.has_key E.order_of (marks_of E.Extract) (S.parts set.now) slots.now.items }
    ensures { result ≡ is_live (seen (S.parts set.now) 0 0) handle }
{
    match node_at(set, slots, handle) {
        Some(_) => true,
        None => false,
    }
}

/// Whether each of the handles names a record. O(the handles).
pub(crate) fn all_live<R, E: Extract<R>, S: Nodes<Entry<R>, ByRow<E>>>(
    set: &S,
    slots: &SlotTable<Node>,
    handles: &[Handle],
) -> bool
    requires { IsLinked E.has_key E.order_of (marks_of E.Extract) (S.parts set.now) slots.now.items }
    ensures { result ≡ list_all (λ h. is_live (seen (S.parts set.now) 0 0) h) handles.now }
{
    for handle in handles {
        if !is_live(set, slots, *handle) {
            return false;
        }
    }
    true
}

/// Whether handles that all name records are each record's once. It takes memory for a number for each handle.
/// O(n log n).
pub(crate) fn has_each_once<R, E: Extract<R>, S: Nodes<Entry<R>, ByRow<E>>>(
    alloc: Global,
    set: &S,
    slots: &SlotTable<Node>,
    handles: &[Handle],
) -> Result<bool, AllocError>
    requires linked { IsLinked E.has_key E.order_of (marks_of E.Extract) (S.parts set.now) slots.now.items }
    requires live { IsTrue (list_all (λ h. is_live (seen (S.parts set.now) 0 0) h) handles.now) }
    ensures { IfOk result (λ once. once ≡ has_each_once (entries_in (contents (S.parts set.now)))
        handles.now) }
{
    if handles.len() != set.store().len() {
        return Ok(false);
    }
    are_apart(alloc, handles)
}

// Whether no two of the handles have one slot.
fn are_apart(alloc: Global, handles: &[Handle]) -> Result<bool, AllocError>
    ensures apart { IfOk result (λ apart. IsTrue apart →
        IsDistinct nat_eq (map (λ h. h.slot) handles.now)) }
    ensures twice { IfOk result (λ apart. apart ≡ false →
        ¬ IsDistinct nat_eq (map (λ h. h.slot) handles.now)) }
{
    let mut seen = BTreeSet::new(alloc);
    for handle in handles {
        if !seen.insert(handle.slot)? {
            return Ok(false);
        }
    }
    Ok(true)
}

/// The nodes of handles that all name records. It takes memory for a node for each handle. O(the handles).
pub(crate) fn nodes_of<R, E: Extract<R>, S: Nodes<Entry<R>, ByRow<E>>>(
    alloc: Global,
    set: &S,
    slots: &SlotTable<Node>,
    handles: &[Handle],
) -> Result<Vec<Node>, AllocError>
    requires linked { IsLinked E.has_key E.order_of (marks_of E.Extract) (S.parts set.now) slots.now.items }
    requires live { IsTrue (list_all (λ h. is_live (seen (S.parts set.now) 0 0) h) handles.now) }
    ensures nodes { IfOk result (λ nodes. AllByRecursion (IsNodeOf (store_of (S.parts set.now)))
        nodes.items) }
    ensures handles { IfOk result (λ nodes. map (handle_of (record_of (S.parts set.now))) nodes.items ≡
        handles.now) }
{
    let mut nodes = Vec::with_capacity(alloc, handles.len())?;
    for handle in handles {
        nodes.push(live_node(set, slots, *handle))?;
    }
    Ok(nodes)
}

// The node of a handle that names a record.
fn live_node<R, E: Extract<R>, S: Nodes<Entry<R>, ByRow<E>>>(
    set: &S,
    slots: &SlotTable<Node>,
    handle: Handle,
) -> Node
    requires linked { IsLinked E.has_key E.order_of (marks_of E.Extract) (S.parts set.now) slots.now.items }
    requires live { IsTrue (is_live (seen (S.parts set.now) 0 0) handle) }
    ensures node { IsNodeOf (store_of (S.parts set.now)) result }
    ensures handle { handle_of (record_of (S.parts set.now)) result ≡ handle }
{
    node_at(set, slots, handle).unwrap()
}
