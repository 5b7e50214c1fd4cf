//! A set of nodes under several indices, and the slots that lead to them.
ghost use Rattle.any_index.specs.Keyed.{marks_of};
ghost use Rattle.std.specs.Prelude.{◌≡◌, ◌+◌, ◌<◌, ◌≤◌, ◌^◌, ◌++◌, ◌∷◌, [], ℕ, None, Some, IfErr, IfOk, IfSome, OnErr, OnOk, IsTrue, length, not, option_map};
ghost use Rattle.node_store.specs.Store.{IsNodeOf};
ghost use Rattle.any_index.specs.Side.{AreNodesOf};
ghost use Rattle.container_model.specs.State.{is_handle};
ghost use Rattle.container_model.specs.Insert.{ban_from, entered_from};
ghost use Rattle.slot_table.specs.Slots.{first_free, item_at};
ghost use Rattle.index_set.specs.Indices.{HoldIt};
ghost use Rattle.index_set.specs.Places.{place_from, IsPlaceOf};
ghost use Rattle.index_set.specs.Set.{store_of, keys_of, specs_of, contents, record_of, list_of, lists_of, IsOfSame};
ghost use Rattle.index_set.specs.ByRow.{order_by_row};
ghost use Rattle.linked_set.specs.Linked.{handle_of, entries_in, handles_in};
ghost use Rattle.linked_set.specs.Seen.{IsLinked};

use container_model::{Entry, Handle};
use index_set::{ByRow, FreePlace, IndexSet, Nodes};
use key_extract::Extract;
use node_store::{NoRoom, Node};
use slot_table::SlotTable;

/// The handle of a node's record. O(1).
pub(crate) fn handle_at<R, E: Extract<R>, S: Nodes<Entry<R>, ByRow<E>>>(
    set: &S,
    node: Node,
) -> Handle
    requires { IsNodeOf (store_of (S.parts set.now)) node }
    ensures { result ≡ handle_of (record_of (S.parts set.now)) node }
{
    set.store().get(node).handle
}

/// The position of a node's record, or the end. O(1).
pub(crate) fn position_at<R, E: Extract<R>>(
    set: &IndexSet<Entry<R>, ByRow<E>>,
    node: Option<Node>,
) -> Option<Handle>
    requires { AreNodesOf (store_of set.now) node }
    ensures { result ≡ option_map (handle_of (record_of set.now)) node }
{
    match node {
        Some(node) => Some(handle_at(set, node)),
        None => None,
    }
}

/// The node whose record has the handle, or none where that record has gone. O(1).
pub(crate) fn node_at<R, E: Extract<R>, S: Nodes<Entry<R>, ByRow<E>>>(
    set: &S,
    slots: &SlotTable<Node>,
    handle: Handle,
) -> Option<Node>
    requires { (k : ℕ) → AreNodesOf (store_of (S.parts set.now)) (item_at slots.now.items k) }
    ensures found { (n : Node) → result ≡ Some n → (item_at slots.now.items handle.slot ≡ Some n) ×
        IsTrue (is_handle handle (handle_of (record_of (S.parts set.now)) n)) }
    ensures none { (n : Node) → result ≡ None → item_at slots.now.items handle.slot ≡ Some n →
        IsTrue (not (is_handle handle (handle_of (record_of (S.parts set.now)) n))) }
{
    let node = slots.get(handle.slot as usize)?;
    if handle == handle_at(set, node) {
        Some(node)
    } else {
        None
    }
}

/// The first unique index in which a record has the row's key, with the handle of that record, as an `Err`. Where none has it,
/// what is known of where the row goes, for `put_in`. One search of each unique index: O(log n) for each.
pub(crate) fn free_place<R, E: Extract<R>>(
    set: &IndexSet<Entry<R>, ByRow<E>>,
    slots: &SlotTable<Node>,
    entry: &Entry<R>,
) -> Result<Option<FreePlace>, (usize, Handle)>
    requires linked { IsLinked E.has_key E.order_of (marks_of E.Extract) set.now slots.now.items }
    ensures free { OnOk result (ban_from (E.order_of (keys_of set.now).keys)
        (entries_in (contents set.now)) (handles_in (record_of set.now) (lists_of set.now)) None
        entry.now.row 0 (specs_of set.now) ≡ None) }
    ensures place { IfOk result (λ place. place ≡ place_from (order_by_row E.order_of (keys_of set.now))
        (record_of set.now) (lists_of set.now) entry.now 0 (specs_of set.now)) }
    ensures taken { IfErr result (λ by. ban_from (E.order_of (keys_of set.now).keys)
        (entries_in (contents set.now)) (handles_in (record_of set.now) (lists_of set.now)) None
        entry.now.row 0 (specs_of set.now) ≡ Some by) }
{
    match set.free_place(entry) {
        Ok(place) => Ok(place),
        Err((index, node)) => Err((index, handle_at(set, node))),
    }
}

/// The first unique index in which a record other than the node's has the key of a row that is to take the place of the node's,
/// with the handle of that record. Only the indices at which the row's key is another than that of the node's row are asked.
/// O(log n) for each of these that is unique.
pub(crate) fn replacement_ban<R, E: Extract<R>>(
    set: &IndexSet<Entry<R>, ByRow<E>>,
    slots: &SlotTable<Node>,
    entry: &Entry<R>,
    node: Node,
) -> Option<(usize, Handle)>
    requires linked { IsLinked E.has_key E.order_of (marks_of E.Extract) set.now slots.now.items }
    requires held { HoldIt (lists_of set.now) node }
    ensures { result ≡ ban_from (E.order_of (keys_of set.now).keys) (entries_in (contents set.now))
        (handles_in (record_of set.now) (lists_of set.now))
        (Some (handle_of (record_of set.now) node)) entry.now.row 0 (specs_of set.now) }
{
    let (index, by) = set.bans(entry, node)?;
    Some((index, handle_at(set, by)))
}

/// Adds a record, whose handle has the least free slot, and puts its node into each index: before the place where one is
/// asked for, and elsewhere at its usual place. The index in which its place is `known` is not searched. Where memory is refused
/// the record is handed back, and the entries and the lists are as they were. O(log n) for each index, but O(n) where a place is
/// asked for.
pub(crate) fn put_in<R: Drop, E: Extract<R>>(
    set: &mut IndexSet<Entry<R>, ByRow<E>>,
    slots: &mut SlotTable<Node>,
    at: Option<(usize, u64)>,
    entry: Entry<R>,
    known: Option<FreePlace>,
) -> Result<(), NoRoom<Entry<R>>>
    requires linked { IsLinked E.has_key E.order_of (marks_of E.Extract) set.old slots.old.items }
    requires count { (store_of set.old).added + 1 < 2 ^ 64 }
    requires slot { entry.handle.slot ≡ first_free slots.old.items }
    requires place { (j p : ℕ) → at ≡ Some (j, p) → p ≤ length (list_of set.old j) }
    requires allowed { ban_from (E.order_of (keys_of set.old).keys) (entries_in (contents set.old))
        (handles_in (record_of set.old) (lists_of set.old)) None entry.row 0
        (specs_of set.old) ≡ None }
    requires known { IfSome known (IsPlaceOf (order_by_row E.order_of (keys_of set.old))
        (record_of set.old) (lists_of set.old) entry) }
    ensures linked { IsLinked E.has_key E.order_of (marks_of E.Extract) set.new slots.new.items }
    ensures same { IsOfSame set.old set.new }
    ensures entries { OnOk result (entries_in (contents set.new) ≡
        entries_in (contents set.old) ++ entry ∷ []) }
    ensures lists { OnOk result (handles_in (record_of set.new) (lists_of set.new) ≡
        entered_from (E.order_of (keys_of set.old).keys) (entries_in (contents set.old)) at
        entry.row entry.handle 0 (specs_of set.old)
        (handles_in (record_of set.old) (lists_of set.old))) }
    ensures count { OnOk result ((store_of set.new).added ≡ (store_of set.old).added + 1) }
    ensures returned { IfErr result (λ refused. refused.value ≡ entry) }
    ensures same_entries { OnErr result (entries_in (contents set.new) ≡
        entries_in (contents set.old)) }
    ensures same_lists { OnErr result (handles_in (record_of set.new) (lists_of set.new) ≡
        handles_in (record_of set.old) (lists_of set.old)) }
    ensures same_count { OnErr result ((store_of set.new).added ≡ (store_of set.old).added) }
{
    if slots.reserve_one().is_err() {
        return Err(NoRoom { value: entry });
    }
    let node = set.put(entry, at, known)?;
    slots.take(node);
    Ok(())
}
