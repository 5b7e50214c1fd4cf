//! Changes of all indices, one after the other.
ghost use Rattle.key_extract.specs.Digests.{Marks};
ghost use Rattle.std.specs.Prelude.{◌≡◌, false, ℕ, ◌≤◌, ◌<◌, Some, OnOk, OnErr, IfOk, IfSome, [], map, length};
ghost use Rattle.std.specs.declared.cmp.Ordering.{Ordering};
ghost use Rattle.list_model.specs.Walk.{without};
ghost use Rattle.node_store.specs.Store.{IsNodeOf, age_of, width_of};
ghost use Rattle.node_store.specs.ByNode.{record_of, contents, same_node, columns_in, Columns};
ghost use Rattle.container_model.specs.State.{KeysMatch};
ghost use Rattle.container_model.specs.Insert.{place_in};
ghost use Rattle.any_index.specs.Keyed.{marks_of, IsKeyed};
ghost use Rattle.any_index.specs.Lists.{settled_in};
ghost use Rattle.any_index.specs.Spelled.{kind_of};
ghost use Rattle.any_index.specs.Stored.{IsFiledBut, IsIn, KeepsRest, nodes_of, order_in};
ghost use Rattle.index_set.specs.Changed.{AreKeyedBeside};
ghost use Rattle.index_set.specs.Each.{changed_from, list_at};
ghost use Rattle.index_set.specs.Indices.{ArePlaced, AreWithin, lists_in, HaveRoom, LackIt, HoldIt, AreKeyed, AreKeyedBut};
ghost use Rattle.index_set.specs.Lists.{entered_at, settled_at};
ghost use Rattle.index_set.specs.Places.{IsPlaceAt};

use crate::changed::Changed;
use crate::places::{FreePlace, last_in};
use any_index::AnyIndex;
use container_model::Spec;
use key_extract::Extract;
use node_store::{Node, NodeStore};
use std::alloc::{AllocError, Global};

// An index for each that is to be, without nodes.
pub(crate) fn empty_indices(alloc: Global, specs: &[Spec]) -> Result<Vec<AnyIndex>, AllocError>
    requires { length specs.now ≤ 8 }
    ensures placed { IfOk result (λ made. (cs : Columns) → ArePlaced cs specs.now made.items) }
    ensures within { IfOk result (λ made. AreWithin (length specs.now) specs.now made.items) }
    ensures empty { IfOk result (λ made. (cs : Columns) →
        lists_in cs made.items ≡ map (λ _. []) specs.now) }
{
    let mut indices = Vec::with_capacity(alloc, specs.len())?;
    for index in 0..specs.len() {
        indices.push(AnyIndex::new(alloc, specs[index].kind, index, index))?;
    }
    Ok(indices)
}

// Makes each index one without nodes.
pub(crate) fn empty_each(alloc: Global, specs: &[Spec], indices: &mut [AnyIndex])
    requires few { length specs.now ≤ 8 }
    requires one_each { length indices.old ≡ length specs.now }
    ensures placed { (cs : Columns) → ArePlaced cs specs.now indices.new }
    ensures within { AreWithin (length specs.now) specs.now indices.new }
    ensures empty { (cs : Columns) → lists_in cs indices.new ≡ map (λ _. []) specs.now }
{
    for index in 0..specs.len() {
        indices[index] = AnyIndex::new(alloc, specs[index].kind, index, index);
    }
}

// Makes room for one more node in each index.
pub(crate) fn reserve_each<R>(
    store: &mut NodeStore<R>,
    specs: &[Spec],
    indices: &mut [AnyIndex],
) -> Result<(), AllocError>
    requires { ArePlaced (columns_in store.old) specs.now indices.old }
    ensures placed { ArePlaced (columns_in store.new) specs.now indices.new }
    ensures within { (columns : ℕ) → AreWithin columns specs.now indices.old →
        AreWithin columns specs.now indices.new }
    ensures lists { lists_in (columns_in store.new) indices.new ≡ lists_in
        (columns_in store.old) indices.old }
    ensures room { OnOk result (HaveRoom specs.now indices.new) }
    ensures full { OnErr result (¬ HaveRoom specs.now indices.old) }
    ensures keyed { (order : ℕ → R → R → Ordering) (marks : ℕ → R → Marks) →
        AreKeyed order marks store.old specs.now indices.old →
        AreKeyed order marks store.new specs.now indices.new }
    ensures contents { contents store.new ≡ contents store.old }
{
    for index in 0..specs.len() {
        indices[index].reserve_one(store)?;
    }
    Ok(())
}

// The place that was asked for in this index.
fn place_in(at: Option<(usize, u64)>, index: usize) -> Option<u64>
    ensures { result ≡ place_in at index }
{
    match at {
        Some((asked, place)) if asked == index => Some(place),
        _ => None,
    }
}

// Puts a node into each index, all of which have room for it.
pub(crate) fn enter_each<R, E: Extract<R>>(
    store: &mut NodeStore<R>,
    keys: &E,
    specs: &[Spec],
    indices: &mut [AnyIndex],
    n: Node,
    at: Option<(usize, u64)>,
    known: Option<FreePlace>,
)
    requires placed { ArePlaced (columns_in store.old) specs.now indices.old }
    requires keys { KeysMatch (E.has_key keys.now) specs.now }
    requires columns { AreWithin (width_of store.old) specs.now indices.old }
    requires node { IsNodeOf store.old n }
    requires new { LackIt (lists_in (columns_in store.old) indices.old) n }
    requires room { HaveRoom specs.now indices.old }
    requires place { (j p : ℕ) → at ≡ Some (j, p) →
        p ≤ length (list_at (lists_in (columns_in store.old) indices.old) j) }
    requires known { IfSome known (IsPlaceAt (E.order_of keys.now) (record_of store.old)
        (lists_in (columns_in store.old) indices.old) n) }
    requires keyed { AreKeyed (E.order_of keys.now)
        (marks_of E.Extract keys.now) store.old specs.now indices.old }
    ensures placed { ArePlaced (columns_in store.new) specs.now indices.new }
    ensures within { (columns : ℕ) → AreWithin columns specs.now indices.old →
        AreWithin columns specs.now indices.new }
    ensures lists { lists_in (columns_in store.new) indices.new ≡ changed_from
        (entered_at (E.order_of keys.now) (record_of store.old) (age_of store.old) at n) 0 specs.now
        (lists_in (columns_in store.old) indices.old) }
    ensures keyed { AreKeyed (E.order_of keys.now)
        (marks_of E.Extract keys.now) store.new specs.now indices.new }
    ensures contents { contents store.new ≡ contents store.old }
{
    for index in 0..specs.len() {
        let last = last_in(known, index);
        indices[index].enter(store, keys, n, place_in(at, index), last);
    }
}

// Takes a node out of each index.
pub(crate) fn leave_each<R>(
    store: &mut NodeStore<R>,
    specs: &[Spec],
    indices: &mut [AnyIndex],
    n: Node,
)
    requires placed { ArePlaced (columns_in store.old) specs.now indices.old }
    requires held { HoldIt (lists_in (columns_in store.old) indices.old) n }
    ensures placed { ArePlaced (columns_in store.new) specs.now indices.new }
    ensures within { (columns : ℕ) → AreWithin columns specs.now indices.old →
        AreWithin columns specs.now indices.new }
    ensures lists { lists_in (columns_in store.new) indices.new ≡ map (without (same_node n))
        (lists_in (columns_in store.old) indices.old) }
    ensures room { HaveRoom specs.now indices.new }
    ensures keyed { (order : ℕ → R → R → Ordering) (marks : ℕ → R → Marks) →
        AreKeyedBut order marks store.old specs.now indices.old n →
        AreKeyed order marks store.new specs.now indices.new }
    ensures contents { contents store.new ≡ contents store.old }
{
    for index in 0..specs.len() {
        indices[index].leave(store, n);
    }
}

// Puts a node in order in an index, where its record's key may have changed.
fn settle_where<R, E: Extract<R>>(
    index: &mut AnyIndex,
    store: &mut NodeStore<R>,
    keys: &E,
    n: Node,
    changed: bool,
)
    requires filed { IsFiledBut E.Extract n index.old store.old keys.now }
    requires kept { changed ≡ false →
        IsKeyed (E.order_of keys.now) (marks_of E.Extract keys.now) store.old index.old }
    ensures sound { IsIn index.new store.new }
    ensures list { nodes_of index.new store.new ≡ settled_in (kind_of index.old)
        (order_in E.Extract index.old store.old keys.now) n (nodes_of index.old store.old) }
    ensures keyed { IsKeyed (E.order_of keys.now) (marks_of E.Extract keys.now) store.new index.new }
    ensures rest { KeepsRest index.old index.new store.old store.new }
{
    if changed {
        index.settle(store, keys, n);
    }
}

// Puts a node in order in each index at which its record's key may have changed.
pub(crate) fn settle_each<R, E: Extract<R>>(
    store: &mut NodeStore<R>,
    keys: &E,
    specs: &[Spec],
    indices: &mut [AnyIndex],
    n: Node,
    changed: Changed,
)
    requires placed { ArePlaced (columns_in store.old) specs.now indices.old }
    requires keys { KeysMatch (E.has_key keys.now) specs.now }
    requires held { HoldIt (lists_in (columns_in store.old) indices.old) n }
    requires keyed { AreKeyedBut (E.order_of keys.now)
        (marks_of E.Extract keys.now) store.old specs.now indices.old n }
    requires beside { AreKeyedBeside (E.order_of keys.now) changed
        (marks_of E.Extract keys.now) store.old specs.now indices.old }
    ensures placed { ArePlaced (columns_in store.new) specs.now indices.new }
    ensures within { (columns : ℕ) → AreWithin columns specs.now indices.old →
        AreWithin columns specs.now indices.new }
    ensures lists { lists_in (columns_in store.new) indices.new ≡ changed_from
        (settled_at (E.order_of keys.now) (record_of store.old) n) 0 specs.now
        (lists_in (columns_in store.old) indices.old) }
    ensures keyed { AreKeyed (E.order_of keys.now)
        (marks_of E.Extract keys.now) store.new specs.now indices.new }
    ensures contents { contents store.new ≡ contents store.old }
{
    for index in 0..specs.len() {
        settle_where(&mut indices[index], store, keys, n, changed.has(index));
    }
}
