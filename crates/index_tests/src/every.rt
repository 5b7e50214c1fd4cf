//! Changes of one of several indices, and of each.
ghost use Rattle.std.specs.Prelude.{◌≡◌, ◌<◌, Some};
ghost use Rattle.node_store.specs.declared.Node.{Node};
ghost use Rattle.node_store.specs.Store.{IsNodeOf};
ghost use Rattle.node_store.specs.Nodes.{Holds};
ghost use Rattle.node_store.specs.ByNode.{column_of};
ghost use Rattle.index_tests.specs.Kinds.{IsSoundIn, listed};
ghost use Rattle.index_tests.specs.Every.{HaveColumns, LackFrom};

use crate::index::Index;
use crate::keys::Keyed;
use node_store::{Node, NodeStore};
use std::alloc::Global;

/// The node of this age, where the index has it.
pub(crate) fn node_aged<T>(store: &NodeStore<Keyed<T>>, index: &Index, age: u64) -> Option<Node>
    requires { IsSoundIn store.now index.now }
    ensures { (n : Node) → result ≡ Some n → Holds (listed (column_of store.now) index.now) n }
{
    let mut at = index.first(store);
    for _ in 0..store.added() {
        let n = at?;
        if store.age(n) == age {
            return Some(n);
        }
        at = index.next(store, n);
    }
    None
}

// The ages of the index's nodes, by a walk.
fn ages<T>(store: &NodeStore<Keyed<T>>, index: &Index, alloc: Global) -> Option<Vec<u64>>
    requires { IsSoundIn store.now index.now }
{
    let mut met = Vec::new(alloc);
    let mut at = index.first(store);
    for _ in 0..store.added() {
        let Some(n) = at else {
            return Some(met);
        };
        met.push(store.age(n)).ok()?;
        at = index.next(store, n);
    }
    Some(met)
}

// The same, sorted where the walk has no stated order.
fn view<T>(store: &NodeStore<Keyed<T>>, index: &Index, alloc: Global) -> Option<Vec<u64>>
    requires { IsSoundIn store.now index.now }
{
    let mut met = ages(store, index, alloc)?;
    if index.is_unordered() {
        met.sort().ok()?;
    }
    Some(met)
}

/// The ages of the nodes of each index.
pub(crate) fn views<T>(
    store: &NodeStore<Keyed<T>>,
    indices: &[Index],
    alloc: Global,
) -> Option<Vec<Vec<u64>>>
    requires { HaveColumns store.now indices.now }
{
    let mut all = Vec::new(alloc);
    for index in indices {
        all.push(view(store, index, alloc)?).ok()?;
    }
    Some(all)
}

/// Adds a node and puts it into each index, if there is room.
pub(crate) fn add<T: Drop>(store: &mut NodeStore<Keyed<T>>, indices: &mut [Index], value: Keyed<T>)
    requires { HaveColumns store.old indices.old }
    ensures { HaveColumns store.new indices.new }
{
    if store.added() == u64::MAX {
        return;
    }
    if let Ok(n) = store.add(value) {
        put_into_each(store, indices, n);
    }
}

fn put_into_each<T>(store: &mut NodeStore<Keyed<T>>, indices: &mut [Index], n: Node)
    requires columns { HaveColumns store.old indices.old }
    requires node { IsNodeOf store.old n }
    requires new { LackFrom (column_of store.old) 0 indices.old n }
    ensures { HaveColumns store.new indices.new }
{
    for place in 0..indices.len() {
        indices[place].put(store, n);
    }
}

/// Takes the node of this age out of the index at the place.
pub(crate) fn unlink_from<T>(
    store: &mut NodeStore<Keyed<T>>,
    indices: &mut [Index],
    place: usize,
    age: u64,
)
    requires { HaveColumns store.old indices.old }
    ensures { HaveColumns store.new indices.new }
{
    if place >= indices.len() {
        return;
    }
    if let Some(n) = node_aged(store, &indices[place], age) {
        indices[place].unlink(store, n);
    }
}
