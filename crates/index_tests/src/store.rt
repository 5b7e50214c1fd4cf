//! Nodes and their links, how large they are, and a store that moves to another thread.
ghost use Rattle.std.specs.Prelude.{◌≡◌, ◌≢◌, ◌<◌, ◌≤◌, Some};
ghost use Rattle.node_store.specs.declared.Link.{Link};
ghost use Rattle.node_store.specs.declared.Node.{Node};
ghost use Rattle.node_store.specs.Store.{IsNodeOf, width_of};
ghost use Rattle.node_store.specs.ByNode.{column_of, contents};
ghost use Rattle.index_tests.specs.Linked.{LinksNodes};

use node_store::{COLUMNS, Digest, LINK_BYTES, Link, Node, NodeStore};
use std::alloc::Global;
use std::mem::size_of;
use std::thread;
use std::thread::Threads;

// Whether what is written into one column of a node is read there, and not in the next.
fn keeps_links(store: &mut NodeStore<u32>, a: Node, b: Node) -> bool
    requires node { IsNodeOf store.old a }
    requires other { IsNodeOf store.old b }
    requires columns { 3 ≤ width_of store.old }
    ensures { contents store.new ≡ contents store.old }
{
    let link = store.link(a, 1);
    store.set_link(
        a,
        1,
        Link {
            b: Some(b),
            height: 4,
            ..link
        },
    );
    let written = store.link(a, 1);
    let beside = store.link(a, 2);
    store.is_node(written.b, b) && written.height == 4 && beside.b.is_none()
}

// Whether a node is the newest of so many.
fn is_newest(store: &NodeStore<u32>, n: Node, count: usize) -> bool
    requires { IsNodeOf store.now n }
{
    store.len() == count && store.is_node(store.newest(), n)
}

// Whether a node is the one before another in the order of the adds.
fn is_before(store: &NodeStore<u32>, n: Node, later: Node) -> bool
    requires node { IsNodeOf store.now n }
    requires later { IsNodeOf store.now later }
{
    store.age(n) < store.age(later) && store.is_node(store.older(later), n)
}

// Of three nodes the last has its record changed, and the second goes. Whether the others are as they are to be.
#[tactic(auto, using(node_store::proofs::StoreLemmas::nodes_with_record))]
fn loses_second(store: &mut NodeStore<u32>, a: Node, b: Node, c: Node) -> bool
    requires first { IsNodeOf store.old a }
    requires second { IsNodeOf store.old b }
    requires third { IsNodeOf store.old c }
    requires before { a ≢ b }
    requires after { c ≢ b }
{
    *store.get_mut(c) = 31;
    let removed = store.remove(b);
    let are_joined = is_before(store, a, c) && store.len() == 2;
    removed == 20 && are_joined && *store.get(c) == 31 && *store.get(a) == 10
}

// Of three nodes the first is linked to the second, and the second goes. Whether all are as they are to be.
#[tactic(auto, using(node_store::proofs::ByNode::nodes_kept))]
fn links_and_loses(store: &mut NodeStore<u32>, a: Node, b: Node, c: Node) -> bool
    requires first { IsNodeOf store.old a }
    requires second { IsNodeOf store.old b }
    requires third { IsNodeOf store.old c }
    requires before { a ≢ b }
    requires after { c ≢ b }
    requires columns { 3 ≤ width_of store.old }
{
    let are_linked = keeps_links(store, a, b);
    loses_second(store, a, b, c) && are_linked
}

/// Whether three nodes are kept in the order of their adds, with their links and records.
#[tactic(auto, using(node_store::proofs::ByNode::nodes_kept, node_store::proofs::ByNode::new_node))]
pub(crate) fn links_are_kept_by_column(alloc: Global) -> Option<bool> {
    let mut store = NodeStore::new(alloc, 3);
    let a = store.add(10u32).ok()?;
    let b = store.add(20u32).ok()?;
    let c = store.add(30u32).ok()?;
    let are_counted = store.len() == 3 && store.added() == 3;
    let are_listed = is_newest(&store, c, 3) && is_before(&store, b, c);
    let has_first = store.older(a).is_none();
    let are_kept = links_and_loses(&mut store, a, b, c);
    Some(are_counted && are_listed && has_first && are_kept)
}

// Whether both are one node of the store, or none.
fn is_same(store: &NodeStore<u32>, o: Option<Node>, wanted: Option<Node>) -> bool
    requires found { (m : Node) → o ≡ Some m → IsNodeOf store.now m }
    requires wanted { (m : Node) → wanted ≡ Some m → IsNodeOf store.now m }
{
    match wanted {
        Some(n) => store.is_node(o, n),
        None => o.is_none(),
    }
}

// Whether the links are the same.
fn are_same(store: &NodeStore<u32>, a: Link, b: Link) -> bool
    requires first { LinksNodes store.now a }
    requires second { LinksNodes store.now b }
{
    is_same(store, a.a, b.a)
        && is_same(store, a.b, b.b)
        && is_same(store, a.up, b.up)
        && a.tag == b.tag
        && a.height == b.height
        && a.digest == b.digest
}

// Whether the links are those to no node.
fn is_empty(link: Link) -> bool {
    let is_alone = link.a.is_none() && link.b.is_none() && link.up.is_none();
    is_alone && link.tag == 0 && link.height == 0 && link.digest == Digest::ZERO
}

// Whether a node has these links in one column, and is empty in those before it.
fn has_in_last(store: &NodeStore<u32>, n: Node, last: usize, wanted: Link) -> bool
    requires node { IsNodeOf store.now n }
    requires column { last < width_of store.now }
    requires links { (link : Link) → column_of store.now last n ≡ Some link → LinksNodes store.now link }
    requires wanted { LinksNodes store.now wanted }
{
    for col in 0..last {
        if !is_empty(store.link(n, col)) {
            return false;
        }
    }
    are_same(store, store.link(n, last), wanted)
}

// Whether two nodes keep links in one column, each its own, and nothing in those before it.
#[tactic(auto, using(node_store::proofs::ByNode::nodes_kept, node_store::proofs::ByNode::width_kept))]
fn keep_last(store: &mut NodeStore<u32>, a: Node, b: Node, last: usize) -> bool
    requires first { IsNodeOf store.old a }
    requires second { IsNodeOf store.old b }
    requires apart { a ≢ b }
    requires column { last < width_of store.old }
{
    let of_a = Link {
        a: Some(b),
        b: Some(a),
        up: Some(b),
        tag: u64::MAX,
        height: 7,
        digest: Digest::of(u64::MAX),
    };
    let of_b = Link {
        a: Some(a),
        tag: 1,
        ..of_a
    };
    store.set_link(a, last, of_a);
    store.set_link(b, last, of_b);
    has_in_last(store, a, last, of_a) && has_in_last(store, b, last, of_b)
}

// The same of two nodes of a new store of so many columns, in the last of them.
#[tactic(auto, using(node_store::proofs::ByNode::new_node))]
fn keeps_last(alloc: Global, columns: usize) -> Option<bool>
    requires some { 0 < columns }
    requires few { columns ≤ 8 }
{
    let mut store = NodeStore::new(alloc, columns);
    let a = store.add(10u32).ok()?;
    let b = store.add(20u32).ok()?;
    Some(keep_last(&mut store, a, b, columns - 1))
}

/// Whether links are kept by column in a store of few columns and in one of all.
pub(crate) fn any_columns_keep_links(alloc: Global) -> Option<bool> {
    let of_few = keeps_last(alloc, 1)? && keeps_last(alloc, 2)? && keeps_last(alloc, 3)?;
    Some(of_few && keeps_last(alloc, COLUMNS)?)
}

/// Whether a node and its links in one column have these sizes in bytes.
pub(crate) fn are_sizes() -> bool {
    size_of::<Node>() == 8 && LINK_BYTES == 40
}

// A store with one more record, which is read in the store.
fn with_one(store: NodeStore<u32>) -> Option<(NodeStore<u32>, u32)> {
    let mut store = store;
    if store.added() > 1000 {
        return None;
    }
    let Ok(node) = store.add(10) else {
        return None;
    };
    let read = *store.get(node);
    Some((store, read))
}

/// Whether a store moves to another thread and back, with what was added there.
pub(crate) fn moves_to_a_thread(rt: &impl Threads, alloc: Global) -> Option<bool> {
    let store = NodeStore::new(alloc, 1);
    let (made, _) = thread::join(rt, || with_one(store), || 0);
    let (store, read) = made?;
    Some(read == 10 && store.len() == 1)
}
