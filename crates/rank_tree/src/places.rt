//! The node at a place, and the place of a node.
ghost use Rattle.std.specs.Prelude.{◌≡◌, slice_get};
ghost use Rattle.list_model.specs.Walk.{place_of};
ghost use Rattle.node_store.specs.ByNode.{column_of, same_node};
ghost use Rattle.ord_tree.specs.Stored.{IsTreeOf, HasNode, AreFew, nodes_of};
ghost use Rattle.ord_tree.specs.Tree.{AreNodes, stored_tag};

use crate::sizes::RankTree;
use node_store::{Link, Node, NodeStore};

// The number of nodes of the subtree below `child`, as its root keeps it.
pub(crate) fn size_of<R>(store: &NodeStore<R>, col: usize, child: Option<Node>) -> u64
    requires { AreNodes (column_of store.now col) child }
    ensures { result ≡ stored_tag (column_of store.now col) child }
{
    match child {
        None => 0,
        Some(n) => store.link(n, col).tag,
    }
}

/// The node at a place, counted from 0, or `None` past the end. O(log n).
pub fn nth<R>(tree: &RankTree, store: &NodeStore<R>, place: u64) -> Option<Node>
    requires { IsTreeOf tree.now store.now }
    ensures { result ≡ slice_get (nodes_of tree.now store.now) place }
{
    nth_counted(tree, store, place).0
}

/// The same, and how many links were followed, one step beyond the last node included where there is no such
/// place: at most twice the binary digits of n.
pub fn nth_counted<R>(tree: &RankTree, store: &NodeStore<R>, place: u64) -> (Option<Node>, u64)
    requires { IsTreeOf tree.now store.now }
    ensures node { result.0 ≡ slice_get (nodes_of tree.now store.now) place }
    ensures few { AreFew result.1 (nodes_of tree.now store.now) }
{
    let col = tree.col();
    let mut at = tree.root(store);
    let mut rest = place;
    let mut links = 0;
    while let Some(n) = at {
        let Link {
            a: left,
            b: right,
            ..
        } = store.link(n, col);
        let before = size_of(store, col, left);
        if rest == before {
            return (Some(n), links);
        }
        links += 1;
        if rest < before {
            at = left;
        } else {
            at = right;
            rest -= before + 1;
        }
    }
    (None, links)
}

/// The place of `n`, counted from 0. It reads no record, so the tree need not be in order. O(log n).
pub fn rank<R>(tree: &RankTree, store: &NodeStore<R>, n: Node) -> u64
    requires { HasNode tree.now store.now n }
    ensures { result ≡ place_of (same_node n) (nodes_of tree.now store.now) }
{
    rank_counted(tree, store, n).0
}

/// The same, and how many links were followed: at most twice the binary digits of n.
pub fn rank_counted<R>(tree: &RankTree, store: &NodeStore<R>, n: Node) -> (u64, u64)
    requires { HasNode tree.now store.now n }
    ensures rank { result.0 ≡ place_of (same_node n) (nodes_of tree.now store.now) }
    ensures few { AreFew result.1 (nodes_of tree.now store.now) }
{
    let col = tree.col();
    let Link { a: left, up, .. } = store.link(n, col);
    let mut rank = size_of(store, col, left);
    let mut below = n;
    let mut at = up;
    let mut links = 0;
    while let Some(parent) = at {
        let Link { a: left, up, .. } = store.link(parent, col);
        let from_left = store.is_node(left, below);
        below = parent;
        at = up;
        links += 1;
        if !from_left {
            rank += size_of(store, col, left) + 1;
        }
    }
    (rank, links)
}
