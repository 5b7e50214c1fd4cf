//! Steps from node to node.
ghost use Rattle.ord_tree.specs.Tree.{Tree, nodes, IsAt, AreNodes};
ghost use Rattle.std.specs.Prelude.{◌≡◌, ◌<◌, Option, Some, None, slice_get};
ghost use Rattle.list_model.specs.Walk.{next as the_next, prev as the_prev, last as the_last};
ghost use Rattle.node_store.specs.Column.{IsNode};
ghost use Rattle.node_store.specs.Nodes.{first_or, last_or};
ghost use Rattle.node_store.specs.ByNode.{column_of, same_node};
ghost use Rattle.ord_tree.specs.Path.{Path, after};
ghost use Rattle.ord_tree.specs.Removal.{HasTree, HasClimb, Climbs};
ghost use Rattle.ord_tree.specs.Mirror.{flipped, flipped_tally};

use crate::removal::{first_below, next_above};
use crate::tally::Tally;
use crate::tree::OrdTree;
use node_store::{Link, Node, NodeStore};

impl<T: Tally> OrdTree<T> {
    ghost use Rattle.ord_tree.specs.Stored.{IsTreeOf, HasNode, nodes_of};

    /// The first node. O(log n).
    pub fn first<R>(&self, store: &NodeStore<R>) -> Option<Node>
        requires { IsTreeOf self.now store.now }
        ensures { result ≡ slice_get (nodes_of self.now store.now) 0 }
    {
        match self.root {
            None => None,
            Some(root) => Some(first_below::<T, R>(store, self.col, root)),
        }
    }

    /// The last node. O(log n).
    pub fn last<R>(&self, store: &NodeStore<R>) -> Option<Node>
        requires { IsTreeOf self.now store.now }
        ensures { result ≡ the_last (nodes_of self.now store.now) }
    {
        last_of::<T, R>(store, self.col, self.root)
    }

    /// The node after `n`, or `None` at the end. O(log n), and O(1) on average over a whole walk.
    pub fn next<R>(&self, store: &NodeStore<R>, n: Node) -> Option<Node>
        requires { HasNode self.now store.now n }
        ensures { result ≡ the_next (same_node n) (nodes_of self.now store.now) }
    {
        let link = store.link(n, self.col);
        if let Some(right) = link.b {
            return Some(first_below::<T, R>(store, self.col, right));
        }
        next_above::<T, R>(store, self.col, n, link.up)
    }

    /// The node before `n`, or `None` at the front. O(log n), and O(1) on average over a whole walk.
    pub fn prev<R>(&self, store: &NodeStore<R>, n: Node) -> Option<Node>
        requires { HasNode self.now store.now n }
        ensures { result ≡ the_prev (same_node n) (nodes_of self.now store.now) }
    {
        let link = store.link(n, self.col);
        if let Some(left) = link.a {
            return Some(last_below::<T, R>(store, self.col, left));
        }
        prev_above::<T, R>(store, self.col, n, link.up)
    }
}

// The last node of the subtree below `n`.
fn last_below<T: Tally, R>(store: &NodeStore<R>, col: usize, n: Node) -> Node
    requires { HasTree (flipped_tally T.of) (flipped (column_of store.now col)) (Some n) }
    ensures first { (t : Tree) → IsAt (flipped_tally T.of) (flipped (column_of store.now col))
        (Some n) t → first_or (nodes t) None ≡ Some result }
    ensures node { IsNode (column_of store.now col) result }
{
    let mut last = n;
    while let Some(right) = store.link(last, col).b {
        last = right;
    }
    last
}

/// The last node of the subtree below a child, if there is one.
pub(crate) fn last_of<T: Tally, R>(
    store: &NodeStore<R>,
    col: usize,
    child: Option<Node>,
) -> Option<Node>
    requires { HasTree T.of (column_of store.now col) child }
    ensures last { (t : Tree) → IsAt T.of (column_of store.now col) child t →
        result ≡ last_or (nodes t) None }
    ensures node { AreNodes (column_of store.now col) result }
{
    match child {
        None => None,
        Some(n) => Some(last_below::<T, R>(store, col, n)),
    }
}

// The nearest node above that has the subtree of `below` on its right, where `at` is its parent.
fn prev_above<T: Tally, R>(
    store: &NodeStore<R>,
    col: usize,
    mut below: Node,
    mut at: Option<Node>,
) -> Option<Node>
    requires climbs { HasClimb (flipped_tally T.of) (flipped (column_of store.now col)) below at }
    requires below { IsNode (column_of store.now col) below }
    ensures { (path : Path) (t : Tree) →
        Climbs (flipped_tally T.of) (flipped (column_of store.now col)) below at path t →
        result ≡ first_or (after path) None }
{
    while let Some(n) = at {
        let Link { b: right, up, .. } = store.link(n, col);
        if store.is_node(right, below) {
            return Some(n);
        }
        below = n;
        at = up;
    }
    None
}
