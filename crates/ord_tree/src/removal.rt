//! Taking nodes out of a tree.
ghost use Rattle.std.specs.Prelude.{◌≡◌, ◌<◌, ◌⊎◌, Option, Some, None};
ghost use Rattle.node_store.specs.Column.{IsNode};
ghost use Rattle.node_store.specs.Nodes.{Lacks, first_or};
ghost use Rattle.ord_tree.specs.Tree.{Tree, nodes, root, IsAt, left_of, right_of};
ghost use Rattle.ord_tree.specs.Digests.{KeepsDigests};
ghost use Rattle.ord_tree.specs.Steps.{KeepsOthers, KeepsNodes};
ghost use Rattle.ord_tree.specs.Path.{Path, after};
ghost use Rattle.ord_tree.specs.Removal.{Climbs, HasClimb, or_node, HasTree, Whole, HasWhole, HasRoomFor, Without, Substitutes};
ghost use Rattle.node_store.specs.ByNode.{column_of, contents};

use crate::steps::{join, rise};
use crate::tally::Tally;
use node_store::{Link, Node, NodeStore};

/// The first node of the subtree below `n`.
pub(crate) fn first_below<T: Tally, R>(store: &NodeStore<R>, col: usize, n: Node) -> Node
    requires { HasTree T.of (column_of store.now col) (Some n) }
    ensures first { (t : Tree) → IsAt T.of (column_of store.now col) (Some n) t →
        first_or (nodes t) None ≡ Some result }
    ensures leftmost { left_of (column_of store.now col) result ≡ None }
{
    let mut first = n;
    while let Some(left) = store.link(first, col).a {
        first = left;
    }
    first
}

fn either_of(one: Option<Node>, other: Option<Node>) -> Option<Node>
    ensures { result ≡ or_node one other }
{
    if one.is_some() { one } else { other }
}

/// Takes out `n`, which has at most one child. Answers the root; `tree_root` is the root before.
pub(crate) fn splice<T: Tally, R>(
    store: &mut NodeStore<R>,
    col: usize,
    tree_root: Option<Node>,
    n: Node,
) -> Option<Node>
    requires whole { HasWhole T.of (column_of store.old col) tree_root n }
    requires one_child { (left_of (column_of store.old col) n ≡ None) ⊎
        (right_of (column_of store.old col) n ≡ None) }
    ensures tree { (t : Tree) → Whole T.of (column_of store.old col) n t → tree_root ≡ root t →
        Without T.of (column_of store.old col) (column_of store.new col) n t result }
    ensures nodes { KeepsNodes (column_of store.old col) (column_of store.new col) }
    ensures digests { KeepsDigests (column_of store.old col) (column_of store.new col) }
    ensures others { KeepsOthers (column_of store.old) (column_of store.new) col }
    ensures contents { contents store.new ≡ contents store.old }
{
    let link = store.link(n, col);
    rise::<T, R>(store, col, tree_root, n, link, either_of(link.a, link.b))
}

/// Puts `new`, which is not in the tree, in the place of `old`. Answers the root; `tree_root` is the root before.
pub(crate) fn replace<T: Tally, R>(
    store: &mut NodeStore<R>,
    col: usize,
    tree_root: Option<Node>,
    old: Node,
    new: Node,
) -> Option<Node>
    requires node { IsNode (column_of store.old col) new }
    requires room { HasRoomFor T.of (column_of store.old col) old new }
    ensures tree { (t : Tree) → Whole T.of (column_of store.old col) old t → Lacks (nodes t) new →
        tree_root ≡ root t → Substitutes T.of (column_of store.old col)
        (column_of store.new col) old new t result }
    ensures nodes { KeepsNodes (column_of store.old col) (column_of store.new col) }
    ensures digests { KeepsDigests (column_of store.old col) (column_of store.new col) }
    ensures others { KeepsOthers (column_of store.old) (column_of store.new) col }
    ensures contents { contents store.new ≡ contents store.old }
{
    let link = store.link(old, col);
    join::<T, R>(store, col, link.a, new, link.b);
    rise::<T, R>(store, col, tree_root, old, link, Some(new))
}

/// Takes out `n`. Answers the root; `tree_root` is the root before.
pub(crate) fn take_out<T: Tally, R>(
    store: &mut NodeStore<R>,
    col: usize,
    tree_root: Option<Node>,
    n: Node,
) -> Option<Node>
    requires { HasWhole T.of (column_of store.old col) tree_root n }
    ensures tree { (t : Tree) → Whole T.of (column_of store.old col) n t → tree_root ≡ root t →
        Without T.of (column_of store.old col) (column_of store.new col) n t result }
    ensures nodes { KeepsNodes (column_of store.old col) (column_of store.new col) }
    ensures digests { KeepsDigests (column_of store.old col) (column_of store.new col) }
    ensures others { KeepsOthers (column_of store.old) (column_of store.new) col }
    ensures contents { contents store.new ≡ contents store.old }
{
    let Link {
        a: left,
        b: right,
        ..
    } = store.link(n, col);
    if left.is_none() {
        return splice::<T, R>(store, col, tree_root, n);
    }
    let Some(below) = right else {
        return splice::<T, R>(store, col, tree_root, n);
    };
    let next = first_below::<T, R>(store, col, below);
    let short_root = splice::<T, R>(store, col, tree_root, next);
    replace::<T, R>(store, col, short_root, n, next)
}

/// The nearest node above that has the subtree of `below` on its left, where `at` is its parent.
pub(crate) fn next_above<T: Tally, R>(
    store: &NodeStore<R>,
    col: usize,
    mut below: Node,
    mut at: Option<Node>,
) -> Option<Node>
    requires climbs { HasClimb T.of (column_of store.now col) below at }
    requires below { IsNode (column_of store.now col) below }
    ensures { (path : Path) (t : Tree) → Climbs T.of (column_of store.now col) below at path t →
        result ≡ first_or (after path) None }
{
    while let Some(n) = at {
        let Link { a: left, up, .. } = store.link(n, col);
        if store.is_node(left, below) {
            return Some(n);
        }
        below = n;
        at = up;
    }
    None
}
