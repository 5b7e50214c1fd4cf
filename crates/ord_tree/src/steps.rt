//! The steps of a change of a tree.
ghost use Rattle.std.specs.Prelude.{◌≡◌, ◌+◌, ◌<◌, ◌≤◌, Option, Some, None, IfSome, IsTrue, ◌↔◌};
ghost use Rattle.node_store.specs.Column.{IsNode};
ghost use Rattle.node_store.specs.declared.Link.{Link};
ghost use Rattle.ord_tree.specs.Tree.{Tree, Leaf, Fork, root, nodes, Hangs, stored_height, stored_tag, stored_digest, AreNodes};
ghost use Rattle.ord_tree.specs.Path.{Path, plug, IsLike, Replaced, ReplacedAt, Hung, Rises, Grafted, GraftedSide, Turned, Lifts, HasLift, Lifted};
ghost use Rattle.ord_tree.specs.Digests.{KeepsDigests, KeepsOtherDigests};
ghost use Rattle.ord_tree.specs.Steps.{CanHang, KeepsOthers, KeepsNodes, SetsUp, Joins, Sides, Becomes, rotated_right, rotated_left, rebalanced, IsHeightOver, child_at, pair_at};
ghost use Rattle.node_store.specs.ByNode.{column_of, contents};

use crate::tally::Tally;
use node_store::{Digest, Link, Node, NodeStore};

/// The height of the subtree below `child`.
pub(crate) fn height_of<R>(store: &NodeStore<R>, col: usize, child: Option<Node>) -> u8
    requires { AreNodes (column_of store.now col) child }
    ensures { result ≡ stored_height (column_of store.now col) child }
{
    match child {
        None => 0,
        Some(n) => store.link(n, col).height,
    }
}

/// The tally of the subtree below `child`.
fn tally_of<R>(store: &NodeStore<R>, col: usize, child: Option<Node>) -> u64
    requires { AreNodes (column_of store.now col) child }
    ensures { result ≡ stored_tag (column_of store.now col) child }
{
    match child {
        None => 0,
        Some(n) => store.link(n, col).tag,
    }
}

/// Hangs the subtree below `child` under another parent.
pub(crate) fn set_up<T: Tally, R>(
    store: &mut NodeStore<R>,
    col: usize,
    child: Option<Node>,
    parent: Option<Node>,
)
    requires { AreNodes (column_of store.old col) child }
    ensures up { SetsUp T.of (column_of store.old col) (column_of store.new col) child parent }
    ensures digests { KeepsDigests (column_of store.old col) (column_of store.new col) }
    ensures others { KeepsOthers (column_of store.old) (column_of store.new) col }
    ensures contents { contents store.new ≡ contents store.old }
{
    if let Some(n) = child {
        let link = store.link(n, col);
        store.set_link(n, col, Link { up: parent, ..link });
    }
}

/// Makes `n` the root of a tree of two subtrees.
pub(crate) fn join<T: Tally, R>(
    store: &mut NodeStore<R>,
    col: usize,
    left: Option<Node>,
    n: Node,
    right: Option<Node>,
)
    requires node { IsNode (column_of store.old col) n }
    requires left { CanHang (column_of store.old col) left }
    requires right { CanHang (column_of store.old col) right }
    ensures joined { Joins T.of (column_of store.old col) (column_of store.new col) left n right }
    ensures digests { KeepsDigests (column_of store.old col) (column_of store.new col) }
    ensures others { KeepsOthers (column_of store.old) (column_of store.new) col }
    ensures contents { contents store.new ≡ contents store.old }
{
    let height = height_of(store, col, left).max(height_of(store, col, right)) + 1;
    let link = Link {
        a: left,
        b: right,
        up: None,
        tag: T::of(tally_of(store, col, left), tally_of(store, col, right)),
        height,
        digest: store.link(n, col).digest,
    };
    store.set_link(n, col, link);
    set_up::<T, R>(store, col, left, Some(n));
    set_up::<T, R>(store, col, right, Some(n));
}

/// Makes `n` a tree of its own, with this digest.
pub(crate) fn plant<T: Tally, R>(store: &mut NodeStore<R>, col: usize, n: Node, digest: Digest)
    requires node { IsNode (column_of store.old col) n }
    ensures joined { Joins T.of (column_of store.old col) (column_of store.new col) None n None }
    ensures digest { stored_digest (column_of store.new col) n ≡ digest }
    ensures digests { KeepsOtherDigests (column_of store.old col) (column_of store.new col) n }
    ensures others { KeepsOthers (column_of store.old) (column_of store.new) col }
    ensures contents { contents store.new ≡ contents store.old }
{
    let link = Link {
        a: None,
        b: None,
        up: None,
        tag: T::of(0, 0),
        height: 1,
        digest,
    };
    store.set_link(n, col, link);
}

/// Rotates to the right: the left side of `n` is too high, and its root goes up, or the middle below it.
fn rotate_right<T: Tally, R>(
    store: &mut NodeStore<R>,
    col: usize,
    left: Node,
    n: Node,
    right: Option<Node>,
) -> Node
    requires node { IsNode (column_of store.old col) n }
    requires sides { Sides T.of (column_of store.old col) (Some left) n right }
    ensures tree { (s : Sides T.of (column_of store.old col) (Some left) n right) →
        Becomes T.of (column_of store.old col) (column_of store.new col) None (nodes (Fork s.l n s.r))
        (rotated_right s.l n s.r) result }
    ensures nodes { KeepsNodes (column_of store.old col) (column_of store.new col) }
    ensures digests { KeepsDigests (column_of store.old col) (column_of store.new col) }
    ensures others { KeepsOthers (column_of store.old) (column_of store.new) col }
    ensures contents { contents store.new ≡ contents store.old }
{
    let Link {
        a: outer,
        b: inner,
        ..
    } = store.link(left, col);
    if height_of(store, col, inner) <= height_of(store, col, outer) {
        join::<T, R>(store, col, inner, n, right);
        join::<T, R>(store, col, outer, left, Some(n));
        return left;
    }
    let Some(middle) = inner else { unreachable!() };
    let Link {
        a: first,
        b: second,
        ..
    } = store.link(middle, col);
    join::<T, R>(store, col, outer, left, first);
    join::<T, R>(store, col, second, n, right);
    join::<T, R>(store, col, Some(left), middle, Some(n));
    middle
}

/// Rotates to the left: the right side of `n` is too high, and its root goes up, or the middle below it.
fn rotate_left<T: Tally, R>(
    store: &mut NodeStore<R>,
    col: usize,
    left: Option<Node>,
    n: Node,
    right: Node,
) -> Node
    requires node { IsNode (column_of store.old col) n }
    requires sides { Sides T.of (column_of store.old col) left n (Some right) }
    ensures tree { (s : Sides T.of (column_of store.old col) left n (Some right)) →
        Becomes T.of (column_of store.old col) (column_of store.new col) None (nodes (Fork s.l n s.r))
        (rotated_left s.l n s.r) result }
    ensures nodes { KeepsNodes (column_of store.old col) (column_of store.new col) }
    ensures digests { KeepsDigests (column_of store.old col) (column_of store.new col) }
    ensures others { KeepsOthers (column_of store.old) (column_of store.new) col }
    ensures contents { contents store.new ≡ contents store.old }
{
    let Link {
        a: inner,
        b: outer,
        ..
    } = store.link(right, col);
    if height_of(store, col, inner) <= height_of(store, col, outer) {
        join::<T, R>(store, col, left, n, inner);
        join::<T, R>(store, col, Some(n), right, outer);
        return right;
    }
    let Some(middle) = inner else { unreachable!() };
    let Link {
        a: first,
        b: second,
        ..
    } = store.link(middle, col);
    join::<T, R>(store, col, left, n, first);
    join::<T, R>(store, col, second, right, outer);
    join::<T, R>(store, col, Some(n), middle, Some(right));
    middle
}

/// Makes a balanced tree of two sides whose heights differ by at most two, with `n` between them.
#[inline(never)]
fn balance<T: Tally, R>(
    store: &mut NodeStore<R>,
    col: usize,
    left: Option<Node>,
    n: Node,
    right: Option<Node>,
) -> Node
    requires node { IsNode (column_of store.old col) n }
    requires sides { Sides T.of (column_of store.old col) left n right }
    ensures tree { (s : Sides T.of (column_of store.old col) left n right) →
        Becomes T.of (column_of store.old col) (column_of store.new col) None (nodes (Fork s.l n s.r))
        (rebalanced s.l n s.r) result }
    ensures nodes { KeepsNodes (column_of store.old col) (column_of store.new col) }
    ensures digests { KeepsDigests (column_of store.old col) (column_of store.new col) }
    ensures others { KeepsOthers (column_of store.old) (column_of store.new) col }
    ensures contents { contents store.new ≡ contents store.old }
{
    let left_height = height_of(store, col, left);
    let right_height = height_of(store, col, right);
    if left_height > right_height + 1 {
        let Some(high) = left else { unreachable!() };
        return rotate_right::<T, R>(store, col, high, n, right);
    }
    if right_height > left_height + 1 {
        let Some(high) = right else { unreachable!() };
        return rotate_left::<T, R>(store, col, left, n, high);
    }
    join::<T, R>(store, col, left, n, right);
    n
}

/// Whether the subtree below `new` has the root `old`, and the height and the tally that `link` gives.
fn is_like<R>(store: &NodeStore<R>, col: usize, new: Option<Node>, old: Node, link: Link) -> bool
    requires new { AreNodes (column_of store.now col) new }
    requires old { IsNode (column_of store.now col) old }
    ensures { IsTrue result ↔ IsLike (column_of store.now col) new old link }
{
    if !store.is_node(new, old) {
        return false;
    }
    let now = store.link(old, col);
    now.height == link.height && now.tag == link.tag
}

/// The child of `n` on the right, or that on the left.
fn child<R>(store: &NodeStore<R>, col: usize, n: Node, on_right: bool) -> Option<Node>
    requires { IsNode (column_of store.now col) n }
    ensures { (link : Link) → column_of store.now col n ≡ Some link →
        result ≡ child_at on_right link }
{
    let link = store.link(n, col);
    if on_right { link.b } else { link.a }
}

/// The child on the right, or that on the left, and the other one, from left to right.
fn in_order(
    on_right: bool,
    child: Option<Node>,
    other: Option<Node>,
) -> (Option<Node>, Option<Node>)
    ensures { result ≡ pair_at on_right child other }
{
    if on_right {
        (other, child)
    } else {
        (child, other)
    }
}

/// The height of a node of height `own`, once that of one of its sides, which was `was`, is `now`; `None` where its sides
/// differ by more than one then. It reads the other side only where that decides.
fn height_over<R>(
    store: &NodeStore<R>,
    col: usize,
    own: u8,
    was: u8,
    now: u8,
    other: Option<Node>,
) -> Option<u8>
    requires other { AreNodes (column_of store.now col) other }
    requires own { IsHeightOver own was (stored_height (column_of store.now col) other) }
    requires near { (now ≤ was + 1) × (was ≤ now + 1) }
    requires low { own < 200 }
    ensures { IfSome result (λ height. IsHeightOver height now (stored_height (column_of store.now col) other)) }
{
    if was <= now && now < own {
        return Some(own);
    }
    let other_height = height_of(store, col, other);
    if now > other_height + 1 || other_height > now + 1 {
        return None;
    }
    Some(now.max(other_height) + 1)
}

/// Makes the subtree below `new`, which hangs under `n`, its child on this side, where that was of another height and
/// tally, and balances `n`. Answers the root of the subtree that `n` was the root of, under the same parent.
#[inline(always)]
fn lift<T: Tally, R>(
    store: &mut NodeStore<R>,
    col: usize,
    n: Node,
    on_right: bool,
    height_was: u8,
    tag_was: u64,
    new: Option<Node>,
) -> Node
    requires { HasLift T.of (column_of store.old col) n on_right height_was tag_was new }
    ensures tree { (path : Path) (was now : Tree) →
        Lifts T.of (column_of store.old col) n on_right height_was tag_was new path was now →
        Lifted T.of (column_of store.old col) (column_of store.new col) n path now result }
    ensures nodes { KeepsNodes (column_of store.old col) (column_of store.new col) }
    ensures digests { KeepsDigests (column_of store.old col) (column_of store.new col) }
    ensures others { KeepsOthers (column_of store.old) (column_of store.new) col }
    ensures contents { contents store.new ≡ contents store.old }
{
    let link = store.link(n, col);
    let tag = T::moved(link.tag, tag_was, tally_of(store, col, new));
    let now = height_of(store, col, new);
    let other = child(store, col, n, !on_right);
    let (a, b) = in_order(on_right, new, other);
    if let Some(height) = height_over(store, col, link.height, height_was, now, other) {
        let lifted = Link {
            a,
            b,
            tag,
            height,
            ..link
        };
        store.set_link(n, col, lifted);
        return n;
    }
    let top = balance::<T, R>(store, col, a, n, b);
    set_up::<T, R>(store, col, Some(top), link.up);
    top
}

/// Puts the subtree below `new` in the place of the one that had the root `old` with the links `link`,
/// and balances the nodes from there up, as long as a subtree is not like the one that it replaces. Answers
/// the root of the whole tree; `tree_root` is the root before.
pub(crate) fn rise<T: Tally, R>(
    store: &mut NodeStore<R>,
    col: usize,
    tree_root: Option<Node>,
    old: Node,
    link: Link,
    new: Option<Node>,
) -> Option<Node>
    requires replaced { Replaced T.of (column_of store.old col) old link new }
    requires old { IsNode (column_of store.old col) old }
    ensures tree { (path : Path) (was now : Tree) →
        ReplacedAt T.of (column_of store.old col) old link new path was now →
        tree_root ≡ root (plug path was) →
        Rises T.of (column_of store.old col) (column_of store.new col) path now result }
    ensures nodes { KeepsNodes (column_of store.old col) (column_of store.new col) }
    ensures digests { KeepsDigests (column_of store.old col) (column_of store.new col) }
    ensures others { KeepsOthers (column_of store.old) (column_of store.new) col }
    ensures contents { contents store.new ≡ contents store.old }
{
    set_up::<T, R>(store, col, new, link.up);
    climb::<T, R>(store, col, tree_root, old, link, new)
}

/// The same, where the subtree below `new` hangs there. A level changes its own links alone where it stays in balance.
#[inline(always)]
fn climb<T: Tally, R>(
    store: &mut NodeStore<R>,
    col: usize,
    tree_root: Option<Node>,
    mut old: Node,
    mut link: Link,
    mut new: Option<Node>,
) -> Option<Node>
    requires hung { Hung T.of (column_of store.old col) old link new }
    requires old { IsNode (column_of store.old col) old }
    ensures tree { (path : Path) (was now : Tree) →
        ReplacedAt T.of (column_of store.old col) old link new path was now →
        Hangs T.of (column_of store.old col) link.up now → tree_root ≡ root (plug path was) →
        Rises T.of (column_of store.old col) (column_of store.new col) path now result }
    ensures nodes { KeepsNodes (column_of store.old col) (column_of store.new col) }
    ensures digests { KeepsDigests (column_of store.old col) (column_of store.new col) }
    ensures others { KeepsOthers (column_of store.old) (column_of store.new) col }
    ensures contents { contents store.new ≡ contents store.old }
{
    while let Some(n) = link.up {
        if is_like(store, col, new, old, link) {
            return tree_root;
        }
        let above = store.link(n, col);
        let on_right = !store.is_node(above.a, old);
        let top = lift::<T, R>(store, col, n, on_right, link.height, link.tag, new);
        old = n;
        link = above;
        new = Some(top);
    }
    new
}

/// Makes the subtree below `new` a child of `at`, on the right or on the left, where there is none, and balances the nodes
/// from there up. Answers the root of the whole tree; `tree_root` is the root before.
pub(crate) fn graft<T: Tally, R>(
    store: &mut NodeStore<R>,
    col: usize,
    tree_root: Option<Node>,
    at: Option<Node>,
    on_right: bool,
    new: Option<Node>,
) -> Option<Node>
    requires { GraftedSide T.of (column_of store.old col) at on_right new }
    ensures tree { (path : Path) (now : Tree) →
        Grafted T.of (column_of store.old col) at new path Leaf now → Turned path on_right →
        tree_root ≡ root (plug path Leaf) →
        Rises T.of (column_of store.old col) (column_of store.new col) path now result }
    ensures nodes { KeepsNodes (column_of store.old col) (column_of store.new col) }
    ensures digests { KeepsDigests (column_of store.old col) (column_of store.new col) }
    ensures others { KeepsOthers (column_of store.old) (column_of store.new) col }
    ensures contents { contents store.new ≡ contents store.old }
{
    let Some(n) = at else {
        set_up::<T, R>(store, col, new, None);
        return new;
    };
    set_up::<T, R>(store, col, new, Some(n));
    let link = store.link(n, col);
    let top = lift::<T, R>(store, col, n, on_right, 0, 0, new);
    climb::<T, R>(store, col, tree_root, n, link, Some(top))
}
