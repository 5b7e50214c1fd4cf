//! Places by a key.
ghost use Rattle.std.specs.Prelude.{◌≡◌, count_by};
ghost use Rattle.std.specs.List.{list_any};
ghost use Rattle.std.specs.Ordering.{is_eq};
ghost use Rattle.list_model.specs.Place.{below, not_above, find_rank as the_rank};
ghost use Rattle.ord_tree.specs.Stored.{side_in, CanSearch, nodes_of};
ghost use Rattle.rank_tree.specs.Sides.{comes_first};

use crate::places::size_of;
use crate::sizes::RankTree;
use key_extract::Extract;
use node_store::{Digest, Link, NodeStore};
use ord_tree::order_to_probe;
use std::cmp::Ordering;

// Whether a node that stands so to a key comes before the place looked for: after its equals, or before them.
fn is_first(after_equals: bool, order: Ordering) -> bool
    ensures { result ≡ comes_first after_equals order }
{
    if after_equals {
        order.is_le()
    } else {
        order.is_lt()
    }
}

/// The rank of the first node that has the key, or the length. O(log n), comparisons included.
pub fn find_rank<R, E: Extract<R>>(
    tree: &RankTree,
    store: &NodeStore<R>,
    keys: &E,
    probe: &E::Probe,
) -> u64
    requires { CanSearch E.Extract tree.now store.now keys.now probe.now }
    ensures { result ≡ the_rank (side_in E.Extract tree.now store.now keys.now probe.now)
        (nodes_of tree.now store.now) }
{
    let (rank, met) = descend(tree, store, keys, probe, false);
    if met {
        rank
    } else {
        size_of(store, tree.col(), tree.root(store))
    }
}

/// How many nodes come before the key. O(log n), comparisons included.
pub fn lower_rank<R, E: Extract<R>>(
    tree: &RankTree,
    store: &NodeStore<R>,
    keys: &E,
    probe: &E::Probe,
) -> u64
    requires { CanSearch E.Extract tree.now store.now keys.now probe.now }
    ensures { result ≡ below (side_in E.Extract tree.now store.now keys.now probe.now)
        (nodes_of tree.now store.now) }
{
    descend(tree, store, keys, probe, false).0
}

/// How many nodes do not come after the key. O(log n), comparisons included.
pub fn upper_rank<R, E: Extract<R>>(
    tree: &RankTree,
    store: &NodeStore<R>,
    keys: &E,
    probe: &E::Probe,
) -> u64
    requires { CanSearch E.Extract tree.now store.now keys.now probe.now }
    ensures { result ≡ not_above (side_in E.Extract tree.now store.now keys.now probe.now)
        (nodes_of tree.now store.now) }
{
    descend(tree, store, keys, probe, true).0
}

// How many nodes come before the key, or do not come after it, and whether one has it.
fn descend<R, E: Extract<R>>(
    tree: &RankTree,
    store: &NodeStore<R>,
    keys: &E,
    probe: &E::Probe,
    after_equals: bool,
) -> (u64, bool)
    requires { CanSearch E.Extract tree.now store.now keys.now probe.now }
    ensures rank { result.0 ≡ count_by
        (λ n. comes_first after_equals
        (side_in E.Extract tree.now store.now keys.now probe.now n))
        (nodes_of tree.now store.now) }
    ensures met { result.1 ≡ list_any
        (λ n. is_eq (side_in E.Extract tree.now store.now keys.now probe.now n))
        (nodes_of tree.now store.now) }
{
    let col = tree.col();
    let index = tree.index();
    let mut at = tree.root(store);
    let mut rank = 0;
    let mut met = false;
    let digest = Digest::of(keys.digest_probe(index, probe));
    while let Some(n) = at {
        let Link {
            a: left,
            b: right,
            digest: own,
            ..
        } = store.link(n, col);
        let order = order_to_probe(keys, index, own, store.get(n), digest, probe);
        met |= order.is_eq();
        if is_first(after_equals, order) {
            rank += size_of(store, col, left) + 1;
            at = right;
        } else {
            at = left;
        }
    }
    (rank, met)
}
