//! Where the bounds of a range stand in an index in order.
ghost use Rattle.std.specs.Prelude.{◌≡◌, ◌<◌, IsTrue, Some, None, cond, count_by, length, not, option_and_then, slice_get};
ghost use Rattle.std.specs.Range.Bound.{bound_map};
ghost use Rattle.list_model.specs.Place.{is_from, is_to};
ghost use Rattle.node_store.specs.Store.{IsNodeOf};
ghost use Rattle.any_index.specs.Side.{AreNodesOf};
ghost use Rattle.container_model.specs.State.{is_sorted_kind};
ghost use Rattle.container_model.specs.Find.{kind_at};
ghost use Rattle.index_set.specs.Set as nodes;
ghost use Rattle.index_set.specs.Set.{store_of, keys_of, specs_of, list_of};
ghost use Rattle.linked_set.specs.Edges.{node_edge, KeyFits};

use container_model::Entry;
use index_set::{ByRow, IndexSet, Nodes};
use key_extract::Extract;
use node_store::Node;
use std::ops::Bound;

/// The first node of an index in order that stands within the low bound. O(log n).
pub(crate) fn first_from<R, E: Extract<R>>(
    set: &IndexSet<Entry<R>, ByRow<E>>,
    index: usize,
    low: Bound<&E::Probe>,
) -> Option<Node>
    requires index { index < length (specs_of set.now) }
    requires kind { IsTrue (is_sorted_kind (nodes.kind_at set.now index)) }
    requires fits { KeyFits (E.does_fit (keys_of set.now).keys index) (bound_map (λ p. p.now) low) }
    ensures { result ≡ slice_get (list_of set.now index)
        (count_by
        (λ n. not
        (is_from (node_edge E.probe_order_of set.now index (bound_map (λ p. p.now) low.entry)) n))
        (list_of set.now index)) }
{
    match low {
        Bound::Included(probe) => set.at(index).lower(probe),
        Bound::Excluded(probe) => set.at(index).upper(probe),
        Bound::Unbounded => set.at(index).first(),
    }
}

/// The node, if it stands within the high bound.
pub(crate) fn up_to<R, E: Extract<R>>(
    set: &IndexSet<Entry<R>, ByRow<E>>,
    index: usize,
    node: Option<Node>,
    high: Bound<&E::Probe>,
) -> Option<Node>
    requires node { AreNodesOf (store_of set.now) node }
    requires has { IsTrue (E.has_key (keys_of set.now).keys index) }
    requires fits { KeyFits (E.does_fit (keys_of set.now).keys index)
        (bound_map (λ p. p.now) high) }
    ensures { result ≡ option_and_then
        (λ n. cond
        (is_to (node_edge E.probe_order_of set.now index (bound_map (λ p. p.now) high.entry)) n)
        (Some n) None) node }
{
    let node = node?;
    if is_up_to(set, index, node, high) {
        Some(node)
    } else {
        None
    }
}

// Whether a node stands within the high bound.
fn is_up_to<R, E: Extract<R>>(
    set: &IndexSet<Entry<R>, ByRow<E>>,
    index: usize,
    node: Node,
    high: Bound<&E::Probe>,
) -> bool
    requires node { IsNodeOf (store_of set.now) node }
    requires has { IsTrue (E.has_key (keys_of set.now).keys index) }
    requires fits { KeyFits (E.does_fit (keys_of set.now).keys index)
        (bound_map (λ p. p.now) high) }
    ensures { result ≡ is_to (node_edge E.probe_order_of set.now index
        (bound_map (λ p. p.now) high.entry)) node }
{
    match high {
        Bound::Included(probe) => set
            .keys()
            .order_probe(index, set.store().get(node), probe)
            .is_le(),
        Bound::Excluded(probe) => set
            .keys()
            .order_probe(index, set.store().get(node), probe)
            .is_lt(),
        Bound::Unbounded => true,
    }
}
