//! Walks and places of an index that has an order.
ghost use Rattle.std.specs.Prelude.{◌≡◌, not, slice_get, IsTrue};
ghost use Rattle.container_model.specs.State.{has_places_kind, is_hashed_kind};
ghost use Rattle.list_model.specs.Walk.{place_of as the_place, next as the_next, prev as the_prev, last as the_last};
ghost use Rattle.node_store.specs.ByNode.{same_node};
ghost use Rattle.any_index.specs.Spelled.{Holds};
ghost use Rattle.any_index.specs.Stored.{HasNodeOfKind, IsOfKind, nodes_of};

use crate::at::IndexRef;
use crate::index::AnyIndex;
use key_extract::Extract;
use node_store::{Node, NodeStore};

impl<'a, R, E: Extract<R>> IndexRef<'a, R, E> {
    ghost use Rattle.any_index.specs.At.{list_in, kind_in};

    /// The first node of the index. O(log n) in an index in order, O(1) in a sequence. A hashed one has no such call.
    pub fn first(&self) -> Option<Node>
        requires { IsTrue (not (is_hashed_kind (kind_in self.now))) }
        ensures { result ≡ slice_get (list_in self.now) 0 }
    {
        match self.index {
            AnyIndex::Sequenced(sequence) => sequence.first(self.store),
            AnyIndex::Random(row) => row.first(self.store),
            AnyIndex::Ordered(tree) => tree.first(self.store),
            AnyIndex::Ranked(tree) => tree.first(self.store),
            AnyIndex::Hashed(_) => unreachable!(),
        }
    }

    /// The last node of the index. O(log n) in an index in order, O(1) in a sequence. A hashed one has no such call.
    pub fn last(&self) -> Option<Node>
        requires { IsTrue (not (is_hashed_kind (kind_in self.now))) }
        ensures { result ≡ the_last (list_in self.now) }
    {
        match self.index {
            AnyIndex::Sequenced(sequence) => sequence.last(self.store),
            AnyIndex::Random(row) => row.last(self.store),
            AnyIndex::Ordered(tree) => tree.last(self.store),
            AnyIndex::Ranked(tree) => tree.last(self.store),
            AnyIndex::Hashed(_) => unreachable!(),
        }
    }

    /// The node of the index after `n`, or `None` at the end. O(log n) in an index in order, and O(1) on average over a
    /// whole walk; O(1) in a sequence. A hashed one has no such call.
    #[inline(always)]
    pub fn next(&self, n: Node) -> Option<Node>
        requires kind { IsTrue (not (is_hashed_kind (kind_in self.now))) }
        requires held { Holds (list_in self.now) n }
        ensures { result ≡ the_next (same_node n) (list_in self.now) }
    {
        node_after(self.index, self.store, n)
    }

    /// The node of the index before `n`, or `None` at the front. The costs are those of `next`. A hashed one has no such
    /// call.
    #[inline(always)]
    pub fn prev(&self, n: Node) -> Option<Node>
        requires kind { IsTrue (not (is_hashed_kind (kind_in self.now))) }
        requires held { Holds (list_in self.now) n }
        ensures { result ≡ the_prev (same_node n) (list_in self.now) }
    {
        node_before(self.index, self.store, n)
    }

    /// The node at a place of the index, counted from 0, or `None` past the end: O(log n) in a ranked index, O(1) in a
    /// sequence with places. Others have no such call.
    #[inline(always)]
    pub fn nth(&self, place: u64) -> Option<Node>
        requires { IsTrue (has_places_kind (kind_in self.now)) }
        ensures { result ≡ slice_get (list_in self.now) place }
    {
        node_at(self.index, self.store, place)
    }

    /// The place of `n` in the index, counted from 0: O(log n) in a ranked index, O(1) in a sequence with places. It reads
    /// no record. Others have no such call.
    #[inline(always)]
    pub fn place_of(&self, n: Node) -> u64
        requires kind { IsTrue (has_places_kind (kind_in self.now)) }
        requires held { Holds (list_in self.now) n }
        ensures { result ≡ the_place (same_node n) (list_in self.now) }
    {
        place_in(self.index, self.store, n)
    }
}

// The node after `n`. Three words go from step to step of a walk, and no struct in memory.
fn node_after<R>(index: &AnyIndex, store: &NodeStore<R>, n: Node) -> Option<Node>
    requires { HasNodeOfKind (λ kind. not (is_hashed_kind kind)) index.now store.now n }
    ensures { result ≡ the_next (same_node n) (nodes_of index.now store.now) }
{
    match index {
        AnyIndex::Sequenced(sequence) => return sequence.next(store, n),
        AnyIndex::Random(row) => return row.next(store, n),
        AnyIndex::Ordered(tree) => tree.next(store, n),
        AnyIndex::Ranked(tree) => tree.next(store, n),
        AnyIndex::Hashed(_) => unreachable!(),
    }
}

// The node before `n`.
fn node_before<R>(index: &AnyIndex, store: &NodeStore<R>, n: Node) -> Option<Node>
    requires { HasNodeOfKind (λ kind. not (is_hashed_kind kind)) index.now store.now n }
    ensures { result ≡ the_prev (same_node n) (nodes_of index.now store.now) }
{
    match index {
        AnyIndex::Sequenced(sequence) => return sequence.prev(store, n),
        AnyIndex::Random(row) => return row.prev(store, n),
        AnyIndex::Ordered(tree) => tree.prev(store, n),
        AnyIndex::Ranked(tree) => tree.prev(store, n),
        AnyIndex::Hashed(_) => unreachable!(),
    }
}

// The node at a place.
fn node_at<R>(index: &AnyIndex, store: &NodeStore<R>, place: u64) -> Option<Node>
    requires { IsOfKind has_places_kind index.now store.now }
    ensures { result ≡ slice_get (nodes_of index.now store.now) place }
{
    match index {
        AnyIndex::Random(row) => row.nth(store, place),
        AnyIndex::Ranked(tree) => rank_tree::nth(tree, store, place),
        AnyIndex::Sequenced(_) | AnyIndex::Ordered(_) | AnyIndex::Hashed(_) => unreachable!(),
    }
}

// The place of `n`.
fn place_in<R>(index: &AnyIndex, store: &NodeStore<R>, n: Node) -> u64
    requires { HasNodeOfKind has_places_kind index.now store.now n }
    ensures { result ≡ the_place (same_node n) (nodes_of index.now store.now) }
{
    match index {
        AnyIndex::Random(row) => row.place_of(store, n),
        AnyIndex::Ranked(tree) => rank_tree::rank(tree, store, n),
        AnyIndex::Sequenced(_) | AnyIndex::Ordered(_) | AnyIndex::Hashed(_) => unreachable!(),
    }
}
