//! Look-ups by a key.
ghost use Rattle.std.specs.Prelude.{◌≡◌, IfSome, None};
ghost use Rattle.std.specs.declared.cmp.Ordering.TheVariants.{Equal};
ghost use Rattle.hash_index.specs.Stored as chains;
ghost use Rattle.ord_tree.specs.Stored as trees;
ghost use Rattle.container_model.specs.State.{is_ranked_kind, is_sorted_kind};
ghost use Rattle.list_model.specs.Place.{below, not_above, count_equal, find_equal, lower as the_lower, upper as the_upper, find_rank as the_rank};
ghost use Rattle.node_store.specs.Store.{age_of};
ghost use Rattle.any_index.specs.Spelled.{Holds, by_age};

use crate::at::IndexRef;
use crate::index::AnyIndex;
use crate::sound::sound;
use hash_index::HashIndex;
use key_extract::Extract;
use node_store::{Node, NodeStore};
use ord_tree::{NoTally, OrdTree};
use rank_tree::{find_rank, lower_rank, upper_rank};

impl<'a, R, E: Extract<R>> IndexRef<'a, R, E> {
    ghost use Rattle.any_index.specs.At.{list_in, side_in, IsKey, IsLead};

    /// The first node of the index that has the key: of a hashed one, the one that was added first. O(log n) in an index
    /// in order; in a hashed one expected O(1), and O(1 + the nodes that have the key) once nodes came to it that were added
    /// long before others of it. A sequence has no such call.
    pub fn find(&self, probe: &E::Probe) -> Option<Node>
        requires { IsKey E.Extract self.now probe.now }
        ensures { result ≡ find_equal (side_in E.probe_order_of self.now probe.now)
            (list_in self.now) }
    {
        match self.index {
            AnyIndex::Ordered(tree) => tree.find(self.store, self.keys, probe),
            AnyIndex::Ranked(tree) => tree.find(self.store, self.keys, probe),
            AnyIndex::Hashed(buckets) => first_added(buckets, self.store, self.keys, probe),
            AnyIndex::Sequenced(_) | AnyIndex::Random(_) => unreachable!(),
        }
    }

    /// Some node of the index that has the key, whichever it is, or `None` where no node has it. O(log n) in an index in
    /// order, expected O(1) in a hashed one. A sequence has no such call.
    pub fn find_any(&self, probe: &E::Probe) -> Option<Node>
        requires { IsKey E.Extract self.now probe.now }
        ensures found { IfSome result (λ n. Holds (list_in self.now) n ×
            (side_in E.probe_order_of self.now probe.now n ≡ Equal)) }
        ensures none { result ≡ None → find_equal
            (side_in E.probe_order_of self.now probe.now) (list_in self.now) ≡ None }
    {
        match self.index {
            AnyIndex::Hashed(buckets) => buckets.first_of(self.store, self.keys, probe),
            _ => self.find(probe),
        }
    }

    /// How many nodes of the index have the key. In O(log n) comparisons in an index in order, and that many steps where
    /// it has no ranks; expected O(1 + those nodes) in a hashed one. A sequence has no such call.
    pub fn count(&self, probe: &E::Probe) -> u64
        requires { IsKey E.Extract self.now probe.now }
        ensures { result ≡ count_equal (side_in E.probe_order_of self.now probe.now)
            (list_in self.now) }
    {
        match self.index {
            AnyIndex::Ordered(tree) => run_length(tree, self.store, self.keys, probe),
            AnyIndex::Ranked(tree) => {
                upper_rank(tree, self.store, self.keys, probe)
                    - lower_rank(tree, self.store, self.keys, probe)
            }
            AnyIndex::Hashed(buckets) => buckets.count(self.store, self.keys, probe),
            AnyIndex::Sequenced(_) | AnyIndex::Random(_) => unreachable!(),
        }
    }

    /// The first node of an index in order that does not come before the key. O(log n).
    pub fn lower(&self, probe: &E::Probe) -> Option<Node>
        requires { IsLead E.Extract self.now is_sorted_kind probe.now }
        ensures { result ≡ the_lower (side_in E.probe_order_of self.now probe.now)
            (list_in self.now) }
    {
        match self.index {
            AnyIndex::Ordered(tree) => tree.lower(self.store, self.keys, probe),
            AnyIndex::Ranked(tree) => tree.lower(self.store, self.keys, probe),
            AnyIndex::Sequenced(_) | AnyIndex::Random(_) | AnyIndex::Hashed(_) => unreachable!(),
        }
    }

    /// The first node of an index in order that comes after the key. O(log n).
    pub fn upper(&self, probe: &E::Probe) -> Option<Node>
        requires { IsLead E.Extract self.now is_sorted_kind probe.now }
        ensures { result ≡ the_upper (side_in E.probe_order_of self.now probe.now)
            (list_in self.now) }
    {
        match self.index {
            AnyIndex::Ordered(tree) => tree.upper(self.store, self.keys, probe),
            AnyIndex::Ranked(tree) => tree.upper(self.store, self.keys, probe),
            AnyIndex::Sequenced(_) | AnyIndex::Random(_) | AnyIndex::Hashed(_) => unreachable!(),
        }
    }

    /// The rank of the first node of a ranked index that has the key, or the length. O(log n).
    pub fn find_rank(&self, probe: &E::Probe) -> u64
        requires { IsLead E.Extract self.now is_ranked_kind probe.now }
        ensures { result ≡ the_rank (side_in E.probe_order_of self.now probe.now)
            (list_in self.now) }
    {
        match self.index {
            AnyIndex::Ranked(tree) => find_rank(tree, self.store, self.keys, probe),
            AnyIndex::Sequenced(_)
            | AnyIndex::Random(_)
            | AnyIndex::Ordered(_)
            | AnyIndex::Hashed(_) => unreachable!(),
        }
    }

    /// How many nodes of a ranked index come before the key. O(log n).
    pub fn lower_rank(&self, probe: &E::Probe) -> u64
        requires { IsLead E.Extract self.now is_ranked_kind probe.now }
        ensures { result ≡ below (side_in E.probe_order_of self.now probe.now)
            (list_in self.now) }
    {
        match self.index {
            AnyIndex::Ranked(tree) => lower_rank(tree, self.store, self.keys, probe),
            AnyIndex::Sequenced(_)
            | AnyIndex::Random(_)
            | AnyIndex::Ordered(_)
            | AnyIndex::Hashed(_) => unreachable!(),
        }
    }

    /// How many nodes of a ranked index do not come after the key. O(log n).
    pub fn upper_rank(&self, probe: &E::Probe) -> u64
        requires { IsLead E.Extract self.now is_ranked_kind probe.now }
        ensures { result ≡ not_above (side_in E.probe_order_of self.now probe.now)
            (list_in self.now) }
    {
        match self.index {
            AnyIndex::Ranked(tree) => upper_rank(tree, self.store, self.keys, probe),
            AnyIndex::Sequenced(_)
            | AnyIndex::Random(_)
            | AnyIndex::Ordered(_)
            | AnyIndex::Hashed(_) => unreachable!(),
        }
    }
}

// How many nodes of a tree have the key: the steps from the first that does not come before it to the first after it.
fn run_length<R, E: Extract<R>>(
    tree: &OrdTree<NoTally>,
    store: &NodeStore<R>,
    keys: &E,
    probe: &E::Probe,
) -> u64
    requires { trees.CanSearch E.Extract tree.now store.now keys.now probe.now }
    ensures { result ≡ count_equal (trees.side_in E.Extract tree.now store.now keys.now probe.now)
        (trees.nodes_of tree.now store.now) }
{
    let end = tree.upper(store, keys, probe);
    let mut at = tree.lower(store, keys, probe);
    let mut count = 0;
    while let Some(n) = at {
        if store.is_node(end, n) {
            return count;
        }
        count += 1;
        at = tree.next(store, n);
    }
    count
}

// The node that was added first of those that have the whole key.
fn first_added<R, E: Extract<R>>(
    buckets: &HashIndex,
    store: &NodeStore<R>,
    keys: &E,
    probe: &E::Probe,
) -> Option<Node>
    requires { chains.CanSearch E.Extract buckets.now store.now keys.now probe.now }
    ensures { result ≡ find_equal (chains.side_in E.Extract buckets.now store.now keys.now probe.now)
        (by_age (age_of store.now) (chains.nodes_of buckets.now store.now)) }
{
    sound(store);
    buckets.earliest_of(store, keys, probe)
}
