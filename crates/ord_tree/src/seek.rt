//! Look-ups by a key.
ghost use Rattle.std.specs.Prelude.{◌≡◌, ◌<◌, find};
ghost use Rattle.list_model.specs.Place.{lower as the_lower, upper as the_upper, find_equal};
ghost use Rattle.ord_tree.specs.Seek.{Which, NotBefore, Same, After, is_sought, comes_before};

use crate::order::{either, order_to_probe};
use crate::tally::Tally;
use crate::tree::OrdTree;
use key_extract::Extract;
use node_store::{Digest, Node, NodeStore};
use std::cmp::Ordering;

/// The nodes that a descent looks for, by how they stand to its key: it finds the first of them.
pub(crate) trait Sought {
    /// Which these are.
    ghost which: { Which };

    /// Whether a node that stands so to the key is looked for.
    fn is(order: Ordering) -> bool
        ensures { result ≡ is_sought which order };

    /// Whether a node that stands so to the key comes before all that are looked for.
    fn comes_after(order: Ordering) -> bool
        ensures { result ≡ comes_before which order };
}

/// Those that have the key or come after it.
pub(crate) struct FromKey;

impl Sought for FromKey {
    ghost which = { NotBefore };

    fn is(order: Ordering) -> bool {
        !order.is_lt()
    }

    fn comes_after(order: Ordering) -> bool {
        order.is_lt()
    }
}

/// Those that have the key.
pub(crate) struct OfKey;

impl Sought for OfKey {
    ghost which = { Same };

    fn is(order: Ordering) -> bool {
        order.is_eq()
    }

    fn comes_after(order: Ordering) -> bool {
        order.is_lt()
    }
}

/// Those that come after the key.
pub(crate) struct PastKey;

impl Sought for PastKey {
    ghost which = { After };

    fn is(order: Ordering) -> bool {
        !order.is_le()
    }

    fn comes_after(order: Ordering) -> bool {
        order.is_le()
    }
}

impl<T: Tally> OrdTree<T> {
    ghost use Rattle.ord_tree.specs.Stored.{AreFew, nodes_of, side_in, CanSearch};

    /// The first node that has the key. O(log n).
    pub fn find<R, E: Extract<R>>(
        &self,
        store: &NodeStore<R>,
        keys: &E,
        probe: &E::Probe,
    ) -> Option<Node>
        requires { CanSearch E.Extract self.now store.now keys.now probe.now }
        ensures { result ≡ find_equal (side_in E.Extract self.now store.now keys.now probe.now)
            (nodes_of self.now store.now) }
    {
        self.find_counted(store, keys, probe).0
    }

    /// The same, and how many nodes were compared with the key: at most twice the binary digits of n.
    pub fn find_counted<R, E: Extract<R>>(
        &self,
        store: &NodeStore<R>,
        keys: &E,
        probe: &E::Probe,
    ) -> (Option<Node>, u64)
        requires { CanSearch E.Extract self.now store.now keys.now probe.now }
        ensures node { result.0 ≡ find_equal
            (side_in E.Extract self.now store.now keys.now probe.now)
            (nodes_of self.now store.now) }
        ensures few { AreFew result.1 (nodes_of self.now store.now) }
    {
        self.descend::<R, E, OfKey>(store, keys, probe)
    }

    /// The first node that does not come before the key. O(log n).
    pub fn lower<R, E: Extract<R>>(
        &self,
        store: &NodeStore<R>,
        keys: &E,
        probe: &E::Probe,
    ) -> Option<Node>
        requires { CanSearch E.Extract self.now store.now keys.now probe.now }
        ensures { result ≡ the_lower (side_in E.Extract self.now store.now keys.now probe.now)
            (nodes_of self.now store.now) }
    {
        self.lower_counted(store, keys, probe).0
    }

    /// The same, and how many nodes were compared with the key: at most twice the binary digits of n.
    pub fn lower_counted<R, E: Extract<R>>(
        &self,
        store: &NodeStore<R>,
        keys: &E,
        probe: &E::Probe,
    ) -> (Option<Node>, u64)
        requires { CanSearch E.Extract self.now store.now keys.now probe.now }
        ensures node { result.0 ≡ the_lower
            (side_in E.Extract self.now store.now keys.now probe.now)
            (nodes_of self.now store.now) }
        ensures few { AreFew result.1 (nodes_of self.now store.now) }
    {
        self.descend::<R, E, FromKey>(store, keys, probe)
    }

    /// The first node that comes after the key. O(log n).
    pub fn upper<R, E: Extract<R>>(
        &self,
        store: &NodeStore<R>,
        keys: &E,
        probe: &E::Probe,
    ) -> Option<Node>
        requires { CanSearch E.Extract self.now store.now keys.now probe.now }
        ensures { result ≡ the_upper (side_in E.Extract self.now store.now keys.now probe.now)
            (nodes_of self.now store.now) }
    {
        self.upper_counted(store, keys, probe).0
    }

    /// The same, and how many nodes were compared with the key: at most twice the binary digits of n.
    pub fn upper_counted<R, E: Extract<R>>(
        &self,
        store: &NodeStore<R>,
        keys: &E,
        probe: &E::Probe,
    ) -> (Option<Node>, u64)
        requires { CanSearch E.Extract self.now store.now keys.now probe.now }
        ensures node { result.0 ≡ the_upper
            (side_in E.Extract self.now store.now keys.now probe.now)
            (nodes_of self.now store.now) }
        ensures few { AreFew result.1 (nodes_of self.now store.now) }
    {
        self.descend::<R, E, PastKey>(store, keys, probe)
    }

    // The first node that is looked for, and how many were compared with the key.
    fn descend<R, E: Extract<R>, S: Sought>(
        &self,
        store: &NodeStore<R>,
        keys: &E,
        probe: &E::Probe,
    ) -> (Option<Node>, u64)
        requires { CanSearch E.Extract self.now store.now keys.now probe.now }
        ensures node { result.0 ≡ find (λ n. is_sought S.which
            (side_in E.Extract self.now store.now keys.now probe.now n))
            (nodes_of self.now store.now) }
        ensures few { AreFew result.1 (nodes_of self.now store.now) }
    {
        let mut found = None;
        let mut at = self.root;
        let mut comparisons = 0;
        let digest = Digest::of(keys.digest_probe(self.index, probe));
        while let Some(n) = at {
            let link = store.link(n, self.col);
            let order = order_to_probe(keys, self.index, link.digest, store.get(n), digest, probe);
            comparisons += 1;
            found = either(S::is(order), n, found);
            at = store.side(n, self.col, S::comes_after(order));
        }
        (found, comparisons)
    }
}
