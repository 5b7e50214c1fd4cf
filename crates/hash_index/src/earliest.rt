//! Look-ups of the node that was added first.
ghost use Rattle.std.specs.Prelude.{◌≡◌, IsTrue, None};
ghost use Rattle.node_store.specs.ByNode.{column_of};
ghost use Rattle.node_store.specs.Store.{IsNodeOf, age_of};
ghost use Rattle.seq_index.specs.Links.{AreNodesOf};
ghost use Rattle.hash_index.specs.Earliest.{earlier as the_earlier, earliest_of};
ghost use Rattle.hash_index.specs.Hashed.{matches};
ghost use Rattle.hash_index.specs.Spelled.{index_of};
ghost use Rattle.hash_index.specs.Stored.{side_in, matches_in, HasKey, HaveTheirHash, CanSearch};
ghost use Rattle.hash_index.specs.Walks.{rest_of, Ends};

use crate::HashIndex;
use key_extract::Extract;
use node_store::{Node, NodeStore};

// The one of two nodes that was added first.
fn earlier<R>(store: &NodeStore<R>, first: Option<Node>, n: Node) -> Node
    requires first { AreNodesOf store.now first }
    requires node { IsNodeOf store.now n }
    ensures { result ≡ the_earlier (age_of store.now) first n }
{
    match first {
        Some(m) if store.age(m) <= store.age(n) => m,
        _ => n,
    }
}

impl HashIndex {
    /// The node that was added first of those whose records have the whole key. Expected O(1) where the key's chain is
    /// known to rise, or its first node to be the oldest, and else O(1 + those nodes). A chain rises on whatever goes, and
    /// until a node comes that was added before more than the last eight of it, but not before all.
    pub fn earliest_of<R, E: Extract<R>>(
        &self,
        store: &NodeStore<R>,
        keys: &E,
        probe: &E::Probe,
    ) -> Option<Node>
        requires { CanSearch E.Extract self.now store.now keys.now probe.now }
        ensures { result ≡ earliest_of (age_of store.now) None
            (matches_in E.Extract self.now store.now keys.now probe.now) }
    {
        let hash = keys.hash_probe(self.index, probe);
        let head = self.head(hash);
        if head.is_oldest() {
            if let Some(n) = head.hinted(hash) {
                if self.is_match(store, keys, probe, n) {
                    return Some(n);
                }
            }
        }
        let first = head.node();
        if self.rises(store, first) {
            return self.match_from(store, keys, probe, hash, first);
        }
        self.earliest_from(store, keys, probe, hash, first)
    }

    // The node that was added first of those whose records have the whole key, which has this hash, of a chain from `at`
    // on.
    fn earliest_from<R, E: Extract<R>>(
        &self,
        store: &NodeStore<R>,
        keys: &E,
        probe: &E::Probe,
        hash: u64,
        at: Option<Node>,
    ) -> Option<Node>
        requires ends { Ends (column_of store.now) self.now at }
        requires hashed { HaveTheirHash E.Extract self.now store.now keys.now
            (rest_of (column_of store.now) self.now at) }
        requires hash { hash ≡ E.probe_hash_of keys.now (index_of self.now) probe.now }
        requires has_key { HasKey E.Extract self.now keys.now }
        requires whole { IsTrue (E.is_whole keys.now (index_of self.now) probe.now) }
        ensures { result ≡ earliest_of (age_of store.now) None
            (matches (side_in E.Extract self.now store.now keys.now probe.now)
            (rest_of (column_of store.now) self.now at)) }
    {
        let mut first = None;
        let mut at = at;
        while let Some(n) = at {
            let link = store.link(n, self.col);
            if self.has_key(store, keys, probe, hash, n, link.tag) {
                first = Some(earlier(store, first, n));
            }
            at = link.b;
        }
        first
    }
}
