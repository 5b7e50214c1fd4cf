//! Look-ups by a key.
ghost use Rattle.std.specs.Prelude.{◌≡◌, ◌≢◌, IsTrue, false, not, ◌&&◌, slice_get, option_and_then, Option, Some, None};
ghost use Rattle.std.specs.Option.{option_map_or};
ghost use Rattle.std.specs.Ordering.{is_eq};
ghost use Rattle.node_store.specs.declared.Node.{Node};
ghost use Rattle.node_store.specs.Store.{IsNodeOf};
ghost use Rattle.node_store.specs.ByNode.{column_of, same_node};
ghost use Rattle.list_model.specs.Place.{count_equal, find_equal};
ghost use Rattle.list_model.specs.Walk.{next as the_next};
ghost use Rattle.seq_index.specs.Links.{AreNodesOf};
ghost use Rattle.hash_index.specs.Spelled.{col_of, index_of, all_of, leads_to, Holds};
ghost use Rattle.hash_index.specs.Stored.{nodes_of, side_in, record_side_in, matches_in, HasKey, HasItsHash, HaveTheirHash, IsHashedBut, CanSearch};
ghost use Rattle.hash_index.specs.Hashed.{others};
ghost use Rattle.hash_index.specs.Chains.{tag_at};
ghost use Rattle.hash_index.specs.Heads.{first_in, start_in};
ghost use Rattle.hash_index.specs.Walks.{rest_of, Ends};

use crate::HashIndex;
use crate::head::Head;
use key_extract::Extract;
use node_store::{Node, NodeStore};
use std::cmp::Ordering;

// Whether the node is the excepted one.
fn is_excepted<R>(store: &NodeStore<R>, except: Option<Node>, n: Node) -> bool
    requires except { AreNodesOf store.now except }
    requires node { IsNodeOf store.now n }
    ensures { result ≡ option_map_or (λ m. same_node m n) except false }
{
    store.is_node(except, n)
}

impl HashIndex {
    /// A node other than the excepted one whose record has the key of `r`. The excepted one's record may have changed.
    /// Expected O(1).
    pub fn same_as<R, E: Extract<R>>(
        &self,
        store: &NodeStore<R>,
        keys: &E,
        r: &R,
        except: Option<Node>,
    ) -> Option<Node>
        requires others { IsHashedBut E.Extract except self.now store.now keys.now }
        requires except { AreNodesOf store.now except }
        ensures { result ≡ find_equal (record_side_in E.Extract self.now store.now keys.now r.now)
            (others except (nodes_of self.now store.now)) }
    {
        let hash = keys.hash(self.index, r);
        let mut at = self.head(hash).node();
        while let Some(n) = at {
            let tag = store.link(n, self.col).tag;
            if self.is_other(store, keys, r, hash, except, n, tag) {
                return Some(n);
            }
            at = store.link(n, self.col).b;
        }
        None
    }

    /// A first node whose record has the whole key. Expected O(1).
    pub fn first_of<R, E: Extract<R>>(
        &self,
        store: &NodeStore<R>,
        keys: &E,
        probe: &E::Probe,
    ) -> Option<Node>
        requires { CanSearch E.Extract self.now store.now keys.now probe.now }
        ensures { result ≡ slice_get
            (matches_in E.Extract self.now store.now keys.now probe.now) 0 }
    {
        let hash = keys.hash_probe(self.index, probe);
        let head = self.head(hash);
        if let Some(n) = head.hinted(hash) {
            if self.is_match(store, keys, probe, n) {
                return Some(n);
            }
        }
        self.match_from(store, keys, probe, hash, head.node())
    }

    /// The node after `n` among those whose records have the whole key, each of which is answered once in a walk from
    /// the first. Expected O(1).
    pub fn next_of<R, E: Extract<R>>(
        &self,
        store: &NodeStore<R>,
        keys: &E,
        probe: &E::Probe,
        n: Node,
    ) -> Option<Node>
        requires search { CanSearch E.Extract self.now store.now keys.now probe.now }
        requires held { Holds (matches_in E.Extract self.now store.now keys.now probe.now) n }
        ensures { result ≡ the_next (same_node n)
            (matches_in E.Extract self.now store.now keys.now probe.now) }
    {
        let link = store.link(n, self.col);
        self.match_from(store, keys, probe, link.tag, link.b)
    }

    /// How many nodes have records with the whole key. Expected O(1 + those nodes).
    pub fn count<R, E: Extract<R>>(&self, store: &NodeStore<R>, keys: &E, probe: &E::Probe) -> u64
        requires { CanSearch E.Extract self.now store.now keys.now probe.now }
        ensures { result ≡ count_equal (side_in E.Extract self.now store.now keys.now probe.now)
            (nodes_of self.now store.now) }
    {
        let hash = keys.hash_probe(self.index, probe);
        let mut count = 0;
        let mut at = self.head(hash).node();
        while let Some(n) = at {
            let link = store.link(n, self.col);
            if self.has_key(store, keys, probe, hash, n, link.tag) {
                count += 1;
            }
            at = link.b;
        }
        count
    }

    // The first node whose record has the whole key, which has this hash, of a chain from `at` on.
    pub(crate) fn match_from<R, E: Extract<R>>(
        &self,
        store: &NodeStore<R>,
        keys: &E,
        probe: &E::Probe,
        hash: u64,
        at: Option<Node>,
    ) -> Option<Node>
        requires ends { Ends (column_of store.now) self.now at }
        requires hashed { HaveTheirHash E.Extract self.now store.now keys.now
            (rest_of (column_of store.now) self.now at) }
        requires hash { hash ≡ E.probe_hash_of keys.now (index_of self.now) probe.now }
        requires has_key { HasKey E.Extract self.now keys.now }
        requires whole { IsTrue (E.is_whole keys.now (index_of self.now) probe.now) }
        ensures { result ≡ find_equal (side_in E.Extract self.now store.now keys.now probe.now)
            (rest_of (column_of store.now) self.now at) }
    {
        let mut at = at;
        while let Some(n) = at {
            let tag = store.link(n, self.col).tag;
            if self.has_key(store, keys, probe, hash, n, tag) {
                return Some(n);
            }
            at = store.link(n, self.col).b;
        }
        None
    }

    // Whether the node is not the excepted one, and its record has the key of `r`, which has this hash. Where the tag in
    // the node's link is another, no record is read.
    fn is_other<R, E: Extract<R>>(
        &self,
        store: &NodeStore<R>,
        keys: &E,
        r: &R,
        hash: u64,
        except: Option<Node>,
        n: Node,
        tag: u64,
    ) -> bool
        requires node { IsNodeOf store.now n }
        requires tag { tag_at (column_of store.now (col_of self.now)) n ≡ Some tag }
        requires hashed { option_map_or (λ m. same_node m n) except false ≡ false →
            HasItsHash E.Extract self.now store.now keys.now n }
        requires hash { hash ≡ E.hash_of keys.now (index_of self.now) r.now }
        requires except { AreNodesOf store.now except }
        requires has_key { HasKey E.Extract self.now keys.now }
        ensures { result ≡ (not (option_map_or (λ m. same_node m n) except false)
            && is_eq (record_side_in E.Extract self.now store.now keys.now r.now n)) }
    {
        if tag != hash {
            return false;
        }
        !is_excepted(store, except, n) && keys.same(self.index, store.get(n), r)
    }

    // Whether the node's record has the whole key, which has this hash. Where the tag in the node's link is another, no
    // record is read.
    pub(crate) fn has_key<R, E: Extract<R>>(
        &self,
        store: &NodeStore<R>,
        keys: &E,
        probe: &E::Probe,
        hash: u64,
        n: Node,
        tag: u64,
    ) -> bool
        requires node { IsNodeOf store.now n }
        requires tag { tag_at (column_of store.now (col_of self.now)) n ≡ Some tag }
        requires hashed { HasItsHash E.Extract self.now store.now keys.now n }
        requires hash { hash ≡ E.probe_hash_of keys.now (index_of self.now) probe.now }
        requires has_key { HasKey E.Extract self.now keys.now }
        requires whole { IsTrue (E.is_whole keys.now (index_of self.now) probe.now) }
        ensures { result ≡ is_eq (side_in E.Extract self.now store.now keys.now probe.now n) }
    {
        if tag != hash {
            return false;
        }
        self.is_match(store, keys, probe, n)
    }

    // Whether the node's record has the whole key.
    pub(crate) fn is_match<R, E: Extract<R>>(
        &self,
        store: &NodeStore<R>,
        keys: &E,
        probe: &E::Probe,
        n: Node,
    ) -> bool
        requires node { IsNodeOf store.now n }
        requires has_key { HasKey E.Extract self.now keys.now }
        requires whole { IsTrue (E.is_whole keys.now (index_of self.now) probe.now) }
        ensures { result ≡ is_eq (side_in E.Extract self.now store.now keys.now probe.now n) }
    {
        keys.order_probe(self.index, store.get(n), probe) == Ordering::Equal
    }

    // The head of the chain of a hash as a look-up sees it: that of no node where the look-up passes the chain.
    pub(crate) fn head(&self, hash: u64) -> Head
        ensures first { first_in result ≡
            option_and_then (start_in hash) (slice_get (all_of self.now) (leads_to self.now hash)) }
        ensures head { first_in result ≢ None →
            slice_get (all_of self.now) (leads_to self.now hash) ≡ Some result }
    {
        if self.chains.is_empty() {
            return Head::none();
        }
        self.chains.seen(self.chain(hash), hash)
    }
}
