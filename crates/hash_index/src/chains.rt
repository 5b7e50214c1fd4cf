//! Chains and buckets, and walks over all nodes.
ghost use Rattle.std.specs.Prelude.{◌≡◌, ℕ, ◌+◌, ◌*◌, ◌%◌, ◌<◌, ◌≤◌, List, ◌∷◌, ◌++◌, length, Some, None, drop, slice_get};
ghost use Rattle.node_store.specs.declared.Node.{Node};
ghost use Rattle.node_store.specs.Column.{Column};
ghost use Rattle.node_store.specs.Nodes.{first_or};
ghost use Rattle.node_store.specs.ByNode.{column_of, same_node};
ghost use Rattle.list_model.specs.Walk.{next as the_next};
ghost use Rattle.hash_index.specs.Spelled.{Spells, chains_of, buckets_of, heads_of, leads_to};
ghost use Rattle.hash_index.specs.Stored.{nodes_of, AreChainsOf, HasNode};
ghost use Rattle.hash_index.specs.Chains.{first_head, longest};
ghost use Rattle.hash_index.specs.Walks.{rest_of, Ends};

use crate::HashIndex;
use node_store::{Link, Node, NodeStore};

// How many chains a bucket has.
const CHAINS: usize = 4;

impl HashIndex {
    /// How many nodes there are. O(1).
    pub fn len<R>(&self, store: &NodeStore<R>) -> usize
        requires { AreChainsOf self.now store.now }
        ensures { result ≡ length (nodes_of self.now store.now) }
    {
        self.len
    }

    /// How many buckets there are, each of four chains, and no fewer than nodes. O(1).
    pub fn buckets(&self) -> usize
        ensures { result ≡ buckets_of self.now }
    {
        self.chains.len() / CHAINS
    }

    /// How many nodes the longest chain has. O(buckets + nodes).
    pub fn longest_chain<R>(&self, store: &NodeStore<R>) -> usize
        requires { AreChainsOf self.now store.now }
        ensures { result ≡ longest (chains_of (column_of store.now) self.now) }
    {
        let mut longest = 0;
        for chain in 0..self.chains.len() {
            longest = self
                .chain_length(store, self.chains.get(chain))
                .max(longest);
        }
        longest
    }

    // How many nodes a chain has from `at` on.
    fn chain_length<R>(&self, store: &NodeStore<R>, at: Option<Node>) -> usize
        requires chain { AreChainsOf self.now store.now }
        requires ends { Ends (column_of store.now) self.now at }
        ensures { result ≡ length (rest_of (column_of store.now) self.now at) }
    {
        let mut length = 0;
        let mut at = at;
        while let Some(n) = at {
            length += 1;
            at = store.link(n, self.col).b;
        }
        length
    }

    /// The first node of a walk over all, in no stated order. O(chains before it).
    pub fn first<R>(&self, store: &NodeStore<R>) -> Option<Node>
        requires { AreChainsOf self.now store.now }
        ensures { result ≡ slice_get (nodes_of self.now store.now) 0 }
    {
        self.first_from(0)
    }

    /// The node after `n` in a walk over all. O(empty chains between them), and O(nodes) for the whole walk while
    /// no node was taken out.
    pub fn next<R>(&self, store: &NodeStore<R>, n: Node) -> Option<Node>
        requires { HasNode self.now store.now n }
        ensures { result ≡ the_next (same_node n) (nodes_of self.now store.now) }
    {
        self.after(store.link(n, self.col))
    }

    // The node after the one that has this link.
    pub(crate) fn after(&self, link: Link) -> Option<Node>
        requires { 0 < self.now.chains.len }
        ensures { (ages : Node → ℕ) (cs : ℕ → Column) (xs : List Node) (n : Node) (ys : List Node) →
            Spells ages cs self.now (xs ++ n ∷ ys) → cs self.now.col n ≡ Some link →
            result ≡ first_or ys None }
    {
        match link.b {
            Some(n) => Some(n),
            None => self.first_from(self.chain(link.tag) + 1),
        }
    }

    // The first node of this chain or a later one.
    pub(crate) fn first_from(&self, chain: usize) -> Option<Node>
        requires { chain ≤ self.now.chains.len }
        ensures { result ≡ first_head (drop chain (heads_of self.now)) }
    {
        for later in chain..self.chains.len() {
            let head = self.chains.get(later);
            if head.is_some() {
                return head;
            }
        }
        None
    }

    // The chain of a hash.
    pub(crate) fn chain(&self, hash: u64) -> usize
        requires { 0 < self.now.chains.len }
        ensures is { result ≡ leads_to self.now hash }
        ensures within { result < self.now.chains.len }
    {
        let chain = self.remainder(hash);
        if chain < self.chains.len() {
            chain
        } else {
            chain - self.level
        }
    }

    // The remainder of a hash by the number of chains that are to be.
    pub(crate) fn remainder(&self, hash: u64) -> usize
        ensures { result ≡ hash % (self.now.level * 2) }
    {
        (hash & (self.level as u64 * 2 - 1)) as usize
    }
}
