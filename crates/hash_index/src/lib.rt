//! A hashed index: nodes in chains through one column of the store's links, four chains for each bucket.
//!
//! Each call takes the store. It reads and writes the links of its own column alone, so a node may
//! stand in one index of each column at once.
#![tactic(auto)]

ghost use Rattle.std.specs.Prelude.{◌≡◌, ℕ, ◌*◌, ◌<◌, ◌≤◌, max, List, [], ◌∷◌, get_or, slice_get, Option, Some, None, IsPermutation};
ghost use Rattle.node_store.specs.declared.Node.{Node};
ghost use Rattle.node_store.specs.Column.{Column, IsNode};
ghost use Rattle.node_store.specs.Nodes.{Lacks};
ghost use Rattle.node_store.specs.ByNode.{column_of, same_node};
ghost use Rattle.node_store.specs.Store.{age_of};
ghost use Rattle.list_model.specs.Walk.{without};
ghost use Rattle.seq_index.specs.Links.{AreNodes, end_beside};
ghost use Rattle.hash_index.specs.Mask.{HasMask, HasMask_prop};
ghost use Rattle.hash_index.specs.Heads.{first_in, IsRight};

mod chain;
mod chains;
mod column;
mod earliest;
mod grow;
mod head;
mod placing;
mod search;
mod segment;
mod segments;
mod settle;

use chain::{set_next, set_prev};
use head::Head;
use key_extract::Extract;
use node_store::{Link, Node, NodeStore};
use segments::Segments;
use std::alloc::Global;

/// Nodes in buckets by the hashes of their keys, at most one a bucket on average. The `tag` of a node's link is the
/// hash that it was put in with. A bucket is four chains, so that few chains have more than one node. Chains are added
/// four at a time: from `level` on, each takes over nodes of the one that stands `level` before it, until there are
/// `level * 2`. `chains` has the head of each chain.
#[derive(Drop)]
pub struct HashIndex {
    alloc: Global,
    col: usize,
    index: usize,
    chains: Segments,
    level: usize,
    len: usize,
    ghost col_exists: { col < 8 },
    ghost some_level: { 0 < level },
    ghost masked: { HasMask (level * 2) } by { HasMask_prop (level * 2) },
    ghost reached: { level ≤ max 1 chains.len },
    ghost covered: { chains.len ≤ level * 2 },
}

impl HashIndex {
    ghost use Rattle.hash_index.specs.Stored.{nodes_of, AreChainsOf, HasNode, HasKey, HaveTheirHash, KeepsRest};
    ghost use Rattle.hash_index.specs.Spelled.{Spells, col_of, index_of, all_of, heads_of, buckets_of, HasRoom, KeepsTags, spelled};

    /// An index of no nodes in column `col`, for the keys of the container's index `index`. It has no buckets yet,
    /// and allocates nothing. O(1).
    pub fn new(alloc: Global, col: usize, index: usize) -> HashIndex
        requires { col < 8 }
        ensures col { col_of result ≡ col }
        ensures index { index_of result ≡ index }
        ensures buckets { buckets_of result ≡ 0 }
        ensures empty { (ages : Node → ℕ) (cs : ℕ → Column) → Spells ages cs result [] }
    {
        HashIndex {
            alloc,
            col,
            index,
            chains: Segments::new(alloc),
            level: 1,
            len: 0,
        }
    }

    /// Goes by the keys of number `index` from now on, which are to hash the nodes as they were put in. O(1).
    #[tactic(auto, unfolding(crate::specs::Spelled::spelled))]
    pub fn renumber(&mut self, index: usize)
        ensures index { index_of self.new ≡ index }
        ensures col { col_of self.new ≡ col_of self.old }
        ensures list { (ages : Node → ℕ) (cs : ℕ → Column) (xs : List Node) →
            Spells ages cs self.old xs → Spells ages cs self.new xs }
        ensures spelled { (cs : ℕ → Column) → spelled cs self.new ≡ spelled cs self.old }
        ensures buckets { buckets_of self.new ≡ buckets_of self.old }
        ensures room { HasRoom self.old → HasRoom self.new }
    {
        self.index = index;
    }

    /// Puts `n` in, by the hash of its record's key, in room that was reserved. O(1).
    pub fn link<R, E: Extract<R>>(&mut self, store: &mut NodeStore<R>, keys: &E, n: Node)
        requires chain { AreChainsOf self.old store.old }
        requires node { IsNode (column_of store.old (col_of self.old)) n }
        requires new { Lacks (nodes_of self.old store.old) n }
        requires room { HasRoom self.old }
        requires has_key { HasKey E.Extract self.old keys.now }
        ensures chain { AreChainsOf self.new store.new }
        ensures list { IsPermutation (n ∷ nodes_of self.old store.old)
            (nodes_of self.new store.new) }
        ensures hashed { HaveTheirHash E.Extract self.old store.old keys.now
            (nodes_of self.old store.old) → HaveTheirHash E.Extract self.old store.new keys.now
            (nodes_of self.new store.new) }
        ensures buckets { buckets_of self.new ≡ buckets_of self.old }
        ensures rest { KeepsRest self.old self.new store.old store.new }
    {
        let hash = keys.hash(self.index, store.get(n));
        self.put(store, n, hash);
    }

    /// Takes `n` out. It reads no record, so the node's may have changed. It leaves room for one node. O(1).
    pub fn unlink<R>(&mut self, store: &mut NodeStore<R>, n: Node)
        requires { HasNode self.old store.old n }
        ensures list { Spells (age_of store.new) (column_of store.new) self.new
            (without (same_node n) (nodes_of self.old store.old)) }
        ensures tags { KeepsTags (column_of store.old (col_of self.old))
            (column_of store.new (col_of self.old)) }
        ensures room { HasRoom self.new }
        ensures buckets { buckets_of self.new ≡ buckets_of self.old }
        ensures rest { KeepsRest self.old self.new store.old store.new }
    {
        let Link {
            a: before,
            b: after,
            up,
            tag,
            ..
        } = store.link(n, self.col);
        let chain = self.chain(tag);
        set_next(store, self.col, before, after);
        set_prev(store, self.col, after, before);
        let head = self.head_beside(store, before, chain, after);
        self.set_top(store, before, head.node(), after, up);
        self.chains.set(chain, head);
        self.len -= 1;
    }

    // The head of a chain once the node between two neighbours has gone.
    fn head_beside<R>(
        &self,
        store: &NodeStore<R>,
        before: Option<Node>,
        chain: usize,
        after: Option<Node>,
    ) -> Head
        requires chain { chain < self.now.chains.len }
        requires after { AreNodes (column_of store.now (col_of self.now)) after }
        ensures first { first_in result ≡
            end_beside before (get_or (heads_of self.now) chain None) after }
        ensures kept { (m : Node) → before ≡ Some m →
            slice_get (all_of self.now) chain ≡ Some result }
        ensures right { before ≡ None →
            IsRight (column_of store.now (col_of self.now)) result }
        ensures plain { before ≡ None → result.mark < 192 }
    {
        match before {
            Some(_) => self.chains.head(chain),
            None => self.head_of(store, after),
        }
    }

    // The head of a chain that begins with this node.
    pub(crate) fn head_of<R>(&self, store: &NodeStore<R>, first: Option<Node>) -> Head
        requires { AreNodes (column_of store.now (col_of self.now)) first }
        ensures first { first_in result ≡ first }
        ensures right { IsRight (column_of store.now (col_of self.now)) result }
        ensures plain { result.mark < 192 }
    {
        match first {
            Some(n) => {
                let Link { b, tag, .. } = store.link(n, self.col);
                Head::of(n, tag, b.is_some())
            }
            None => Head::none(),
        }
    }
}
