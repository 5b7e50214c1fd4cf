//! An index, and its changes.
ghost use Rattle.std.specs.Prelude.{◌≡◌, ℕ, ◌<◌, cond, [], OnOk, OnErr};
ghost use Rattle.std.specs.declared.cmp.Ordering.{Ordering};
ghost use Rattle.list_model.specs.Walk.{without};
ghost use Rattle.key_extract.specs.Digests.{Marks};
ghost use Rattle.node_store.specs.declared.Node.{Node};
ghost use Rattle.node_store.specs.ByNode.{Columns, same_node};
ghost use Rattle.node_store.specs.Store.{age_of};
ghost use Rattle.container_model.specs.State.{has_key_kind};
ghost use Rattle.any_index.specs.Lists.{entered, settled_in};

use crate::sound::sound;
use container_model::Kind;
use hash_index::HashIndex;
use key_extract::Extract;
use node_store::{Node, NodeStore};
use ord_tree::{NoTally, OrdTree};
use rank_tree::RankTree;
use row_index::RowIndex;
use seq_index::SeqIndex;
use std::alloc::{AllocError, Global};

/// An index of one kind, through one column of links.
#[derive(Drop)]
pub enum AnyIndex {
    /// A sequence of one's own.
    Sequenced(SeqIndex),
    /// A sequence whose places can be counted.
    Random(RowIndex),
    /// In the order of a key.
    Ordered(OrdTree<NoTally>),
    /// In the order of a key, with ranks.
    Ranked(RankTree),
    /// Searched by a whole key.
    Hashed(HashIndex),
}

impl AnyIndex {
    ghost use Rattle.any_index.specs.Stored.{nodes_of, IsIn, HasNode, KeepsRest, order_in, CanEnter, GoesTo, IsFiledBut};
    ghost use Rattle.any_index.specs.Spelled.{IsSound, HasRoom, list_of, kind_of, col_of, index_of};
    ghost use Rattle.any_index.specs.Keyed.{marks_of, IsKeyed, IsKeyedBut, IsSameKey};

    /// An index of no nodes in column `column`, by the keys of number `index` where its kind has keys. It allocates
    /// nothing. O(1).
    pub fn new(alloc: Global, kind: Kind, column: usize, index: usize) -> AnyIndex
        requires { column < 8 }
        ensures kind { kind_of result ≡ kind }
        ensures col { col_of result ≡ column }
        ensures index { index_of result ≡ cond (has_key_kind kind) index column }
        ensures sound { (cs : Columns) → IsSound cs result }
        ensures empty { (cs : Columns) → list_of cs result ≡ [] }
    {
        match kind {
            Kind::Sequenced => AnyIndex::Sequenced(SeqIndex::new(column)),
            Kind::Random => AnyIndex::Random(RowIndex::new(alloc, column)),
            Kind::Ordered => AnyIndex::Ordered(OrdTree::new(column, index)),
            Kind::Ranked => AnyIndex::Ranked(OrdTree::new(column, index)),
            Kind::Hashed => AnyIndex::Hashed(HashIndex::new(alloc, column, index)),
        }
    }

    /// The column of links that the index goes through. O(1).
    pub fn col(&self) -> usize
        ensures col { result ≡ col_of self.now }
        ensures exists { result < 8 }
    {
        match self {
            AnyIndex::Sequenced(sequence) => sequence.col(),
            AnyIndex::Random(row) => row.col(),
            AnyIndex::Ordered(tree) => tree.col(),
            AnyIndex::Ranked(tree) => tree.col(),
            AnyIndex::Hashed(buckets) => buckets.col(),
        }
    }

    /// Goes by the keys of number `index` from now on, where its kind has keys; they are to put its nodes where they are.
    /// A sequence stays as it is. O(1).
    pub fn renumber<R>(&mut self, store: &NodeStore<R>, index: usize)
        ensures sound { IsIn self.old store.now → IsIn self.new store.now }
        ensures list { nodes_of self.new store.now ≡ nodes_of self.old store.now }
        ensures kind { kind_of self.new ≡ kind_of self.old }
        ensures col { col_of self.new ≡ col_of self.old }
        ensures index { index_of self.new ≡ cond (has_key_kind (kind_of self.old)) index
            (index_of self.old) }
        ensures room { HasRoom self.old → HasRoom self.new }
        ensures keyed { (order after : ℕ → R → R → Ordering) (marks marks_after : ℕ → R → Marks) →
            IsSameKey (kind_of self.old) (order (index_of self.old)) (after index) →
            IsSameKey (kind_of self.old) (marks (index_of self.old)) (marks_after index) →
            IsKeyed order marks store.now self.old → IsKeyed after marks_after store.now self.new }
    {
        match self {
            AnyIndex::Sequenced(_) | AnyIndex::Random(_) => {}
            AnyIndex::Ordered(tree) => tree.renumber(index),
            AnyIndex::Ranked(tree) => tree.renumber(index),
            AnyIndex::Hashed(buckets) => buckets.renumber(index),
        }
    }

    /// Makes room for one more node. Where memory is refused, everything is as before. O(1) on average over many
    /// insertions.
    pub fn reserve_one<R>(&mut self, store: &mut NodeStore<R>) -> Result<(), AllocError>
        requires { IsIn self.old store.old }
        ensures sound { IsIn self.new store.new }
        ensures list { nodes_of self.new store.new ≡ nodes_of self.old store.old }
        ensures room { OnOk result (HasRoom self.new) }
        ensures full { OnErr result (¬ HasRoom self.old) }
        ensures keyed { (order : ℕ → R → R → Ordering) (marks : ℕ → R → Marks) →
            IsKeyed order marks store.old self.old → IsKeyed order marks store.new self.new }
        ensures rest { KeepsRest self.old self.new store.old store.new }
    {
        match self {
            AnyIndex::Sequenced(sequence) => sequence.reserve_one(store),
            AnyIndex::Random(row) => row.reserve_one(store),
            AnyIndex::Ordered(tree) => tree.reserve_one(store),
            AnyIndex::Ranked(tree) => tree.reserve_one(store),
            AnyIndex::Hashed(buckets) => {
                sound(store);
                buckets.reserve_one(store)
            }
        }
    }

    /// Puts `n` in, in room that was reserved: by its key, or in a sequence before the node at the place `at`, or last
    /// where there is none. Where `last` is given, it is in a tree the last node whose key is at most that of `n`, and spares
    /// the search. O(log n) in a tree, O(1) in buckets and at the end of a sequence.
    pub fn enter<R, E: Extract<R>>(
        &mut self,
        store: &mut NodeStore<R>,
        keys: &E,
        n: Node,
        at: Option<u64>,
        last: Option<Node>,
    )
        requires node { CanEnter E.Extract self.old store.old keys.now n }
        requires goes { GoesTo E.Extract self.old store.old keys.now n at last }
        ensures sound { IsIn self.new store.new }
        ensures list { nodes_of self.new store.new ≡ entered (kind_of self.old) (age_of store.old)
            (order_in E.Extract self.old store.old keys.now) at n (nodes_of self.old store.old) }
        ensures keyed { IsKeyed (E.order_of keys.now) (marks_of E.Extract keys.now) store.new self.new }
        ensures rest { KeepsRest self.old self.new store.old store.new }
    {
        match self {
            AnyIndex::Sequenced(sequence) => match at {
                Some(place) => sequence.insert_at(store, place, n),
                None => sequence.push(store, n),
            },
            AnyIndex::Random(row) => match at {
                Some(place) => row.insert_at(store, place, n),
                None => row.push(store, n),
            },
            AnyIndex::Ordered(tree) => tree.link(store, keys, n, last),
            AnyIndex::Ranked(tree) => tree.link(store, keys, n, last),
            AnyIndex::Hashed(buckets) => {
                sound(store);
                buckets.link(store, keys, n);
            }
        }
    }

    /// Takes `n` out. It reads no record, so the node's may have changed. It takes no memory, and leaves room for one
    /// node. O(log n) in a tree, O(1) in buckets and in a chain, O(the nodes behind it) in a row.
    pub fn leave<R>(&mut self, store: &mut NodeStore<R>, n: Node)
        requires { HasNode self.old store.old n }
        ensures sound { IsIn self.new store.new }
        ensures list { nodes_of self.new store.new ≡ without (same_node n)
            (nodes_of self.old store.old) }
        ensures room { HasRoom self.new }
        ensures keyed { (order : ℕ → R → R → Ordering) (marks : ℕ → R → Marks) →
            IsKeyedBut order marks store.old self.old n →
            IsKeyed order marks store.new self.new }
        ensures rest { KeepsRest self.old self.new store.old store.new }
    {
        match self {
            AnyIndex::Sequenced(sequence) => sequence.unlink(store, n),
            AnyIndex::Random(row) => row.unlink(store, n),
            AnyIndex::Ordered(tree) => tree.unlink(store, n),
            AnyIndex::Ranked(tree) => tree.unlink(store, n),
            AnyIndex::Hashed(buckets) => {
                sound(store);
                buckets.unlink(store, n);
            }
        }
    }

    /// Puts `n` where its key puts it after its record has changed: in a tree it stays where it fits between its two
    /// neighbours, and goes after all whose key is at most its own otherwise. A sequence stays as it is. It takes no
    /// memory. O(log n) in a tree, O(1) otherwise.
    pub fn settle<R, E: Extract<R>>(&mut self, store: &mut NodeStore<R>, keys: &E, n: Node)
        requires { IsFiledBut E.Extract n self.old store.old keys.now }
        ensures sound { IsIn self.new store.new }
        ensures list { nodes_of self.new store.new ≡ settled_in (kind_of self.old)
            (order_in E.Extract self.old store.old keys.now) n (nodes_of self.old store.old) }
        ensures keyed { IsKeyed (E.order_of keys.now) (marks_of E.Extract keys.now) store.new self.new }
        ensures rest { KeepsRest self.old self.new store.old store.new }
    {
        match self {
            AnyIndex::Sequenced(_) | AnyIndex::Random(_) => {}
            AnyIndex::Ordered(tree) => tree.settle(store, keys, n),
            AnyIndex::Ranked(tree) => tree.settle(store, keys, n),
            AnyIndex::Hashed(buckets) => {
                sound(store);
                buckets.settle(store, keys, n);
            }
        }
    }
}
