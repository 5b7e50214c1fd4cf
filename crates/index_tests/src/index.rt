//! An index of one of five kinds.
ghost use Rattle.std.specs.Prelude.{◌≡◌, Some};
ghost use Rattle.node_store.specs.declared.Node.{Node};
ghost use Rattle.node_store.specs.Column.{IsNode, KeepsOthers};
ghost use Rattle.node_store.specs.Nodes.{Lacks, Holds};
ghost use Rattle.node_store.specs.ByNode.{column_of, contents};
ghost use Rattle.index_tests.specs.Kinds.{IsSoundIn, listed, col_in};

use crate::keys::Keyed;
use crate::put::{put_by_hash, put_by_key, put_by_rank, put_in_row, put_last};
use hash_index::HashIndex;
use node_store::{Node, NodeStore};
use ord_tree::{NoTally, OrdTree};
use rank_tree::RankTree;
use row_index::RowIndex;
use seq_index::SeqIndex;

#[derive(Drop)]
pub(crate) enum Index {
    Chain(SeqIndex),
    Row(RowIndex),
    Ordered(OrdTree<NoTally>),
    Ranked(RankTree),
    Hashed(HashIndex),
}

impl Index {
    pub(crate) fn first<T>(&self, store: &NodeStore<Keyed<T>>) -> Option<Node>
        requires { IsSoundIn store.now self.now }
        ensures { (n : Node) → result ≡ Some n → Holds (listed (column_of store.now) self.now) n }
    {
        match self {
            Index::Chain(chain) => chain.first(store),
            Index::Row(row) => row.first(store),
            Index::Ordered(tree) => tree.first(store),
            Index::Ranked(tree) => tree.first(store),
            Index::Hashed(buckets) => buckets.first(store),
        }
    }

    pub(crate) fn next<T>(&self, store: &NodeStore<Keyed<T>>, n: Node) -> Option<Node>
        requires sound { IsSoundIn store.now self.now }
        requires held { Holds (listed (column_of store.now) self.now) n }
        ensures { (m : Node) → result ≡ Some m → Holds (listed (column_of store.now) self.now) m }
    {
        match self {
            Index::Chain(chain) => chain.next(store, n),
            Index::Row(row) => row.next(store, n),
            Index::Ordered(tree) => tree.next(store, n),
            Index::Ranked(tree) => tree.next(store, n),
            Index::Hashed(buckets) => buckets.next(store, n),
        }
    }

    /// Puts `n` last in a chain and in a row of an odd column, first in another row, and by its record's key elsewhere, if there is room.
    pub(crate) fn put<T>(&mut self, store: &mut NodeStore<Keyed<T>>, n: Node)
        requires sound { IsSoundIn store.old self.old }
        requires node { IsNode (column_of store.old (col_in self.old)) n }
        requires new { Lacks (listed (column_of store.old) self.old) n }
        ensures sound { IsSoundIn store.new self.new }
        ensures col { col_in self.new ≡ col_in self.old }
        ensures others { KeepsOthers (column_of store.old) (column_of store.new) (col_in self.old) }
        ensures contents { contents store.new ≡ contents store.old }
    {
        match self {
            Index::Chain(chain) => put_last(chain, store, n),
            Index::Row(row) => put_in_row(row, store, n),
            Index::Ordered(tree) => put_by_key(tree, store, n),
            Index::Ranked(tree) => put_by_rank(tree, store, n),
            Index::Hashed(buckets) => put_by_hash(buckets, store, n),
        }
    }

    pub(crate) fn unlink<T>(&mut self, store: &mut NodeStore<Keyed<T>>, n: Node)
        requires sound { IsSoundIn store.old self.old }
        requires held { Holds (listed (column_of store.old) self.old) n }
        ensures sound { IsSoundIn store.new self.new }
        ensures col { col_in self.new ≡ col_in self.old }
        ensures others { KeepsOthers (column_of store.old) (column_of store.new) (col_in self.old) }
        ensures contents { contents store.new ≡ contents store.old }
    {
        match self {
            Index::Chain(chain) => chain.unlink(store, n),
            Index::Row(row) => row.unlink(store, n),
            Index::Ordered(tree) => tree.unlink(store, n),
            Index::Ranked(tree) => tree.unlink(store, n),
            Index::Hashed(buckets) => buckets.unlink(store, n),
        }
    }

    /// Whether its walk has no stated order.
    pub(crate) fn is_unordered(&self) -> bool {
        matches!(self, Index::Hashed(_))
    }
}
