//! Puts a node into an index of each kind, if there is room.
ghost use Rattle.std.specs.Prelude.{◌≡◌};
ghost use Rattle.node_store.specs.Column.{IsNode, KeepsOthers};
ghost use Rattle.node_store.specs.Nodes.{Lacks};
ghost use Rattle.node_store.specs.ByNode.{column_of, contents};
ghost use Rattle.node_store.specs.Store.{age_of};
ghost use Rattle.seq_index.specs.Spelled as chains;
ghost use Rattle.row_index.specs.Spelled as rows;
ghost use Rattle.ord_tree.specs.Spelled as trees;
ghost use Rattle.hash_index.specs.Spelled as buckets;
ghost use Rattle.index_tests.specs.Keys.{IsByKey};

use crate::keys::{ByKey, Keyed};
use hash_index::HashIndex;
use node_store::{Node, NodeStore};
use ord_tree::{NoTally, OrdTree};
use rank_tree::RankTree;
use row_index::RowIndex;
use seq_index::SeqIndex;

pub(crate) fn put_last<R>(chain: &mut SeqIndex, store: &mut NodeStore<R>, n: Node)
    requires sound { chains.IsSound (column_of store.old) chain.old }
    requires node { IsNode (column_of store.old (chains.col_of chain.old)) n }
    requires new { Lacks (chains.spelled (column_of store.old) chain.old) n }
    ensures sound { chains.IsSound (column_of store.new) chain.new }
    ensures col { chains.col_of chain.new ≡ chains.col_of chain.old }
    ensures others { KeepsOthers (column_of store.old) (column_of store.new)
        (chains.col_of chain.old) }
    ensures contents { contents store.new ≡ contents store.old }
{
    if chain.reserve_one(store).is_ok() {
        chain.push(store, n);
    }
}

/// Puts it last in a row of an odd column, and first in another.
pub(crate) fn put_in_row<R>(row: &mut RowIndex, store: &mut NodeStore<R>, n: Node)
    requires sound { rows.IsSound (column_of store.old) row.old }
    requires node { IsNode (column_of store.old (rows.col_of row.old)) n }
    requires new { Lacks (rows.spelled (column_of store.old) row.old) n }
    ensures sound { rows.IsSound (column_of store.new) row.new }
    ensures col { rows.col_of row.new ≡ rows.col_of row.old }
    ensures others { KeepsOthers (column_of store.old) (column_of store.new) (rows.col_of row.old) }
    ensures contents { contents store.new ≡ contents store.old }
{
    if row.reserve_one(store).is_ok() {
        if row.col() % 2 == 1 {
            row.push(store, n);
        } else {
            row.insert_at(store, 0, n);
        }
    }
}

pub(crate) fn put_by_key<T>(tree: &mut OrdTree<NoTally>, store: &mut NodeStore<Keyed<T>>, n: Node)
    requires sound { trees.IsSound (column_of store.old) tree.old }
    requires order { IsByKey store.old (trees.col_of tree.old)
        (trees.spelled (column_of store.old) tree.old) }
    requires node { IsNode (column_of store.old (trees.col_of tree.old)) n }
    requires new { Lacks (trees.spelled (column_of store.old) tree.old) n }
    ensures sound { trees.IsSound (column_of store.new) tree.new }
    ensures order { IsByKey store.new (trees.col_of tree.new)
        (trees.spelled (column_of store.new) tree.new) }
    ensures col { trees.col_of tree.new ≡ trees.col_of tree.old }
    ensures others { KeepsOthers (column_of store.old) (column_of store.new)
        (trees.col_of tree.old) }
    ensures contents { contents store.new ≡ contents store.old }
{
    if tree.reserve_one(store).is_ok() {
        tree.link(store, &ByKey, n, None);
    }
}

pub(crate) fn put_by_rank<T>(tree: &mut RankTree, store: &mut NodeStore<Keyed<T>>, n: Node)
    requires sound { trees.IsSound (column_of store.old) tree.old }
    requires order { IsByKey store.old (trees.col_of tree.old)
        (trees.spelled (column_of store.old) tree.old) }
    requires node { IsNode (column_of store.old (trees.col_of tree.old)) n }
    requires new { Lacks (trees.spelled (column_of store.old) tree.old) n }
    ensures sound { trees.IsSound (column_of store.new) tree.new }
    ensures order { IsByKey store.new (trees.col_of tree.new)
        (trees.spelled (column_of store.new) tree.new) }
    ensures col { trees.col_of tree.new ≡ trees.col_of tree.old }
    ensures others { KeepsOthers (column_of store.old) (column_of store.new)
        (trees.col_of tree.old) }
    ensures contents { contents store.new ≡ contents store.old }
{
    if tree.reserve_one(store).is_ok() {
        tree.link(store, &ByKey, n, None);
    }
}

pub(crate) fn put_by_hash<T>(index: &mut HashIndex, store: &mut NodeStore<Keyed<T>>, n: Node)
    requires sound { buckets.IsSound (age_of store.old) (column_of store.old) index.old }
    requires node { IsNode (column_of store.old (buckets.col_of index.old)) n }
    requires new { Lacks (buckets.spelled (column_of store.old) index.old) n }
    ensures sound { buckets.IsSound (age_of store.new) (column_of store.new) index.new }
    ensures col { buckets.col_of index.new ≡ buckets.col_of index.old }
    ensures others { KeepsOthers (column_of store.old) (column_of store.new)
        (buckets.col_of index.old) }
    ensures contents { contents store.new ≡ contents store.old }
{
    if index.reserve_one(store).is_ok() {
        index.link(store, &ByKey, n);
    }
}
