//! Marks in a row on the nodes of a key.
ghost use Rattle.std.specs.Prelude.{◌≡◌, ◌≢◌, slice_get, IsTrue};
ghost use Rattle.container_model.specs.State.{is_sorted_kind};
ghost use Rattle.list_model.specs.Walk.{next as the_next};
ghost use Rattle.node_store.specs.declared.Node.{Node};
ghost use Rattle.node_store.specs.ByNode.{column_of, contents, same_node};
ghost use Rattle.row_index.specs.Spelled as rows;
ghost use Rattle.any_index.specs.Marks.{HasMarks, is_marked, lowest_mark, is_match, matches_in};
ghost use Rattle.any_index.specs.Spelled.{KeepsOthers, Holds, kind_of, col_of, index_of};
ghost use Rattle.any_index.specs.Stored.{nodes_of, side_in, IsRowBeside, CanFind};

use crate::at::IndexRef;
use crate::index::AnyIndex;
use key_extract::Extract;
use node_store::{Node, NodeStore};
use row_index::RowIndex;
use std::cmp::Ordering;

impl AnyIndex {
    /// Marks in a row those of its nodes that this index has too and whose records have the key, and answers the lowest place
    /// of them, or the greatest `u64` where there is none. Until the row's `close_up` it has no other calls. In O(log n)
    /// comparisons and a step for each that has the key in a tree, in expected O(1 + those nodes) in buckets. A sequence has
    /// no key.
    pub fn mark_key<R, E: Extract<R>>(
        &self,
        store: &mut NodeStore<R>,
        keys: &E,
        probe: &E::Probe,
        row: &AnyIndex,
    ) -> u64
        requires find { CanFind E.Extract self.now store.old keys.now probe.now }
        requires row { IsRowBeside self.now row.now store.old }
        ensures marks { HasMarks (column_of store.new) row.now result }
        ensures low { result ≡
            lowest_mark (column_of store.new (col_of row.now)) (nodes_of row.now store.old) }
        ensures marked { (n : Node) → Holds (nodes_of row.now store.old) n →
            is_marked (column_of store.new (col_of row.now)) n ≡
            is_match (side_in E.Extract self.now store.old keys.now probe.now)
            (nodes_of self.now store.old) n }
        ensures others { KeepsOthers (column_of store.old) (column_of store.new)
            (col_of row.now) }
        ensures contents { contents store.new ≡ contents store.old }
    {
        match row {
            AnyIndex::Random(row) => mark_each(self, row, store, keys, probe),
            AnyIndex::Sequenced(_)
            | AnyIndex::Ordered(_)
            | AnyIndex::Ranked(_)
            | AnyIndex::Hashed(_) => unreachable!(),
        }
    }
}

// Marks in the row each of its nodes that the index has too and whose record has the key.
fn mark_each<R, E: Extract<R>>(
    by: &AnyIndex,
    row: &RowIndex,
    store: &mut NodeStore<R>,
    keys: &E,
    probe: &E::Probe,
) -> u64
    requires find { CanFind E.Extract by.now store.old keys.now probe.now }
    requires row { rows.IsSound (column_of store.old) row.now }
    requires apart { col_of by.now ≢ rows.col_of row.now }
    ensures marks { rows.HasMarks (column_of store.new) row.now result }
    ensures low { result ≡ lowest_mark (column_of store.new (rows.col_of row.now))
        (rows.spelled (column_of store.old) row.now) }
    ensures marked { (n : Node) → Holds (rows.spelled (column_of store.old) row.now) n →
        is_marked (column_of store.new (rows.col_of row.now)) n ≡
        is_match (side_in E.Extract by.now store.old keys.now probe.now)
        (nodes_of by.now store.old) n }
    ensures others { KeepsOthers (column_of store.old) (column_of store.new)
        (rows.col_of row.now) }
    ensures contents { contents store.new ≡ contents store.old }
{
    let mut low = u64::MAX;
    let mut at = first_match(by, store, keys, probe);
    while let Some(n) = at {
        low = row.mark(store, n, low);
        at = next_match(by, store, keys, probe, n);
    }
    low
}

// The first node of a walk whose record has the key.
fn first_match<R, E: Extract<R>>(
    by: &AnyIndex,
    store: &NodeStore<R>,
    keys: &E,
    probe: &E::Probe,
) -> Option<Node>
    requires { CanFind E.Extract by.now store.now keys.now probe.now }
    ensures { result ≡ slice_get (matches_in E.Extract by.now store.now keys.now probe.now) 0 }
{
    match by {
        AnyIndex::Hashed(buckets) => buckets.first_of(store, keys, probe),
        _ => IndexRef::new(by, store, keys).find(probe),
    }
}

// The node after `n` of those whose records have the key.
fn next_match<R, E: Extract<R>>(
    by: &AnyIndex,
    store: &NodeStore<R>,
    keys: &E,
    probe: &E::Probe,
    n: Node,
) -> Option<Node>
    requires find { CanFind E.Extract by.now store.now keys.now probe.now }
    requires held { Holds (matches_in E.Extract by.now store.now keys.now probe.now) n }
    ensures { result ≡ the_next (same_node n)
        (matches_in E.Extract by.now store.now keys.now probe.now) }
{
    match by {
        AnyIndex::Hashed(buckets) => buckets.next_of(store, keys, probe, n),
        AnyIndex::Ordered(tree) => next_in_order(by, store, keys, tree.index(), probe, n),
        AnyIndex::Ranked(tree) => next_in_order(by, store, keys, tree.index(), probe, n),
        AnyIndex::Sequenced(_) | AnyIndex::Random(_) => unreachable!(),
    }
}

// The node after `n` in a tree, where its record has the key too.
fn next_in_order<R, E: Extract<R>>(
    by: &AnyIndex,
    store: &NodeStore<R>,
    keys: &E,
    index: usize,
    probe: &E::Probe,
    n: Node,
) -> Option<Node>
    requires find { CanFind E.Extract by.now store.now keys.now probe.now }
    requires index { index ≡ index_of by.now }
    requires kind { IsTrue (is_sorted_kind (kind_of by.now)) }
    requires held { Holds (matches_in E.Extract by.now store.now keys.now probe.now) n }
    ensures { result ≡ the_next (same_node n)
        (matches_in E.Extract by.now store.now keys.now probe.now) }
{
    match IndexRef::new(by, store, keys).next(n) {
        Some(next) => {
            if keys.order_probe(index, store.get(next), probe) == Ordering::Equal {
                Some(next)
            } else {
                None
            }
        }
        None => None,
    }
}
