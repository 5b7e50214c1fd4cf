//! One index more, outside the set.
ghost use Rattle.std.specs.Prelude.{◌≡◌, ℕ, ◌<◌, ◌≤◌, ◌==◌, true, false, cond, [], None, IfOk, IfErr, OnOk, IsTrue, length};
ghost use Rattle.std.specs.List.{AllByRecursion, list_any};
ghost use Rattle.node_store.specs.Column.{KeepsOthers};
ghost use Rattle.node_store.specs.Nodes.{IsDistinct};
ghost use Rattle.node_store.specs.Store.{IsNodeOf, age_of, width_of};
ghost use Rattle.node_store.specs.ByNode.{column_of, record_of, contents, columns_in};
ghost use Rattle.container_model.specs.State.{has_key_kind};
ghost use Rattle.any_index.specs.Spelled.{list_of, col_of};
ghost use Rattle.any_index.specs.Stored.{IsFiledOnce, nodes_of, record_side_in};
ghost use Rattle.any_index.specs.Keyed.{marks_of, IsKeyed};
ghost use Rattle.any_index.specs.Side.{order_at, equal_but};
ghost use Rattle.index_set.specs.Indices.{IsPlaced};
ghost use Rattle.index_set.specs.Added.{entered_all, HasEachKeyOnce, clash, IsCause};

use any_index::AnyIndex;
use container_model::Spec;
use key_extract::Extract;
use node_store::{Node, NodeStore};
use std::alloc::Global;

/// Why an index was not added.
#[derive(Clone, Copy)]
pub enum NoIndex {
    /// Each column of the store is an index's.
    Columns,
    /// The index would be unique, and the record of `second` has the key of that of `first`.
    Clash { first: Node, second: Node },
    /// Memory was refused.
    Memory,
}

// Whether one of the indices goes through the column.
fn is_used(indices: &[AnyIndex], column: usize) -> bool
    ensures { result ≡ list_any (λ i. col_of i == column) indices.now }
{
    indices.iter().any(|index| index.col() == column)
}

// The least column that none of the indices goes through.
pub(crate) fn free_column(indices: &[AnyIndex]) -> usize
    ensures free { list_any (λ i. col_of i == result) indices.now ≡ false }
    ensures least { (column : ℕ) → column < result →
        list_any (λ i. col_of i == column) indices.now ≡ true }
    ensures within { result ≤ length indices.now }
{
    for column in 0..indices.len() {
        if !is_used(indices, column) {
            return column;
        }
    }
    indices.len()
}

// The node of an index that has the record's key, where the index is to be unique.
fn rival<R, E: Extract<R>>(
    index: &AnyIndex,
    store: &NodeStore<R>,
    keys: &E,
    unique: bool,
    r: &R,
) -> Option<Node>
    requires { IsTrue unique → IsFiledOnce E.Extract None index.now store.now keys.now }
    ensures { result ≡ cond unique (equal_but None
        (record_side_in E.Extract index.now store.now keys.now r.now)
        (nodes_of index.now store.now)) None }
{
    if unique {
        index.same_as(store, keys, r, None)
    } else {
        None
    }
}

// An index of number `index` with these nodes, put in one after the other, in a column that no other index uses.
pub(crate) fn build<R, E: Extract<R>>(
    alloc: Global,
    store: &mut NodeStore<R>,
    keys: &E,
    spec: Spec,
    column: usize,
    index: usize,
    nodes: &[Node],
) -> Result<AnyIndex, NoIndex>
    requires column { column < 8 }
    requires wide { column < width_of store.old }
    requires key { IsTrue (has_key_kind spec.kind) → IsTrue (E.has_key keys.now index) }
    requires unique { IsTrue spec.unique → IsTrue (has_key_kind spec.kind) }
    requires nodes { AllByRecursion (IsNodeOf store.old) nodes.now }
    requires distinct { IsDistinct nodes.now }
    ensures placed { IfOk result (λ made. IsPlaced (columns_in store.new) index spec made) }
    ensures column { IfOk result (λ made. col_of made ≡ column) }
    ensures list { IfOk result (λ made. list_of (columns_in store.new) made ≡
        entered_all (age_of store.old) (order_at (record_of store.old) (E.order_of keys.now index)) spec.kind [] nodes.now) }
    ensures keyed { IfOk result (λ made. IsKeyed (E.order_of keys.now) (marks_of E.Extract keys.now) store.new made) }
    ensures unique { IfOk result (λ made. IsTrue spec.unique → HasEachKeyOnce
        (order_at (record_of store.old) (E.order_of keys.now index))
        (list_of (columns_in store.new) made)) }
    ensures no_clash { OnOk result (clash (order_at (record_of store.old)
        (E.order_of keys.now index)) spec.unique nodes.now ≡ None) }
    ensures cause { IfErr result (IsCause (Unit {0}) (clash (order_at (record_of store.old)
        (E.order_of keys.now index)) spec.unique nodes.now)) }
    ensures others { KeepsOthers (column_of store.old) (column_of store.new) column }
    ensures contents { contents store.new ≡ contents store.old }
{
    let mut made = AnyIndex::new(alloc, spec.kind, column, index);
    for n in nodes {
        if let Some(first) = rival(&made, store, keys, spec.unique, store.get(*n)) {
            return Err(NoIndex::Clash { first, second: *n });
        }
        let Ok(()) = made.reserve_one(store) else {
            return Err(NoIndex::Memory);
        };
        made.enter(store, keys, *n, None, None);
    }
    Ok(made)
}
