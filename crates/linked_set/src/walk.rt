//! The handles and the nodes of all records, one after the other.
ghost use Rattle.std.specs.Prelude.{◌≡◌, ◌<◌, IfOk, IsTrue, Option, length, map, not};
ghost use Rattle.container_model.specs.State.{is_hashed_kind};
ghost use Rattle.container_model.specs.declared.handle.Entry.{Entry};
ghost use Rattle.node_store.specs.declared.Node.{Node};
ghost use Rattle.node_store.specs.Store.{IsNodeOf};
ghost use Rattle.node_store.specs.ByNode as of_store;
ghost use Rattle.index_set.specs.Set.{contents, record_of, specs_of, list_of, kind_at, IsSound};
ghost use Rattle.index_set.specs.ByRow.{has_by_row};
ghost use Rattle.linked_set.specs.Linked.{handle_of, nodes_in};

use crate::linked::handle_at;
use container_model::{Entry, Handle};
use index_set::{ByRow, Nodes};
use key_extract::Extract;
use node_store::{Node, NodeStore};
use std::alloc::{AllocError, Global};

/// Those of an index that is not hashed, in its order. O(records).
pub(crate) fn in_order<R, E: Extract<R>, S: Nodes<Entry<R>, ByRow<E>>>(
    alloc: Global,
    set: &S,
    index: usize,
) -> Result<Vec<Handle>, AllocError>
    requires sound { IsSound (has_by_row E.has_key) (S.parts set.now) }
    requires index { index < length (specs_of (S.parts set.now)) }
    requires kind { IsTrue (not (is_hashed_kind (kind_at (S.parts set.now) index))) }
    ensures { IfOk result (λ handles. handles.items ≡ map (handle_of (record_of (S.parts set.now)))
        (list_of (S.parts set.now) index)) }
{
    let mut handles = Vec::with_capacity(alloc, set.store().len())?;
    let listed = set.at(index);
    let mut next = listed.first();
    while let Some(node) = next {
        handles.push(handle_at(set, node))?;
        next = listed.next(node);
    }
    Ok(handles)
}

/// What a walk tells of each node.
pub(crate) trait OfNode<R>: Sized + Drop {
    /// What it tells, by the records of the nodes.
    ghost of: { (Node → Option (Entry R)) → Node → Self };

    /// What it tells of this node. O(1).
    fn of(store: &NodeStore<Entry<R>>, node: Node) -> Self
        requires { IsNodeOf store.now node }
        ensures { result ≡ of (of_store.record_of store.now) node };
}

impl<R> OfNode<R> for Node {
    ghost of = { λ records node. node };

    fn of(_store: &NodeStore<Entry<R>>, node: Node) -> Node {
        node
    }
}

impl<R> OfNode<R> for Handle {
    ghost of = { handle_of };

    fn of(store: &NodeStore<Entry<R>>, node: Node) -> Handle {
        store.get(node).handle
    }
}

/// Those of all records, in the order of their adds. O(records).
pub(crate) fn by_age<R, E: Extract<R>, S: Nodes<Entry<R>, ByRow<E>>, T: OfNode<R>>(
    alloc: Global,
    set: &S,
) -> Result<Vec<T>, AllocError>
    requires { IsSound (has_by_row E.has_key) (S.parts set.now) }
    ensures { IfOk result (λ met. met.items ≡ map (T.of (record_of (S.parts set.now)))
        (nodes_in (contents (S.parts set.now)))) }
{
    let store = set.store();
    let mut met = Vec::with_capacity(alloc, store.len())?;
    let mut next = store.newest();
    while let Some(node) = next {
        met.push(T::of(store, node))?;
        next = store.older(node);
    }
    met.reverse();
    Ok(met)
}
