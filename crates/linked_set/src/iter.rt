//! Walks along an index, record by record.
ghost use Rattle.std.specs.Prelude.{◌≡◌, ◌<◌, IsTrue, Some, length, not, option_map};
ghost use Rattle.std.specs.Iterator.{YieldsFirstBy, YieldsLastBy, item_count};
ghost use Rattle.list_model.specs.Walk.{prev_of};
ghost use Rattle.container_model.specs.State.{is_hashed_kind};
ghost use Rattle.node_store.specs.declared.Node.{Node};
ghost use Rattle.node_store.specs.Nodes.{Holds};
ghost use Rattle.node_store.specs.ByNode.{same_node};
ghost use Rattle.index_set.specs.Set.{specs_of, list_of, kind_at};

use container_model::{Entry, Handle};
use index_set::{ByRow, IndexSet, Nodes};
use key_extract::Extract;
use node_store::Node;
use std::iter::{DoubleEndedIterator, FusedIterator};
use std::marker::Model;

/// The records of an index, or a run of them, in its order and with their handles, seen as the list of those that are left.
/// A step from either end takes no memory, and is O(1) in a sequence. In an index in order it is O(log n), and O(1) on
/// average over a walk.
#[derive(Drop)]
pub struct Iter<'a, R: Drop, E: Extract<R> + Drop> {
    pub(crate) set: &'a IndexSet<Entry<R>, ByRow<E>>,
    pub(crate) index: usize,
    // The node that comes next, and the one before which the walk ends, if it is not to end with the index.
    pub(crate) next: Option<Node>,
    pub(crate) end: Option<Node>,
}

impl<'a, R: Drop, E: Extract<R> + Drop> Model for Iter<'a, R, E> {
    ghost use Rattle.std.specs.Prelude.{List};
    ghost use Rattle.container_model.specs.declared.handle.Handle.{Handle};
    ghost use Rattle.index_set.specs.Set.{list_of, record_of};
    ghost use Rattle.linked_set.specs.Iteration.{nodes_left, rows_of_nodes, IsWalk};

    ghost Value = { List (Handle × R) };

    ghost view = { λ w. rows_of_nodes (record_of w.set.now) (nodes_left w.next w.end (list_of w.set.now w.index)) };

    ghost invariant = { λ w. IsWalk E.has_key w.set.now w.index w.next w.end };
}

impl<'a, R: Drop, E: Extract<R> + Drop> Iterator for Iter<'a, R, E> {
    type Item = (Handle, &'a R);

    ghost next_gives = { YieldsFirstBy (λ item. (item.0, item.1.now)) (λ rest. rest) };

    ghost remaining = { item_count (λ rest. rest) };

    #[inline(always)]
    fn next(&mut self) -> Option<(Handle, &'a R)> {
        let Some(node) = self.next else {
            return None;
        };
        let set = self.set;
        let store = set.store();
        if store.is_node(self.end, node) {
            return None;
        }
        self.next = set.at(self.index).next(node);
        let entry = store.get(node);
        Some((entry.handle, &entry.row))
    }

    fn size_hint(&self) -> (usize, Option<usize>) {
        (0, None)
    }
}

impl<'a, R: Drop, E: Extract<R> + Drop> DoubleEndedIterator for Iter<'a, R, E> {
    ghost next_back_gives = { YieldsLastBy (λ item. (item.0, item.1.now)) (λ rest. rest) };

    fn next_back(&mut self) -> Option<(Handle, &'a R)> {
        let Some(first) = self.next else {
            return None;
        };
        let set = self.set;
        let store = set.store();
        if store.is_node(self.end, first) {
            return None;
        }
        let Some(node) = node_before(set, self.index, self.end) else {
            return None;
        };
        self.end = Some(node);
        let entry = store.get(node);
        Some((entry.handle, &entry.row))
    }
}

impl<'a, R: Drop, E: Extract<R> + Drop> FusedIterator for Iter<'a, R, E> {}

// The node before a position of an index; before the end stands the last one.
fn node_before<R, E: Extract<R>>(
    set: &IndexSet<Entry<R>, ByRow<E>>,
    index: usize,
    position: Option<Node>,
) -> Option<Node>
    requires index { index < length (specs_of set.now) }
    requires kind { IsTrue (not (is_hashed_kind (kind_at set.now index))) }
    requires held { (n : Node) → position ≡ Some n → Holds (list_of set.now index) n }
    ensures { result ≡ prev_of (option_map same_node position) (list_of set.now index) }
{
    let listed = set.at(index);
    match position {
        Some(node) => listed.prev(node),
        None => listed.last(),
    }
}
