//! The records of an index one after the other.
ghost use Rattle.std.specs.Prelude.{◌≡◌, ◌<◌, Err, IsTrue, None, Ok, cond, count_by, filter, length, not, slice_get};
ghost use Rattle.std.specs.Ordering.{is_eq};
ghost use Rattle.std.specs.Range.Bound.{bound_map};
ghost use Rattle.any_index.specs.Keyed.{marks_of};
ghost use Rattle.list_model.specs.Place.{is_to, range};
ghost use Rattle.container_model.specs.State.{is_hashed_kind, is_sorted_kind, list_at};
ghost use Rattle.container_model.specs.Find.{is_position, kind_at, place_or_end, probe_side};
ghost use Rattle.index_set.specs.Set as nodes;
ghost use Rattle.index_set.specs.Set.{keys_of, specs_of, list_of, IsSound};
ghost use Rattle.index_set.specs.ByRow.{has_by_row};
ghost use Rattle.linked_set.specs.Asked.{AreBoundsOf, FitsAt};
ghost use Rattle.linked_set.specs.Edges.{edge_of, node_edge, KeyFits};
ghost use Rattle.linked_set.specs.Iteration.{rows_from, rows_to, with_rows};
ghost use Rattle.linked_set.specs.Records.{IsWhole, alone, records_in};

use crate::beside::{index_at, is_there};
use crate::iter::Iter;
use crate::linked::node_at;
use crate::linked_set::LinkedSet;
use crate::range::{first_from, up_to};
use container_model::{Entry, Handle, Why};
use index_set::{ByRow, IndexSet, Nodes};
use key_extract::Extract;
use node_store::Node;
use slot_table::SlotTable;
use std::ops::Bound;

impl<R: Drop, E: Extract<R> + Drop> LinkedSet<R, E> {
    /// The records of an index, with their handles and in its order; none where no index has the number. A hashed index has
    /// no order. It takes no memory. O(1) in a sequence, O(log n) in an index in order.
    pub fn iter(&self, index: usize) -> Iter<'_, R, E>
        requires { IsTrue (not (is_hashed_kind (kind_at (alone self.now) index))) }
        ensures { result ≡ with_rows (alone self.now) (list_at self.now.lists index) }
    {
        Iter {
            set: &self.set,
            index,
            next: first_of(&self.set, index),
            end: None,
        }
    }

    /// The records of an index in order from the low bound up to the high one, with their handles and in its order; none
    /// where the high bound stands before the low one. It takes no memory. O(log n).
    pub fn iter_range(
        &self,
        index: usize,
        low: Bound<&E::Probe>,
        high: Bound<&E::Probe>,
    ) -> Iter<'_, R, E>
        requires { AreBoundsOf E.does_fit (alone self.now) index (bound_map (λ p. p.now) low)
            (bound_map (λ p. p.now) high) }
        ensures { result ≡ with_rows (alone self.now)
            (range
            (edge_of (probe_side E.probe_order_of (alone self.now) index) (bound_map (λ p. p.now) low.entry))
            (edge_of (probe_side E.probe_order_of (alone self.now) index)
            (bound_map (λ p. p.now) high.entry)) (list_at self.now.lists index)) }
    {
        let first = first_from(&self.set, index, low);
        Iter {
            set: &self.set,
            index,
            next: up_to(&self.set, index, first, high),
            end: first_past(&self.set, index, high),
        }
    }

    /// The records of an index in order that have the key, with their handles and in its order. It takes no memory. O(log n).
    pub fn iter_equal(&self, index: usize, probe: &E::Probe) -> Iter<'_, R, E>
        requires { FitsAt is_sorted_kind E.does_fit (alone self.now) index probe.now }
        ensures { result ≡ with_rows (alone self.now)
            (filter (λ h. is_eq (probe_side E.probe_order_of (alone self.now) index probe.now h))
            (list_at self.now.lists index)) }
    {
        self.iter_range(index, Bound::Included(probe), Bound::Included(probe))
    }

    /// The records of an index from a position on, with their handles and in its order; from the end on there is none. A
    /// handle that names no record is `Stale`. It takes no memory. O(1).
    pub fn iter_from(&self, index: usize, position: Option<Handle>) -> Result<Iter<'_, R, E>, Why>
        requires { IsTrue (not (is_hashed_kind (kind_at (alone self.now) index))) }
        ensures { result ≡ cond (is_position (alone self.now) position)
            (Ok (rows_from (alone self.now) index position)) (Err Why.Stale) }
    {
        Ok(Iter {
            set: &self.set,
            index,
            next: node_of(&self.set, &self.slots, index, position)?,
            end: None,
        })
    }

    /// The records of an index before a position, with their handles and in its order; before the end stand all. A handle
    /// that names no record is `Stale`. It takes no memory. O(1) in a sequence, O(log n) in an index in order.
    pub fn iter_to(&self, index: usize, position: Option<Handle>) -> Result<Iter<'_, R, E>, Why>
        requires { IsTrue (not (is_hashed_kind (kind_at (alone self.now) index))) }
        ensures { result ≡ cond (is_position (alone self.now) position)
            (Ok (rows_to (alone self.now) index position)) (Err Why.Stale) }
    {
        let next = first_of(&self.set, index);
        Ok(Iter {
            set: &self.set,
            index,
            next,
            end: node_of(&self.set, &self.slots, index, position)?,
        })
    }
}

// The first node of an index that is not hashed, if it has any; none where no index has the number.
fn first_of<R, E: Extract<R>>(set: &IndexSet<Entry<R>, ByRow<E>>, index: usize) -> Option<Node>
    requires sound { IsSound (has_by_row E.has_key) set.now }
    requires kind { IsTrue (not (is_hashed_kind (nodes.kind_at set.now index))) }
    ensures { result ≡ slice_get (list_of set.now index) 0 }
{
    match index_at(set, index) {
        Some(listed) => listed.first(),
        None => None,
    }
}

// The node at a position of an index, or none at its end and where no index has the number. A handle that names no record
// is `Stale`. O(1).
fn node_of<R, E: Extract<R>>(
    set: &IndexSet<Entry<R>, ByRow<E>>,
    slots: &SlotTable<Node>,
    index: usize,
    position: Option<Handle>,
) -> Result<Option<Node>, Why>
    requires { IsWhole E.has_key E.order_of (marks_of E.Extract) set.now slots.now.items }
    ensures { result ≡ cond (is_position (alone (records_in set.now)) position)
        (Ok (slice_get (list_of set.now index)
        (place_or_end (alone (records_in set.now)) index position))) (Err Why.Stale) }
{
    match position {
        None => Ok(None),
        Some(handle) => match node_at(set, slots, handle) {
            Some(node) if is_there(set, index) => Ok(Some(node)),
            Some(_) => Ok(None),
            None => Err(Why::Stale),
        },
    }
}

// The first node of an index in order that stands past the high bound.
fn first_past<R, E: Extract<R>>(
    set: &IndexSet<Entry<R>, ByRow<E>>,
    index: usize,
    high: Bound<&E::Probe>,
) -> Option<Node>
    requires index { index < length (specs_of set.now) }
    requires kind { IsTrue (is_sorted_kind (nodes.kind_at set.now index)) }
    requires fits { KeyFits (E.does_fit (keys_of set.now).keys index)
        (bound_map (λ p. p.now) high) }
    ensures { result ≡ slice_get (list_of set.now index)
        (count_by
        (is_to (node_edge E.probe_order_of set.now index (bound_map (λ p. p.now) high.entry)))
        (list_of set.now index)) }
{
    match high {
        Bound::Included(probe) => set.at(index).upper(probe),
        Bound::Excluded(probe) => set.at(index).lower(probe),
        Bound::Unbounded => None,
    }
}
