//! The records of an index one after the other.
ghost use Rattle.std.specs.Prelude.{◌≡◌, IsTrue, filter, not};
ghost use Rattle.std.specs.Ordering.{is_eq};
ghost use Rattle.std.specs.Range.Bound.{bound_map};
ghost use Rattle.std.specs.declared.ops.Bound.TheVariants.{Included};
ghost use Rattle.list_model.specs.Place.{range};
ghost use Rattle.container_model.specs.State.{is_hashed_kind, list_at};
ghost use Rattle.container_model.specs.Find.{at_position, kind_at, probe_side};
ghost use Rattle.linked_set.specs.Edges.{edge_of};
ghost use Rattle.linked_set.specs.Iteration.{rows_from, rows_to, with_rows};
ghost use Rattle.linked_set.specs.Asked.{AreBoundsOf};

use crate::container::MultiIndex;
use container_model::{Handle, Why};
use key_extract::Extract;
use linked_set::Iter;
use std::ops::Bound;

impl<R: Drop, E: Extract<R> + Drop> MultiIndex<R, E> {
    /// The records of an index, with their handles and in its order. A hashed index has none. It takes no memory. O(1) in a
    /// sequence, O(log n) in an index in order.
    pub fn iter(&self, index: usize) -> Iter<'_, R, E>
        requires kind { IsTrue (not (is_hashed_kind (kind_at self.now index))) }
        ensures { result ≡ with_rows self.now (list_at self.now.lists index) }
    {
        self.set.iter(index)
    }

    /// The records of an index in order from the low bound up to the high one, with their handles and in its order; none
    /// where the high bound stands before the low one. It takes no memory. O(log n).
    pub fn iter_range(
        &self,
        index: usize,
        low: Bound<&E::Probe>,
        high: Bound<&E::Probe>,
    ) -> Iter<'_, R, E>
        requires { AreBoundsOf E.does_fit self.now index (bound_map (λ p. p.now) low)
            (bound_map (λ p. p.now) high) }
        ensures { result ≡ with_rows self.now
            (range
            (edge_of (probe_side E.probe_order_of self.now index) (bound_map (λ p. p.now) low.entry))
            (edge_of (probe_side E.probe_order_of self.now index)
            (bound_map (λ p. p.now) high.entry)) (list_at self.now.lists index)) }
    {
        self.set.iter_range(index, low, high)
    }

    /// The records of an index in order that have the key, with their handles and in its order. It takes no memory. O(log n).
    pub fn iter_equal(&self, index: usize, probe: &E::Probe) -> Iter<'_, R, E>
        requires { AreBoundsOf E.does_fit self.now index (Included probe.now)
            (Included probe.now) }
        ensures { result ≡ with_rows self.now
            (filter (λ h. is_eq (probe_side E.probe_order_of self.now index probe.now h))
            (list_at self.now.lists index)) }
    {
        self.set.iter_equal(index, probe)
    }
    /// The records of an index from a position on, with their handles and in its order; from the end on there is none. A
    /// hashed index answers `Kind`, and only then a handle that names no record is `Stale`. It takes no memory. O(1).
    pub fn iter_from(&self, index: usize, position: Option<Handle>) -> Result<Iter<'_, R, E>, Why>
        ensures { result ≡ at_position (λ kind. not (is_hashed_kind kind)) self.now index position
            (rows_from self.now index position) }
    {
        if self.is_hashed(index) {
            return Err(Why::Kind);
        }
        self.set.iter_from(index, position)
    }

    /// The records of an index before a position, with their handles and in its order; before the end stand all. A hashed
    /// index answers `Kind`, and only then a handle that names no record is `Stale`. It takes no memory. O(1) in a
    /// sequence, O(log n) in an index in order.
    pub fn iter_to(&self, index: usize, position: Option<Handle>) -> Result<Iter<'_, R, E>, Why>
        ensures { result ≡ at_position (λ kind. not (is_hashed_kind kind)) self.now index position
            (rows_to self.now index position) }
    {
        if self.is_hashed(index) {
            return Err(Why::Kind);
        }
        self.set.iter_to(index, position)
    }
}
