//! The records of an index one after the other.
ghost use Rattle.std.specs.Prelude.{◌≡◌, Err, Ok, cond, filter};
ghost use Rattle.std.specs.Ordering.{is_eq};
ghost use Rattle.std.specs.Range.Bound.{bound_map};
ghost use Rattle.list_model.specs.Place.{range};
ghost use Rattle.container_model.specs.Find.{is_position};
ghost use Rattle.linked_set.specs.Edges.{edge_of};
ghost use Rattle.multi_index.specs.Iteration.{rows_from, rows_to, with_rows};
ghost use Rattle.indexed.specs.Viewed.{members, side};

use crate::kinds::{Sorted, Walked};
use crate::view::View;
use field_keys::{FieldKeys, Fields, Search};
use multi_index::{Handle, Iter, Why};
use std::ops::Bound;

impl<'a, R: Fields + Drop, K: Walked> View<'a, R, K> {
    /// The records in the order of the index, with their handles. O(log n), O(1) in a sequence.
    pub fn iter(&self) -> Iter<'a, R, FieldKeys>
        ensures { result ≡ with_rows self.now.all (members self.now) }
    {
        self.records.iter(self.number)
    }

    /// The records from a position on, in the order of the index and with their handles; from the end on there is none. A
    /// handle that names no record is `Stale`. O(1).
    pub fn iter_from(&self, position: Option<Handle>) -> Result<Iter<'a, R, FieldKeys>, Why>
        ensures { result ≡ cond (is_position self.now.all position)
            (Ok (rows_from self.now.all self.now.number position)) (Err Why.Stale) }
    {
        self.records.iter_from(self.number, position)
    }

    /// The records before a position, in the order of the index and with their handles; before the end stand all. A handle
    /// that names no record is `Stale`. O(log n), O(1) in a sequence.
    pub fn iter_to(&self, position: Option<Handle>) -> Result<Iter<'a, R, FieldKeys>, Why>
        ensures { result ≡ cond (is_position self.now.all position)
            (Ok (rows_to self.now.all self.now.number position)) (Err Why.Stale) }
    {
        self.records.iter_to(self.number, position)
    }
}

impl<'a, R: Fields + Drop, K: Sorted> View<'a, R, K> {
    /// The records that have the key, in the order of the index and with their handles. O(log n).
    pub fn equal(&self, search: &Search) -> Iter<'a, R, FieldKeys>
        ensures { result ≡ with_rows self.now.all
            (filter (λ h. is_eq (side R.row_of self.now search.now h)) (members self.now)) }
    {
        self.records.iter_equal(self.number, search)
    }

    /// The records from the low bound up to the high one, in the order of the index and with their handles; none where the
    /// high bound stands before the low one. O(log n).
    pub fn range(&self, low: Bound<&Search>, high: Bound<&Search>) -> Iter<'a, R, FieldKeys>
        ensures { result ≡ with_rows self.now.all
            (range (edge_of (side R.row_of self.now) (bound_map (λ p. p.now) low.entry))
            (edge_of (side R.row_of self.now) (bound_map (λ p. p.now) high.entry)) (members self.now)) }
    {
        self.records.iter_range(self.number, low, high)
    }

    /// The records from the low key up to the high one, those that have either among them, in the order of the index and with
    /// their handles; none where the high key comes before the low one. O(log n).
    pub fn between(&self, low: &Search, high: &Search) -> Iter<'a, R, FieldKeys>
        ensures { result ≡ with_rows self.now.all
            (range (edge_of (side R.row_of self.now) (Bound.Included low.now))
            (edge_of (side R.row_of self.now) (Bound.Included high.now)) (members self.now)) }
    {
        self.range(Bound::Included(low), Bound::Included(high))
    }
}
