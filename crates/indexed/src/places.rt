//! Positions in an index: a record, or the end.
ghost use Rattle.std.specs.Prelude.{◌≡◌, slice_get};
ghost use Rattle.list_model.specs.Place as place;
ghost use Rattle.container_model.specs.Find.{place as the_place, project_next, project_prev};
ghost use Rattle.indexed.specs.Viewed.{members, side};

use crate::kinds::{Placed, Random, Sorted, Walked};
use crate::view::View;
use field_keys::{Fields, Search};
use multi_index::{Handle, Why};

impl<'a, R: Fields + Drop, K: Sorted> View<'a, R, K> {
    /// The first record that does not come before the key, or the end. O(log n).
    pub fn lower(&self, search: &Search) -> Option<Handle>
        ensures { result ≡ place.lower (side R.row_of self.now search.now) (members self.now) }
    {
        self.records.lower(self.number, search).unwrap()
    }

    /// The first record that comes after the key, or the end. O(log n).
    pub fn upper(&self, search: &Search) -> Option<Handle>
        ensures { result ≡ place.upper (side R.row_of self.now search.now) (members self.now) }
    {
        self.records.upper(self.number, search).unwrap()
    }
}

impl<'a, R: Fields + Drop, K: Placed> View<'a, R, K> {
    /// The record at a place, counted from 0, or the end. O(log n) in a ranked index, O(1) in a random one.
    pub fn nth(&self, n: u64) -> Option<Handle>
        ensures { result ≡ slice_get (members self.now) n }
    {
        self.records.nth(self.number, n).unwrap()
    }
}

impl<'a, R: Fields + Drop> View<'a, R, Random> {
    /// The place, counted from 0, of a record; a handle that names none is `Stale`. O(1).
    pub fn place_of(&self, handle: Handle) -> Result<u64, Why>
        ensures { result ≡ the_place self.now.all self.now.number handle }
    {
        self.records.place_of(self.number, handle)
    }
}

impl<'a, R: Fields + Drop, K: Walked> View<'a, R, K> {
    /// The position after one; after the last record, and after the end, stands the end. A handle that names no record is
    /// `Stale`. O(1) in a sequence, O(log n) in an index in order.
    pub fn next(&self, position: Option<Handle>) -> Result<Option<Handle>, Why>
        ensures { result ≡ project_next self.now.all self.now.number position }
    {
        self.records.project_next(self.number, position)
    }

    /// The position before one; before the end stands the last record, and before the first record the end. A handle that
    /// names no record is `Stale`. O(1) in a sequence, O(log n) in an index in order.
    pub fn prev(&self, position: Option<Handle>) -> Result<Option<Handle>, Why>
        ensures { result ≡ project_prev self.now.all self.now.number position }
    {
        self.records.project_prev(self.number, position)
    }
}
