//! One index of a container.
ghost use Rattle.std.specs.Prelude.{◌≡◌, IfErr, IfOk, IsTrue, not, option_and_then, option_map};
ghost use Rattle.list_model.specs.Place.{count_equal, find_equal};
ghost use Rattle.container_model.specs.State.{is_hashed_kind, row_of};
ghost use Rattle.indexed.specs.Viewed.{members, side};

use crate::kinds::{IndexKind, Keyed};
use crate::stop::check_search;
use field_keys::{FieldKeys, Fields, Search};
use multi_index::{Handle, MultiIndex, Why};
use std::marker::{Model, PhantomData};

/// One index of a container, borrowed.
#[derive(Drop)]
pub struct View<'a, R: Fields + Drop, K: IndexKind> {
    pub(crate) records: &'a MultiIndex<R, FieldKeys>,
    pub(crate) number: usize,
    pub(crate) kind: PhantomData<K>,
}

impl<'a, R: Fields + Drop, K: IndexKind> Model for View<'a, R, K> {
    ghost use Rattle.indexed.specs.Viewed.{Viewed, IsView};

    ghost Value = { Viewed R };

    ghost view = { λ v. record { all = v.records.now; number = v.number } };

    ghost invariant = { λ v. IsView R.indices K.kind (record { all = v.records.now; number = v.number }) };
}

impl<'a, R: Fields + Drop, K: Keyed> View<'a, R, K> {
    /// The first record that has the key, if any does; in a hashed index the one put in first. O(log n), expected O(1) in a
    /// hashed index.
    pub fn find(&self, search: &Search) -> Option<Handle>
        requires { IsTrue (is_hashed_kind K.kind) → IsTrue (not search.now.leading) }
        ensures { result ≡ find_equal (side R.row_of self.now search.now) (members self.now) }
    {
        check_search::<K>(search, self.number, "find");
        self.records.find(self.number, search).unwrap()
    }

    /// How many records have the key. O(log n + those records), O(log n) in a ranked index.
    pub fn count(&self, search: &Search) -> u64
        requires { IsTrue (is_hashed_kind K.kind) → IsTrue (not search.now.leading) }
        ensures { result ≡ count_equal (side R.row_of self.now search.now) (members self.now) }
    {
        check_search::<K>(search, self.number, "count");
        self.records.count(self.number, search).unwrap()
    }

    /// The record that `find` finds. O(log n), expected O(1) in a hashed index.
    pub fn row(&self, search: &Search) -> Option<&'a R>
        requires { IsTrue (is_hashed_kind K.kind) → IsTrue (not search.now.leading) }
        ensures { option_map (λ r. r.now) result ≡ option_and_then (row_of self.now.all.entries)
            (find_equal (side R.row_of self.now search.now) (members self.now)) }
    {
        check_search::<K>(search, self.number, "row");
        let handle = self.find(search)?;
        self.records.get(handle).ok()
    }
}

impl<'a, R: Fields + Drop, K: IndexKind> View<'a, R, K> {
    /// The handles of all records, in the order of the index; a hashed one's in the order of insertion. Memory alone
    /// refuses. O(records).
    pub fn list(&self) -> Result<Vec<Handle>, Why>
        ensures ok { IfOk result (λ handles. handles.items ≡ members self.now) }
        ensures memory_only { IfErr result (λ why. why ≡ Why.Memory) }
    {
        self.records.view(self.number)
    }
}
