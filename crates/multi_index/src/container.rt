//! The container.
ghost use Rattle.std.specs.Prelude.{◌≡◌, ◌↔◌, ◌≤◌, IsTrue, length, [], None, map, unwrap_or, Some, IfOk, IfErr, IfSome, OnOk, OnErr};
ghost use Rattle.container_model.specs.State.{IsState, empty, empty_with_most, list_at, row_of, has_key_kind, is_hashed_kind};
ghost use Rattle.container_model.specs.Find.{counted, found, kind_at};
ghost use Rattle.std.specs.Option.{option_or};
ghost use Rattle.container_model.specs.Insert.{insert_at_refusal, insert_refusal, limit, new_handle, with_inserted};
ghost use Rattle.linked_set.specs.Asked.{IsDeclared, IsKeyOf};

use container_model::{Handle, Kind, Refused, Spec, Why};
use key_extract::Extract;
use linked_set::LinkedSet;
use std::alloc::{AllocError, Global};
use std::marker::Model;

/// Records under several indices, each of which keeps all of them in an order of its own. Indices are numbered from 0. A call
/// may name a number that no index has: it is then answered as of a sequence without records and without places, by `Kind`
/// where a key, a rank or a place is asked for, and a change of its order is a write that leaves every index as it is.
pub struct MultiIndex<R: Drop, E: Extract<R> + Drop> {
    pub(crate) set: LinkedSet<R, E>,
    pub(crate) max: u32,
    pub(crate) writes: u64,
}

// As a function: a derived drop is written out at each exit of each function that owns a container.
impl<R: Drop, E: Extract<R> + Drop> Drop for MultiIndex<R, E> {
    fn drop(self) {
        let MultiIndex {
            set: _set,
            max: _,
            writes: _,
        } = self;
    }
}

impl<R: Drop, E: Extract<R> + Drop> Model for MultiIndex<R, E> {
    ghost use Rattle.container_model.specs.State.{State};
    ghost use Rattle.linked_set.specs.Records.{state_of};
    ghost use Rattle.multi_index.specs.Container.{IsContainer};

    ghost Value = { State E R };

    ghost view = { λ c. state_of c.set c.max c.writes };

    ghost invariant = { λ c. IsContainer E.has_key E.order_of c.set c.max c.writes };
}

impl<R: Drop, E: Extract<R> + Drop> MultiIndex<R, E> {
    /// A container without records, for at most `max`, whose last write has the number `first_write`, under one to eight
    /// indices. Each index of `specs` that compares records has a key in `keys`, no other has one or is unique. O(indices).
    pub fn new(
        alloc: Global,
        specs: Vec<Spec>,
        keys: E,
        max: u32,
        first_write: u64,
    ) -> Result<Self, AllocError>
        requires { IsDeclared 8 (E.has_key keys) specs.items }
        ensures { IfOk result (λ made. made ≡ empty keys specs.items max first_write) }
    {
        MultiIndex::with_most(alloc, specs, keys, 8, max, first_write)
    }

    /// As `new`, for at most `most` indices at a time. A record takes 32 bytes for each index that there may be. O(indices).
    pub fn with_most(
        alloc: Global,
        specs: Vec<Spec>,
        keys: E,
        most: usize,
        max: u32,
        first_write: u64,
    ) -> Result<Self, AllocError>
        requires { IsDeclared most (E.has_key keys) specs.items }
        ensures { IfOk result (λ made. made ≡ empty_with_most most keys specs.items max
            first_write) }
    {
        Ok(MultiIndex {
            set: LinkedSet::new(alloc, specs, keys, most)?,
            max,
            writes: first_write,
        })
    }

    /// The number of records. O(1).
    pub fn len(&self) -> u64
        ensures { result ≡ length self.now.entries }
    {
        self.set.len() as u64
    }

    /// Whether there is no record. O(1).
    pub fn is_empty(&self) -> bool
        ensures { IsTrue result ↔ (self.now.entries ≡ []) }
    {
        self.set.len() == 0
    }

    /// The number of the last accepted write; refused ones are not counted. O(1).
    pub fn writes(&self) -> u64
        ensures number { result ≡ self.now.writes }
        ensures kept { IsState E.has_key E.order_of self.now }
    {
        self.writes
    }

    /// The keys that it goes by. O(1).
    pub fn keys(&self) -> &E
        ensures { result.now ≡ self.now.keys }
    {
        self.set.keys()
    }

    /// Puts a record in: after its equals in the indices that are in order, and last in the others. A refused one is handed
    /// back, and the container is unchanged: a ban comes before `Full`, and `Full` before `Spent`. O(log n) for each index.
    pub fn insert(&mut self, row: R) -> Result<Handle, Refused<R>>
        ensures handle { IfOk result (λ handle. handle ≡ new_handle self.old) }
        ensures allowed { OnOk result (insert_refusal E.order_of self.old row ≡ None) }
        ensures ok { OnOk result (self.new ≡ with_inserted E.order_of self.old None row) }

        // Memory is refused only where nothing else is.
        ensures why { IfErr result (λ refused. refused.why ≡
            unwrap_or (insert_refusal E.order_of self.old row) Why.Memory) }
        ensures handed_back { IfErr result (λ refused. refused.row ≡ Some row) }
        ensures unchanged { OnErr result (self.new ≡ self.old) }
    {
        self.put(None, row)
    }

    /// Puts a record in before the place of a sequence, and as `insert` does in the other indices; at the place `len` it
    /// goes last. A refused one is handed back, and the container is unchanged: `Kind`, where the index is no sequence,
    /// comes before `Place`, where the place is past the end, and that before what `insert` refuses. O(log n) for each index,
    /// but O(n) in the sequence.
    pub fn insert_at(&mut self, index: usize, place: u64, row: R) -> Result<Handle, Refused<R>>
        ensures handle { IfOk result (λ handle. handle ≡ new_handle self.old) }
        ensures allowed { OnOk result
            (insert_at_refusal E.order_of self.old index place row ≡ None) }
        ensures ok { OnOk result (self.new ≡ with_inserted E.order_of self.old
            (Some (index, place)) row) }

        // Memory is refused only where nothing else is.
        ensures why { IfErr result (λ refused. refused.why ≡
            unwrap_or (insert_at_refusal E.order_of self.old index place row) Why.Memory) }
        ensures handed_back { IfErr result (λ refused. refused.row ≡ Some row) }
        ensures unchanged { OnErr result (self.new ≡ self.old) }
    {
        if let Some(why) = self.place_refusal(index, place) {
            return Err(Refused {
                why,
                row: Some(row),
            });
        }
        self.put(Some((index, place)), row)
    }

    /// The record of a handle; a handle that names none is `Stale`. O(1).
    pub fn get(&self, handle: Handle) -> Result<&R, Why>
        ensures row { IfOk result (λ row. row_of self.now.entries handle ≡ Some row.now) }
        ensures none { OnErr result (row_of self.now.entries handle ≡ None) }
        ensures why { IfErr result (λ why. why ≡ Why.Stale) }
    {
        match self.set.get(handle) {
            Some(row) => Ok(row),
            None => Err(Why::Stale),
        }
    }

    /// The first record of the index that has the key, if any does, and in a hashed index the one put in first of those that
    /// have it; a sequence has none, and answers `Kind`. O(log n); expected O(1) in a hashed index, and in one that is not
    /// unique O(1 + the records that have the key) once changes brought records to it that are older than others of it.
    pub fn find(&self, index: usize, probe: &E::Probe) -> Result<Option<Handle>, Why>
        requires { IsKeyOf E.does_fit E.is_whole self.now index probe.now }
        ensures { result ≡ found E.probe_order_of self.now index probe.now }
    {
        if !self.has_key(index) {
            return Err(Why::Kind);
        }
        Ok(self.set.find(index, probe))
    }

    /// How many records of the index have the key; a sequence has none, and answers `Kind`. In O(log n) comparisons and that
    /// many steps in an ordered index, O(log n) in a ranked one, expected O(1 + those records) in a hashed one.
    pub fn count(&self, index: usize, probe: &E::Probe) -> Result<u64, Why>
        requires { IsKeyOf E.does_fit E.is_whole self.now index probe.now }
        ensures { result ≡ counted E.probe_order_of self.now index probe.now }
    {
        if self.has_key(index) {
            Ok(self.set.count(index, probe))
        } else {
            Err(Why::Kind)
        }
    }

    /// The records of the index, in its order; a hashed one's in the order of insertion. O(records).
    pub fn view(&self, index: usize) -> Result<Vec<Handle>, Why>
        ensures ok { IfOk result (λ handles. handles.items ≡ list_at self.now.lists index) }
        ensures memory_only { IfErr result (λ why. why ≡ Why.Memory) }
    {
        self.set.view(index).map_err(|_| Why::Memory)
    }

    /// The handles of the records, in the order of their insertion. O(records).
    pub fn handles(&self) -> Result<Vec<Handle>, AllocError>
        ensures { IfOk result (λ handles. handles.items ≡ map (λ e. e.handle) self.now.entries) }
    {
        self.set.handles()
    }

    // What the index is: where it is not there, what has no keys, no ranks and no places.
    pub(crate) fn kind(&self, index: usize) -> Kind
        ensures { result ≡ kind_at self.now index }
    {
        match self.set.specs().get(index) {
            Some(spec) => spec.kind,
            None => Kind::Sequenced,
        }
    }

    // Whether the index is searched by whole keys alone.
    pub(crate) fn is_hashed(&self, index: usize) -> bool
        ensures { result ≡ is_hashed_kind (kind_at self.now index) }
    {
        match self.kind(index) {
            Kind::Hashed => true,
            Kind::Sequenced | Kind::Random | Kind::Ordered | Kind::Ranked => false,
        }
    }

    // Whether the index has a key.
    pub(crate) fn has_key(&self, index: usize) -> bool
        ensures { result ≡ has_key_kind (kind_at self.now index) }
    {
        match self.kind(index) {
            Kind::Sequenced | Kind::Random => false,
            Kind::Ordered | Kind::Ranked | Kind::Hashed => true,
        }
    }

    // Puts a record in: where it is asked for, and elsewhere at its usual places.
    fn put(&mut self, at: Option<(usize, u64)>, row: R) -> Result<Handle, Refused<R>>
        requires within { IfSome at (λ at. at.1 ≤ length self.old.entries) }
        ensures handle { IfOk result (λ handle. handle ≡ new_handle self.old) }
        ensures allowed { OnOk result (insert_refusal E.order_of self.old row ≡ None) }
        ensures ok { OnOk result (self.new ≡ with_inserted E.order_of self.old at row) }
        ensures why { IfErr result (λ refused. refused.why ≡
            unwrap_or (insert_refusal E.order_of self.old row) Why.Memory) }
        ensures handed_back { IfErr result (λ refused. refused.row ≡ Some row) }
        ensures unchanged { OnErr result (self.new ≡ self.old) }
    {
        let number = self.writes.wrapping_add(1);
        let limit = self.limit();
        match self.set.insert(at, row, number, limit) {
            Ok(handle) => {
                self.writes = number;
                Ok(handle)
            }
            Err(refused) => Err(refused),
        }
    }

    // Why no record may go in before a place of an index.
    fn place_refusal(&self, index: usize, place: u64) -> Option<Why>
        ensures why { (row : R) → insert_at_refusal E.order_of self.now index place row ≡
            option_or result (insert_refusal E.order_of self.now row) }
        ensures within { result ≡ None → place ≤ length self.now.entries }
    {
        if self.has_key(index) {
            return Some(Why::Kind);
        }
        if place > self.len() {
            return Some(Why::Place);
        }
        None
    }

    // Why no record may go in, whatever its keys are.
    fn limit(&self) -> Option<Why>
        ensures { result ≡ limit self.now }
    {
        if self.len() == self.max as u64 {
            return Some(Why::Full);
        }
        self.spent()
    }
}
