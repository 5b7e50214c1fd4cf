//! The container.
ghost use Rattle.std.specs.Prelude.{◌≡◌, ◌↔◌, ◌<◌, IsTrue, length, [], None, unwrap_or, Some, IfOk, IfErr, OnOk, OnErr};
ghost use Rattle.container_model.specs.State.{empty_with_most, row_of};
ghost use Rattle.container_model.specs.Insert.{insert_refusal, new_handle, with_inserted};
ghost use Rattle.container_model.specs.Change.{erase_refusal, with_erased};
ghost use Rattle.field_keys.specs.Indices.{declared_keys, declared_specs};
ghost use Rattle.indexed.specs.Kinds.{are_valid, have_fields, kind_of};
ghost use Rattle.indexed.specs.Orders.{by_key};

use crate::kinds::{IndexKind, Tag};
use crate::stop::must;
use crate::view::View;
use field_keys::{FieldKeys, Fields, Index, specs_of};
use multi_index::{Handle, MultiIndex, Refused, Why};
use std::alloc::{AllocError, Global};
use std::marker::{Model, PhantomData};

/// Records under the indices that they declare.
#[derive(Drop)]
pub struct Indexed<R: Fields + Drop> {
    pub(crate) records: MultiIndex<R, FieldKeys>,
    indices: &'static [Index],
}

impl<R: Fields + Drop> Model for Indexed<R> {
    ghost use Rattle.std.specs.Prelude.{◌≡◌, List};
    ghost use Rattle.key_extract.specs.declared.key.Part.{Part};
    ghost use Rattle.container_model.specs.State.{State};
    ghost use Rattle.indexed.specs.Viewed.{IsDeclared};

    ghost Value = { State (List (List Part)) R };

    ghost view = { λ c. c.records };

    ghost invariant = { λ c. IsDeclared R.indices c.indices.now c.records };
}

impl<R: Fields + Drop> Indexed<R> {
    /// A container without records, for at most `max`, under the indices that they declare. Each part of a key names a field
    /// that every record has. O(indices).
    pub fn new(alloc: Global, indices: &'static [Index], max: u32) -> Result<Indexed<R>, AllocError>
        requires declared { declared_specs indices.now ≡ R.indices }
        requires valid { IsTrue (are_valid indices.now) }
        requires fields { (row : R) → IsTrue (have_fields (length (R.row_of row)) indices.now) }
        ensures { IfOk result (λ made. made ≡ empty_with_most (length R.indices)
            (declared_keys indices.now) R.indices max 0) }
    {
        let specs = specs_of(alloc, indices)?;
        let keys = FieldKeys::declared(indices);
        Ok(Indexed {
            records: MultiIndex::with_most(alloc, specs, keys, indices.len(), max, 0)?,
            indices,
        })
    }

    /// The number of records. O(1).
    pub fn len(&self) -> u64
        ensures { result ≡ length self.now.entries }
    {
        self.records.len()
    }

    /// Whether there is no record. O(1).
    pub fn is_empty(&self) -> bool
        ensures { IsTrue result ↔ (self.now.entries ≡ []) }
    {
        self.records.is_empty()
    }

    /// The number of the last accepted write; refused ones are not counted. O(1).
    pub fn writes(&self) -> u64
        ensures { result ≡ self.now.writes }
    {
        self.records.writes()
    }

    /// One index, to look records up in. O(1).
    pub fn index<K: IndexKind>(&self, tag: Tag<K>) -> View<'_, R, K>
        requires within { tag.0 < length R.indices }
        requires kind { kind_of R.indices tag.0 ≡ K.kind }
        ensures { result ≡ record { all = self.now; number = tag.0 } }
    {
        self.check_tag(tag, "index");
        View {
            records: &self.records,
            number: tag.0,
            kind: PhantomData,
        }
    }

    // That there is an index of this number, and of the kind that its name says.
    pub(crate) fn check_tag<K: IndexKind>(&self, tag: Tag<K>, call: &str)
        requires within { tag.0 < length R.indices }
        requires kind { kind_of R.indices tag.0 ≡ K.kind }
    {
        match self.indices.get(tag.0) {
            Some(index) => must(
                index.0.kind == K::kind(),
                call,
                tag.0,
                "is of another kind than its name says",
            ),
            None => must(false, call, tag.0, "is not there"),
        }
    }

    /// The whole container, for its other look-ups. O(1).
    pub fn container(&self) -> &MultiIndex<R, FieldKeys>
        ensures value { result.now ≡ self.now }
        ensures indices { self.now.specs ≡ R.indices }
    {
        &self.records
    }

    /// The record of a handle; a handle that names none is `Stale`. O(1).
    pub fn get(&self, handle: Handle) -> Result<&R, Why>
        ensures row { IfOk result (λ row. row_of self.now.entries handle ≡ Some row.now) }
        ensures none { OnErr result (row_of self.now.entries handle ≡ None) }
        ensures why { IfErr result (λ why. why ≡ Why.Stale) }
    {
        self.records.get(handle)
    }

    /// Puts a record in: after its equals in the indices that are in order, and last in the others. A refused one is handed
    /// back, and the container is unchanged: a ban comes before `Full`, and `Full` before `Spent`. O(log n) for each index.
    pub fn insert(&mut self, row: R) -> Result<Handle, Refused<R>>
        ensures handle { IfOk result (λ handle. handle ≡ new_handle self.old) }
        ensures allowed { OnOk result (insert_refusal (by_key R.row_of) self.old row ≡ None) }
        ensures ok { OnOk result (self.new ≡ with_inserted (by_key R.row_of) self.old None row) }

        // Memory is refused only where nothing else is.
        ensures why { IfErr result (λ refused. refused.why ≡
            unwrap_or (insert_refusal (by_key R.row_of) self.old row) Why.Memory) }
        ensures handed_back { IfErr result (λ refused. refused.row ≡ Some row) }
        ensures unchanged { OnErr result (self.new ≡ self.old) }
    {
        self.records.insert(row)
    }

    /// Takes a record out of every index, and hands it over. `Stale` and `Spent` are refused, in this order, and change
    /// nothing. O(log n) for each index, but O(the records behind it) in one whose places can be counted.
    pub fn erase(&mut self, handle: Handle) -> Result<R, Why>
        ensures row { IfOk result (λ row. row_of self.old.entries handle ≡ Some row) }
        ensures allowed { OnOk result (erase_refusal self.old handle None ≡ None) }
        ensures ok { OnOk result (self.new ≡ with_erased self.old handle) }
        ensures why { IfErr result (λ why. Some why ≡ erase_refusal self.old handle None) }
        ensures unchanged { OnErr result (self.new ≡ self.old) }
    {
        match self.records.erase(handle, None) {
            Ok(erased) => Ok(erased.row),
            Err(refused) => Err(refused.why),
        }
    }
}
