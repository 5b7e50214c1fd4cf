//! Records with handles, under several indices.
ghost use Rattle.std.specs.Prelude.{◌≡◌, IfOk, IfSome, None, Some, length, map};
ghost use Rattle.container_model.specs.State.{empty_with_most, list_at, row_of};
ghost use Rattle.linked_set.specs.Asked.{IsDeclared};
ghost use Rattle.linked_set.specs.Records.{state_of};

use crate::linked::node_at;
use crate::walk::{by_age, in_order};
use container_model::{Entry, Handle, Kind, Spec};
use index_set::{ByRow, IndexSet, Nodes};
use key_extract::Extract;
use node_store::Node;
use slot_table::SlotTable;
use std::alloc::{AllocError, Global};
use std::marker::Model;

/// Records with handles, under several indices. Each index has each record where the record's key puts it. A number that no
/// index has names a sequence without records.
#[derive(Drop)]
pub struct LinkedSet<R: Drop, E: Extract<R> + Drop> {
    pub(crate) set: IndexSet<Entry<R>, ByRow<E>>,
    pub(crate) slots: SlotTable<Node>,
    pub(crate) alloc: Global,
}

impl<R: Drop, E: Extract<R> + Drop> Model for LinkedSet<R, E> {
    ghost use Rattle.any_index.specs.Keyed.{marks_of};
    ghost use Rattle.linked_set.specs.Records.{Records, records_in, IsWhole};

    ghost Value = { Records E R };

    ghost view = { λ s. records_in s.set };

    ghost invariant = { λ s. IsWhole E.has_key E.order_of (marks_of E.Extract) s.set s.slots.items };
}

impl<R: Drop, E: Extract<R> + Drop> LinkedSet<R, E> {
    /// No record under one to eight indices, and never more than `most`. Each index of `specs` that compares records has a
    /// key in `keys`, no other has one or is unique. O(indices).
    pub fn new(alloc: Global, specs: Vec<Spec>, keys: E, most: usize) -> Result<Self, AllocError>
        requires { IsDeclared most (E.has_key keys) specs.items }
        ensures made { IfOk result (λ made. state_of made 0 0 ≡
            empty_with_most most keys specs.items 0 0) }
        ensures none { IfOk result (λ made. made.added ≡ 0) }
    {
        Ok(LinkedSet {
            set: IndexSet::new(alloc, specs, ByRow { keys }, most)?,
            slots: SlotTable::new(alloc),
            alloc,
        })
    }

    /// The number of records. O(1).
    pub fn len(&self) -> usize
        ensures { result ≡ length self.now.entries }
    {
        self.set.store().len()
    }

    /// What each index is, in the order of their numbers. O(1).
    pub fn specs(&self) -> &[Spec]
        ensures { result.now ≡ self.now.specs }
    {
        self.set.specs()
    }

    /// How many indices there may be. O(1).
    pub fn most(&self) -> usize
        ensures { result ≡ self.now.most }
    {
        self.set.columns()
    }

    /// The keys that it goes by. O(1).
    pub fn keys(&self) -> &E
        ensures { result.now ≡ self.now.keys }
    {
        &self.set.keys().keys
    }

    /// The record of a handle, or none where it has gone. O(1).
    pub fn get(&self, handle: Handle) -> Option<&R>
        ensures row { IfSome result (λ row. row_of self.now.entries handle ≡ Some row.now) }
        ensures none { result ≡ None → row_of self.now.entries handle ≡ None }
    {
        match node_at(&self.set, &self.slots, handle) {
            Some(node) => Some(&self.set.store().get(node).row),
            None => None,
        }
    }

    /// The handles of the records, in the order of their insertion. O(records).
    pub fn handles(&self) -> Result<Vec<Handle>, AllocError>
        ensures { IfOk result (λ handles. handles.items ≡ map (λ e. e.handle) self.now.entries) }
    {
        by_age(self.alloc, &self.set)
    }

    /// The records of the index, in its order; a hashed one's in the order of insertion, and none where no index has the
    /// number. O(records).
    pub fn view(&self, index: usize) -> Result<Vec<Handle>, AllocError>
        ensures { IfOk result (λ handles. handles.items ≡ list_at self.now.lists index) }
    {
        let specs = self.set.specs();
        if specs.len() <= index {
            return Ok(Vec::new(self.alloc));
        }
        match specs[index].kind {
            Kind::Hashed => by_age(self.alloc, &self.set),
            Kind::Sequenced | Kind::Random | Kind::Ordered | Kind::Ranked => {
                in_order(self.alloc, &self.set, index)
            }
        }
    }
}
