//! The container with its indices.
ghost use Rattle.std.specs.Prelude.{◌≡◌, ◌<◌, IsTrue, length, not};
ghost use Rattle.container_model.specs.State.{KeysMatch, has_key_kind, is_hashed_kind, is_sorted_kind};
ghost use Rattle.container_model.specs.Find.{kind_at};

use crate::keys::Key;
use crate::plain_keys::Seek;
use crate::record::{ByPrice, Record};
use container_model::{Handle, Kind, Spec, Why};
use key_extract::Extract;
use multi_index::MultiIndex;
use std::alloc::{AllocError, Global};
use std::marker::Model;
use std::ops::Bound;

/// Seven indices, each with whether it is unique and what it compares. The fourth alone, and the third to the fifth, are
/// the smaller containers. Behind them stand two that are a container of their own, as are the last of these and the one
/// behind it. The first seven are also added, one by one, to a container of the first.
pub(crate) const INDICES: [(Kind, bool, Key); 10] = [
    (Kind::Sequenced, false, Key::Nothing),
    (Kind::Random, false, Key::Nothing),
    (Kind::Ranked, false, Key::Price),
    (Kind::Ordered, true, Key::Id),
    (Kind::Hashed, false, Key::Owner),
    (Kind::Hashed, true, Key::Id),
    (Kind::Ordered, false, Key::OwnerAndPrice),
    (Kind::Random, false, Key::Nothing),
    (Kind::Hashed, false, Key::Owner),
    (Kind::Ordered, false, Key::Owner),
];

/// Which of them a container has: so many, from one on, and how many it may have.
#[derive(Clone, Copy)]
pub(crate) struct Chosen {
    pub(crate) first: usize,
    pub(crate) count: usize,
    pub(crate) most: usize,
}

impl Chosen {
    /// Whether these are the one, the three or the seven that are also kept by hand.
    pub(crate) fn is_by_hand(self) -> bool {
        matches!((self.first, self.count), (3, 1) | (2, 3) | (0, 7))
    }
}

/// Records under some indices. A call answers the number of the write that put a record in, or another number as it says;
/// where the index has no such call, or nothing is found, 0.
#[derive(Drop)]
pub(crate) struct Book<E: Seek> {
    pub(crate) specs: Vec<Spec>,
    pub(crate) records: MultiIndex<Record, E>,
}

impl<E: Seek> Model for Book<E> {
    ghost use Rattle.std.specs.Prelude.{◌≡◌};
    ghost use Rattle.container_model.specs.State.{State};
    ghost use Rattle.container_bench.specs.declared.record.Record.{Record as ARecord};

    ghost Value = { State E ARecord };

    ghost view = { λ b. b.records };

    ghost invariant = { λ b. b.records.specs ≡ b.specs.items };
}

// Whether an index has a key where it is of a kind that compares records, and else has none and is not unique.
fn agrees(has_key: bool, spec: Spec) -> bool
    ensures keyed { IsTrue result → has_key ≡ has_key_kind spec.kind }
    ensures unique { IsTrue result → IsTrue spec.unique → IsTrue (has_key_kind spec.kind) }
{
    match spec.kind {
        Kind::Sequenced | Kind::Random => !has_key && !spec.unique,
        Kind::Ordered | Kind::Ranked | Kind::Hashed => has_key,
    }
}

/// Whether all indices do.
pub(crate) fn keys_match<E: Extract<Record>>(keys: &E, specs: &[Spec]) -> bool
    ensures { IsTrue result → KeysMatch (E.has_key keys.now) specs.now }
{
    for index in 0..specs.len() {
        if !agrees(keys.has(index), specs[index]) {
            return false;
        }
    }
    true
}

// What a lookup answers.
fn stamp(found: Result<Option<Handle>, Why>) -> u64 {
    match found {
        Ok(Some(handle)) => handle.stamp,
        _ => 0,
    }
}

impl<E: Seek> Book<E>
where
    <E as Extract<Record>>::Probe: Drop,
{
    /// A book under these indices, if they are those of a container.
    pub(crate) fn new(alloc: Global, chosen: Chosen) -> Result<Option<Book<E>>, AllocError> {
        let mut specs = Vec::new(alloc);
        for (kind, unique, _) in INDICES
            .iter()
            .copied()
            .skip(chosen.first)
            .take(chosen.count)
        {
            specs.push(Spec { kind, unique })?;
        }
        let keys = E::of_indices(alloc, chosen.first, chosen.count)?;
        let few = specs.len() <= chosen.most && chosen.most <= 8;
        if specs.is_empty() || !few || !keys_match(&keys, &specs) {
            return Ok(None);
        }
        let own = specs.to_vec(alloc)?;
        let records = MultiIndex::with_most(alloc, own, keys, chosen.most, u32::MAX, 0)?;
        Ok(Some(Book { specs, records }))
    }

    pub(crate) fn insert(&mut self, record: Record) -> u64 {
        match self.records.insert(record) {
            Ok(handle) => handle.stamp,
            Err(_) => 0,
        }
    }

    pub(crate) fn find(&self, index: usize, key: Key, record: &Record) -> u64 {
        if index >= self.specs.len() {
            return 0;
        }
        stamp(self.records.find(index, &E::sought(key, record)))
    }

    /// The first record that does not come before one.
    pub(crate) fn lower(&self, index: usize, key: Key, record: &Record) -> u64 {
        if index >= self.specs.len() {
            return 0;
        }
        stamp(self.records.lower(index, &E::sought(key, record)))
    }

    /// The first one that comes after it.
    pub(crate) fn upper(&self, index: usize, key: Key, record: &Record) -> u64 {
        if index >= self.specs.len() {
            return 0;
        }
        stamp(self.records.upper(index, &E::sought(key, record)))
    }

    /// How many records have the key of one.
    pub(crate) fn count(&self, index: usize, key: Key, record: &Record) -> u64 {
        if index >= self.specs.len() {
            return 0;
        }
        let sought = E::sought(key, record);
        self.records.count(index, &sought).unwrap_or(0)
    }

    /// Takes out all records that have the key of one, and answers how many they were.
    pub(crate) fn erase_key(&mut self, index: usize, key: Key, record: &Record) -> u64 {
        if index >= self.specs.len() {
            return 0;
        }
        let sought = E::sought(key, record);
        self.records.erase_key(index, &sought).unwrap_or(0)
    }

    /// The price of a record.
    pub(crate) fn get(&self, handle: Handle) -> u64 {
        match self.records.get(handle) {
            Ok(record) => record.price,
            Err(_) => 0,
        }
    }

    /// The record at a place of an index, if there is one.
    pub(crate) fn handle_at(&self, index: usize, place: u64) -> Option<Handle> {
        if index >= self.specs.len() {
            return None;
        }
        self.records.nth(index, place).unwrap_or(None)
    }

    /// The place of a record in a row.
    pub(crate) fn place_of(&self, index: usize, handle: Handle) -> u64 {
        if index >= self.specs.len() {
            return 0;
        }
        self.records.place_of(index, handle).unwrap_or(0)
    }

    /// The rank of a record in an index.
    pub(crate) fn rank(&self, index: usize, handle: Handle) -> u64 {
        if index >= self.specs.len() {
            return 0;
        }
        self.records.rank(index, Some(handle)).unwrap_or(0)
    }

    pub(crate) fn next(&self, index: usize, handle: Handle) -> u64 {
        if index >= self.specs.len() {
            return 0;
        }
        stamp(self.records.project_next(index, Some(handle)))
    }

    pub(crate) fn previous(&self, index: usize, handle: Handle) -> u64 {
        if index >= self.specs.len() {
            return 0;
        }
        stamp(self.records.project_prev(index, Some(handle)))
    }

    /// Moves a record before a place of an index.
    pub(crate) fn relocate(&mut self, index: usize, place: u64, handle: Handle) -> u64 {
        if index < self.specs.len() && self.records.relocate(index, place, handle).is_ok() {
            handle.stamp
        } else {
            0
        }
    }

    /// Turns an index round. Answers 1.
    pub(crate) fn reverse(&mut self, index: usize) -> u64 {
        (index < self.specs.len() && self.records.reverse(index).is_ok()) as u64
    }

    /// Puts an index in the order of prices. Answers 1.
    pub(crate) fn sort(&mut self, index: usize) -> u64 {
        (index < self.specs.len() && self.records.sort(index, &ByPrice).is_ok()) as u64
    }

    /// Takes a record out. Answers its price.
    pub(crate) fn erase(&mut self, handle: Handle) -> u64 {
        match self.records.erase(handle, None) {
            Ok(erased) => erased.row.price,
            Err(_) => 0,
        }
    }

    /// Puts another record in the place of one. Answers its price.
    pub(crate) fn replace(&mut self, handle: Handle, record: Record) -> u64 {
        match self.records.replace(handle, record) {
            Ok(old) => old.price,
            Err(_) => 0,
        }
    }

    /// Gives a record another price. Answers 1.
    pub(crate) fn reprice(&mut self, handle: Handle, price: u64) -> u64 {
        let changed = self
            .records
            .modify_with(handle, |record| record.price = price);
        changed.is_ok() as u64
    }

    /// Gives a record another id, price and owner. Answers 1.
    pub(crate) fn rekey(&mut self, handle: Handle, record: Record) -> u64 {
        let changed = self.records.modify_with(handle, |old| *old = record);
        changed.is_ok() as u64
    }

    /// The records in the order of an index, as far as there is memory.
    pub(crate) fn list(&self, alloc: Global, index: usize) -> Vec<Handle> {
        if index >= self.specs.len() {
            return Vec::new(alloc);
        }
        match self.records.view(index) {
            Ok(handles) => handles,
            Err(_) => Vec::new(alloc),
        }
    }

    /// The sum of the prices of the records along an index.
    pub(crate) fn walk(&self, index: usize) -> u64 {
        if !self.is_walked(index) {
            return 0;
        }
        let mut met = 0u64;
        for (_, record) in self.records.iter(index) {
            met = met.wrapping_add(record.price);
        }
        met
    }

    /// That of the records from one up to another.
    pub(crate) fn walk_range(&self, index: usize, key: Key, low: &Record, high: &Record) -> u64 {
        if !self.is_sorted(index) {
            return 0;
        }
        let (low, high) = (E::sought(key, low), E::sought(key, high));
        let (low, high) = (Bound::Included(&low), Bound::Excluded(&high));
        let mut met = 0u64;
        for (_, record) in self.records.iter_range(index, low, high) {
            met = met.wrapping_add(record.price);
        }
        met
    }

    /// That of the records that have the key of one.
    pub(crate) fn walk_equal(&self, index: usize, key: Key, record: &Record) -> u64 {
        if !self.is_sorted(index) {
            return 0;
        }
        let sought = E::sought(key, record);
        let mut met = 0u64;
        for (_, record) in self.records.iter_equal(index, &sought) {
            met = met.wrapping_add(record.price);
        }
        met
    }

    // Whether the records stand in an order along an index.
    fn is_walked(&self, index: usize) -> bool
        ensures within { IsTrue result → index < length self.now.specs }
        ensures kind { IsTrue result → IsTrue (not (is_hashed_kind (kind_at self.now index))) }
    {
        index < self.specs.len() && !matches!(self.specs[index].kind, Kind::Hashed)
    }

    // Whether they stand in the order of a key.
    fn is_sorted(&self, index: usize) -> bool
        ensures within { IsTrue result → index < length self.now.specs }
        ensures kind { IsTrue result → IsTrue (is_sorted_kind (kind_at self.now index)) }
    {
        index < self.specs.len() && matches!(self.specs[index].kind, Kind::Ordered | Kind::Ranked)
    }
}
