//! A container with what its calls are made with.

use crate::book::{Book, Chosen};
use crate::calls::Call;
use crate::keys::Key;
use crate::measured::Measured;
use crate::plain_keys::Seek;
use crate::record::{Record, looked_for, nth_record, of_id};
use container_model::Handle;
use key_extract::Extract;
use std::alloc::{AllocError, Global};

/// Whose the records are.
#[derive(Clone, Copy)]
pub(crate) enum Owners {
    /// Of one for each four records.
    Scattered,
    /// Of so many, by turns.
    Many(u64),
}

/// A container, and the records that it has or will have.
#[derive(Drop)]
pub(crate) struct Filled<E: Seek> {
    alloc: Global,
    book: Book<E>,
    count: u64,
    owners: Owners,
    // In the order of the ids.
    handles: Vec<Handle>,
}

impl<E: Seek> Filled<E>
where
    <E as Extract<Record>>::Probe: Drop,
{
    /// An empty container under these indices, for so many records.
    pub(crate) fn new(
        alloc: Global,
        chosen: Chosen,
        owners: Owners,
        count: u64,
    ) -> Result<Option<Filled<E>>, AllocError> {
        match Book::new(alloc, chosen)? {
            Some(book) => Ok(Some(Filled {
                alloc,
                book,
                count,
                owners,
                handles: Vec::new(alloc),
            })),
            None => Ok(None),
        }
    }

    /// Puts all records in, and keeps their handles.
    pub(crate) fn fill(&mut self, by_id: usize) {
        self.make(Call::Insert, 0, self.count);
        self.handles = self.book.list(self.alloc, by_id);
    }

    // The record of a number.
    fn record(&self, number: u64) -> Record {
        let record = nth_record(number, self.count);
        match self.owners {
            Owners::Scattered => record,
            Owners::Many(owners) => Record {
                owner: number % owners.max(1),
                ..record
            },
        }
    }

    // What the call of a number answers.
    fn made(&mut self, call: Call, number: u64) -> u64 {
        match call {
            Call::Insert | Call::FindOwner(_) | Call::EraseOwner(_) => self.made_with(call, number),
            Call::Nth(_) | Call::MoveOn(_) | Call::EraseFirst(_) | Call::Reverse(_) => {
                self.made_at(call, number)
            }
            Call::Find(..) | Call::Count(..) | Call::Lower(..) | Call::Upper(..) => {
                self.looked_up(call, looked_for(number, self.count))
            }
            _ => self.made_by_handle(call, number),
        }
    }

    // What a look-up of a record answers.
    fn looked_up(&self, call: Call, sought: Record) -> u64 {
        match call {
            Call::Find(index, key) => self.book.find(index, key, &sought),
            Call::Count(index, key) => self.book.count(index, key, &sought),
            Call::Lower(index, key) => self.book.lower(index, key, &sought),
            Call::Upper(index, key) => self.book.upper(index, key, &sought),
            _ => 0,
        }
    }

    // What the call answers with the record of a number.
    fn made_with(&mut self, call: Call, number: u64) -> u64 {
        let record = self.record(number);
        match call {
            Call::Insert => self.book.insert(record),
            Call::FindOwner(index) => self.book.find(index, Key::Owner, &record),
            Call::EraseOwner(index) => self.book.erase_key(index, Key::Owner, &record),
            _ => 0,
        }
    }

    // What the call answers at a place.
    fn made_at(&mut self, call: Call, place: u64) -> u64 {
        match call {
            Call::Reverse(index) => self.book.reverse(index),
            Call::Nth(index) => match self.book.handle_at(index, place) {
                Some(handle) => handle.stamp,
                None => 0,
            },
            Call::EraseFirst(index) => match self.book.handle_at(index, 0) {
                Some(handle) => self.book.erase(handle),
                None => 0,
            },
            Call::MoveOn(index) => match self.book.handle_at(index, place) {
                Some(handle) => self.book.relocate(index, place.saturating_add(2), handle),
                None => 0,
            },
            _ => 0,
        }
    }

    // What the call answers at the handle of a number.
    fn made_by_handle(&mut self, call: Call, number: u64) -> u64 {
        let Some(handle) = self.handles.get(number as usize).copied() else {
            return 0;
        };
        match call {
            Call::Get => self.book.get(handle),
            Call::Place(index) => self.book.place_of(index, handle),
            Call::Rank(index) => self.book.rank(index, handle),
            Call::Next(index) => self.book.next(index, handle),
            Call::Previous(index) => self.book.previous(index, handle),
            Call::MoveToFront(index) => self.book.relocate(index, 0, handle),
            Call::Replace => {
                let record = self.written(handle);
                self.book.replace(handle, record)
            }
            Call::Reprice => self.book.reprice(handle, number),
            Call::Rekey => {
                let record = nth_record(self.count.saturating_add(number), self.count);
                self.book.rekey(handle, record)
            }
            Call::Erase => self.book.erase(handle),
            _ => 0,
        }
    }

    // The record that a write put in.
    fn written(&self, handle: Handle) -> Record {
        self.record(handle.stamp.saturating_sub(1))
    }

    // The sum of the prices of each owner's records.
    fn walk_groups(&self, index: usize) -> u64 {
        let Owners::Many(owners) = self.owners else {
            return 0;
        };
        let mut met = 0u64;
        for owner in 0..owners {
            let record = self.record(owner);
            met = met.wrapping_add(self.book.walk_equal(index, Key::Owner, &record));
        }
        met
    }
}

impl<E: Seek> Measured for Filled<E>
where
    <E as Extract<Record>>::Probe: Drop,
{
    type Call = Call;

    fn has(&self, _call: Call) -> bool {
        true
    }

    fn make(&mut self, call: Call, from: u64, to: u64) -> u64 {
        match call {
            Call::List(index) => self.book.list(self.alloc, index).len() as u64,
            Call::Sort(index) => self.book.sort(index),
            Call::Walk(index) => self.book.walk(index),
            Call::WalkRange(index) => {
                let (low, high) = (of_id(1 << 62), of_id(3 << 62));
                self.book.walk_range(index, Key::Id, &low, &high)
            }
            Call::WalkGroups(index) => self.walk_groups(index),
            _ => {
                let mut met = 0u64;
                for number in from..to {
                    met = met.wrapping_add(self.made(call, number));
                }
                met
            }
        }
    }
}
