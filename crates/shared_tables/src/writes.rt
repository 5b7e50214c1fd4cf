//! The accepted writes that a pass keeps of one table.

ghost use Rattle.std.specs.Prelude.{◌≡◌, ◌+◌, ◌<◌, ◌≤◌, ◌↔◌, ◌∷◌, ◌++◌, [], length, slice_index_or, IsTrue, OnOk};
ghost use Rattle.shared_tables.specs.Journal.{last_number};
ghost use Rattle.shared_tables.specs.Writes.{IsWithin, answered_of};

use crate::canonical::Canonical;
use crate::entry::Entry;
use std::alloc::{AllocError, Global};
use std::marker::Model;
use std::sync::Arc;

/// An accepted write: its number, the write, and where its answer stands among the bytes of all answers.
#[derive(Drop)]
pub(crate) struct Written {
    pub(crate) number: u64,
    pub(crate) command: Arc<Canonical>,
    pub(crate) start: usize,
    pub(crate) length: usize,
}

/// Accepted writes in order, and the bytes of their answers, one answer after another. A clause sees the writes, and for how
/// many writes and bytes more there is room.
#[derive(Drop)]
pub(crate) struct Writes {
    rows: Vec<Written>,
    answers: Vec<u8>,
}

impl Model for Writes {
    ghost use Rattle.std.specs.Prelude.{◌-◌, length, vec_capacity, vec_len};
    ghost use Rattle.std.specs.List.{AllByRecursion};
    ghost use Rattle.shared_tables.specs.Writes.{IsWithin, WritesData, answered_in};

    ghost Value = { WritesData };

    ghost view = { λ w. record { items = answered_in w.answers.items w.rows.items; rows = vec_capacity w.rows - vec_len w.rows; bytes = vec_capacity w.answers - vec_len w.answers } };

    ghost invariant = { λ w. AllByRecursion (IsWithin (length w.answers.items)) w.rows.items };
}

impl Written {
    // Whether it is the entry before which so many stand. Its answer is among these bytes.
    fn is_entry(&self, answers: &[u8], before: usize, entry: &Entry) -> bool
        requires { IsWithin (length answers.now) self.now }
        ensures { IsTrue result ↔ (answered_of answers.now self.now ≡ record { number = before + 1; command = entry.now.command; answer = entry.now.answer }) }
    {
        let (_, later) = answers.split_at(self.start);
        let (answer, _) = later.split_at(self.length);
        self.number > 0
            && self.number - 1 == before as u64
            && answer == entry.answer()
            && self.command.command().is_same(entry.command())
    }
}

impl Writes {
    /// No write, and no memory.
    pub(crate) fn new(alloc: Global) -> Writes
        ensures { result.items ≡ [] }
    {
        Writes {
            rows: Vec::new(alloc),
            answers: Vec::new(alloc),
        }
    }

    /// Makes room for one more write, with an answer of at most 256 bytes.
    pub(crate) fn reserve(&mut self) -> Result<(), AllocError>
        ensures items { self.new.items ≡ self.old.items }
        ensures rows { OnOk result (0 < self.new.rows) }
        ensures bytes { OnOk result (256 ≤ self.new.bytes) }
    {
        self.rows.reserve(1)?;
        self.answers.reserve(256)
    }

    /// Puts a write at the end, for which there is room.
    pub(crate) fn push(&mut self, number: u64, command: Arc<Canonical>, answer: &[u8])
        requires row { 0 < self.old.rows }
        requires bytes { length answer.now ≤ self.old.bytes }
        ensures { self.new.items ≡ self.old.items ++ record { number = number; command = command.value; answer = answer.now } ∷ [] }
    {
        let start = self.answers.len();
        self.answers.extend_from_slice(answer).unwrap();
        self.rows.push_reserved(Written {
            number,
            command,
            start,
            length: answer.len(),
        });
    }

    /// How many they are.
    pub(crate) fn len(&self) -> usize
        ensures { result ≡ length self.now.items }
    {
        self.rows.len()
    }

    /// The number of the last one, or 0.
    pub(crate) fn last_number(&self) -> u64
        ensures { result ≡ last_number self.now.items }
    {
        match self.rows.last() {
            Some(write) => write.number,
            None => 0,
        }
    }

    /// Whether the write at this place is the entry before which so many stand.
    pub(crate) fn is_entry(&self, at: usize, before: usize, entry: &Entry) -> bool
        requires { at < length self.now.items }
        ensures { IsTrue result ↔ (slice_index_or self.now.items at (record { number = before + 1; command = entry.now.command; answer = entry.now.answer })
            ≡ record { number = before + 1; command = entry.now.command; answer = entry.now.answer }) }
    {
        self.rows[at].is_entry(&self.answers, before, entry)
    }
}
