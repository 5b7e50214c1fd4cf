//! An index that is added to a container of one, and dropped again.
ghost use Rattle.std.specs.Prelude.{◌<◌};

use crate::book::{Book, Chosen, INDICES, keys_match};
use crate::keys::{Key, Keys};
use crate::measured::{Measured, Span, time_calls};
use crate::record::nth_record;
use crate::table::{Side, Size, Table};
use container_model::Spec;
use std::alloc::{AllocError, Global};
use std::io;
use std::rt::Runtime;

/// The call adds one of the indices of books, the last, or drops the last.
#[derive(Clone, Copy)]
pub(crate) enum Change {
    Add(usize),
    Drop,
}

type Row = (&'static str, Change, Span);

const ROWS: [[Row; 2]; 7] = [
    [
        ("add_index, a record, sequenced", Change::Add(0), Span::All),
        (
            "drop_index, a call, sequenced",
            Change::Drop,
            Span::First(1),
        ),
    ],
    [
        (
            "add_index, a record, random access",
            Change::Add(1),
            Span::All,
        ),
        (
            "drop_index, a call, random access",
            Change::Drop,
            Span::First(1),
        ),
    ],
    [
        (
            "add_index, a record, ordered and unique",
            Change::Add(3),
            Span::All,
        ),
        (
            "drop_index, a call, ordered and unique",
            Change::Drop,
            Span::First(1),
        ),
    ],
    [
        (
            "add_index, a record, ordered by two parts",
            Change::Add(6),
            Span::All,
        ),
        (
            "drop_index, a call, ordered by two parts",
            Change::Drop,
            Span::First(1),
        ),
    ],
    [
        ("add_index, a record, ranked", Change::Add(2), Span::All),
        ("drop_index, a call, ranked", Change::Drop, Span::First(1)),
    ],
    [
        (
            "add_index, a record, hashed and unique",
            Change::Add(5),
            Span::All,
        ),
        (
            "drop_index, a call, hashed and unique",
            Change::Drop,
            Span::First(1),
        ),
    ],
    [
        ("add_index, a record, hashed", Change::Add(4), Span::All),
        ("drop_index, a call, hashed", Change::Drop, Span::First(1)),
    ],
];

/// Times each index that comes to a sequence of so many records, and goes.
pub(crate) fn time_comings<R: Runtime>(
    rt: &R,
    alloc: Global,
    table: &mut Table,
    size: Size,
) -> io::Result<()> {
    let chosen = Chosen {
        first: 0,
        count: 1,
        most: 2,
    };
    for rows in &ROWS {
        if let Some(mut book) = Book::new(alloc, chosen)? {
            for number in 0..size.count {
                book.insert(nth_record(number, size.count));
            }
            time_calls(rt, table, Side::Container, &mut book, rows, size)?;
        }
    }
    Ok(())
}

impl Book<Keys> {
    // Adds an index, the last. Answers how many there are then, or 0 where it is refused.
    fn add(&mut self, spec: Spec, key: Key) -> Result<u64, AllocError> {
        if self.records.keys().len() != self.specs.len() {
            return Ok(0);
        }
        let mut specs = self.specs.to_vec(*self.specs.allocator())?;
        specs.push(spec)?;
        let keys = self.records.keys().with(key)?;
        if !keys_match(&keys, &specs) || self.records.add_index(spec, keys).is_err() {
            return Ok(0);
        }
        self.specs = specs;
        Ok(self.specs.len() as u64)
    }

    // Drops the last index. Answers how many there are then, or 0 where it is refused.
    fn drop_last(&mut self) -> Result<u64, AllocError> {
        let mut specs = self.specs.to_vec(*self.specs.allocator())?;
        if specs.pop().is_none() {
            return Ok(0);
        }
        let index = specs.len();
        let keys = self.records.keys().of_first(index)?;
        if !keys_match(&keys, &specs) || self.records.drop_index(index, keys).is_err() {
            return Ok(0);
        }
        self.specs = specs;
        Ok(self.specs.len() as u64)
    }
}

impl Measured for Book<Keys> {
    type Call = Change;

    fn has(&self, _call: Change) -> bool {
        true
    }

    fn make(&mut self, call: Change, _from: u64, _to: u64) -> u64 {
        let done = match call {
            Change::Drop => self.drop_last(),
            Change::Add(at) => match INDICES.get(at).copied() {
                Some((kind, unique, key)) => self.add(Spec { kind, unique }, key),
                None => Ok(0),
            },
        };
        done.unwrap_or(0)
    }
}
