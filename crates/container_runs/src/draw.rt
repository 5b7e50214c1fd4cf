//! Drawn numbers, rows, searches and handles.

use crate::indices::Index;
use arrayvec::ArrayVec;
use container_model::{Handle, Kind, Spec};
use key_extract::{Cell, KeySpec, Part, Probe, Row, Text};
use rand_core::utils::NextWord;
use rand_pcg::Pcg32;
use std::alloc::{AllocError, Global};

/// A generator: the same seeds give the same draws. It has how many values the cells of a column have.
#[derive(Drop)]
pub(crate) struct Draw {
    alloc: Global,
    words: Pcg32,
    range: u32,
}

// The columns of a whole row.
const ROW: [Part; 3] = [
    Part {
        column: 0,
        falling: false,
    },
    Part {
        column: 1,
        falling: false,
    },
    Part {
        column: 2,
        falling: false,
    },
];

impl Draw {
    pub(crate) fn new(alloc: Global, group: u64, script: u64) -> Draw {
        Draw {
            alloc,
            words: Pcg32::new(script, group),
            range: 0,
        }
    }

    /// A number below `end`, or 0 where there is none.
    pub(crate) fn below(&mut self, end: u32) -> u32 {
        let word = self.words.next_word();
        if end == 0 { 0 } else { word % end }
    }

    /// True once in so many times.
    pub(crate) fn once_in(&mut self, times: u32) -> bool {
        self.below(times) == 0
    }

    /// Draws how many values the cells of a column have.
    pub(crate) fn choose_range(&mut self) {
        self.range = match self.below(3) {
            0 => 3,
            1 => 8,
            _ => 40,
        };
    }

    // A cell of a column; now and then of another column's type.
    fn cell(&mut self, column: usize) -> Result<Cell, AllocError> {
        let number = self.below(self.range);
        let of = if self.once_in(16) {
            self.below(3) as usize
        } else {
            column
        };
        Ok(match of {
            0 => Cell::Int(i64::from(number) - 2),
            1 => Cell::Text(Text::copy_of(self.alloc, text_of(number))?),
            _ => Cell::Bool(number % 2 == 1),
        })
    }

    // Cells of the first so many parts of a key.
    fn cells(&mut self, parts: &[Part], count: usize) -> Result<Vec<Cell>, AllocError> {
        let mut cells = Vec::new(self.alloc);
        for part in parts.iter().take(count) {
            cells.push(self.cell(part.column)?)?;
        }
        Ok(cells)
    }

    /// A row of three cells, and now and then of fewer.
    pub(crate) fn row(&mut self) -> Result<Row, AllocError> {
        let columns = if self.once_in(12) { self.below(3) } else { 3 };
        Ok(Row::new(self.cells(&ROW, columns as usize)?))
    }

    /// A search by a key, or by a leading part of one; by one number where there is no key.
    pub(crate) fn probe(&mut self, key: Option<&KeySpec>) -> Result<Probe, AllocError> {
        let Some(key) = key else {
            return Ok(Probe::new(self.cells(&ROW, 1)?));
        };
        let parts = key.parts();
        let whole = !self.once_in(3);
        let some = self.below(parts.len() as u32) as usize + 1;
        let count = if whole { parts.len() } else { some };
        Ok(Probe::new(self.cells(parts, count)?))
    }

    /// An index, with a key of one to three parts where its kind has one.
    pub(crate) fn index(&mut self) -> Index {
        match self.below(8) {
            0 => without_key(Kind::Sequenced),
            1 => without_key(Kind::Random),
            2..=3 => self.with_key(Kind::Ordered),
            4..=5 => self.with_key(Kind::Ranked),
            _ => self.with_key(Kind::Hashed),
        }
    }

    fn with_key(&mut self, kind: Kind) -> Index {
        let key = self.key();
        let unique = self.once_in(2);
        Index {
            spec: Spec { kind, unique },
            key: Some(key),
        }
    }

    fn key(&mut self) -> KeySpec {
        let mut parts = ArrayVec::new();
        parts.push(self.part());
        let more = self.below(3);
        if more > 0 {
            parts.push(self.part());
        }
        if more > 1 {
            parts.push(self.part());
        }
        KeySpec::new(parts)
    }

    fn part(&mut self) -> Part {
        Part {
            column: self.below(3) as usize,
            falling: self.once_in(3),
        }
    }

    /// A handle of one of so many records, or of none.
    pub(crate) fn handle(&mut self, handles: &[Handle]) -> Handle {
        let count = u32::try_from(handles.len()).unwrap_or(0);
        let at = self.below(count) as usize;
        let mut handle = match handles.get(at) {
            Some(handle) => *handle,
            None => Handle { slot: 0, stamp: 0 },
        };
        match self.below(5) {
            0 => handle.stamp = handle.stamp.wrapping_add(1),
            1 => handle.slot = handle.slot.wrapping_add(1),
            _ => {}
        }
        handle
    }
}

fn without_key(kind: Kind) -> Index {
    Index {
        spec: Spec {
            kind,
            unique: false,
        },
        key: None,
    }
}

fn text_of(number: u32) -> &'static str {
    match number % 8 {
        0 => "",
        1 => "a",
        2 => "ab",
        3 => "aba",
        4 => "b",
        5 => "ba",
        6 => "c",
        _ => "é",
    }
}
