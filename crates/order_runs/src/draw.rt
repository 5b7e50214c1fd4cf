//! Drawn numbers, rows of numbers, searches, handles and orders.

use arrayvec::ArrayVec;
use container_model::Handle;
use key_extract::{Cell, KeySpec, Part, Probe, Row};
use rand_core::utils::NextWord;
use rand_pcg::Pcg32;
use std::alloc::{AllocError, Global};

/// A generator, with how many values its cells have, and the record that was taken out last.
#[derive(Drop)]
pub(crate) struct Draw {
    alloc: Global,
    words: Pcg32,
    range: u32,
    pub(crate) gone: Handle,
}

impl Draw {
    pub(crate) fn new(alloc: Global, script: u64) -> Draw {
        let mut draw = Draw {
            alloc,
            words: Pcg32::new(script, 0),
            range: 0,
            gone: Handle { slot: 0, stamp: 0 },
        };
        draw.range = match draw.below(3) {
            0 => 3,
            1 => 8,
            _ => 40,
        };
        draw
    }

    /// A number below `end`, or 0 where there is none.
    pub(crate) fn below(&mut self, end: u32) -> u32 {
        self.words.next_word().checked_rem(end).unwrap_or(0)
    }

    /// A place of a list, or its end, or the one past it.
    pub(crate) fn place(&mut self, list: &[Handle]) -> u64 {
        let len = u32::try_from(list.len()).unwrap_or(0);
        u64::from(self.below(len.saturating_add(2)))
    }

    /// A handle of a list, or now and then the one that is gone.
    pub(crate) fn handle(&mut self, list: &[Handle]) -> Handle {
        if self.below(8) == 0 {
            return self.gone;
        }
        let place = self.place(list) as usize;
        list.get(place).copied().unwrap_or(self.gone)
    }

    fn cells(&mut self, count: u32) -> Result<Vec<Cell>, AllocError> {
        let mut cells = Vec::new(self.alloc);
        for _ in 0..count {
            cells.push(Cell::Int(i64::from(self.below(self.range))))?;
        }
        Ok(cells)
    }

    pub(crate) fn row(&mut self) -> Result<Row, AllocError> {
        Ok(Row::new(self.cells(3)?))
    }

    /// A search by one or two parts.
    pub(crate) fn probe(&mut self) -> Result<Probe, AllocError> {
        let count = if self.below(2) == 0 { 1 } else { 2 };
        Ok(Probe::new(self.cells(count)?))
    }

    /// A key of one or two parts.
    pub(crate) fn key(&mut self) -> KeySpec {
        let mut parts = ArrayVec::new();
        parts.push(self.part());
        if self.below(2) == 0 {
            parts.push(self.part());
        }
        KeySpec::new(parts)
    }

    fn part(&mut self) -> Part {
        Part {
            column: self.below(3) as usize,
            falling: self.below(2) == 0,
        }
    }

    /// The handles of a list in another order, which now and then lacks one, or has the one that is gone in its place or
    /// beside it.
    pub(crate) fn shuffled(&mut self, list: &[Handle]) -> Result<Vec<Handle>, AllocError> {
        let mut handles = list.to_vec(self.alloc)?;
        self.swap_some(&mut handles);
        let more = self.handle(&handles);
        let fault = self.below(8);
        if fault < 2 {
            handles.pop();
        }
        if fault == 1 || fault == 2 {
            handles.push(more)?;
        }
        Ok(handles)
    }

    fn swap_some(&mut self, handles: &mut [Handle]) {
        for place in 0..handles.len() {
            let with = self.place(handles) as usize;
            if with < handles.len() {
                handles.swap(place, with);
            }
        }
    }
}
