//! A log's files at rest.

use crate::frail::{Frail, State};
use crate::slots::Slots;
use crate::starting::Files;
use checked_log::{Link, MARK_BYTES, push_mark};
use std::alloc::{AllocError, Global};

/// The bytes of a log and of its mark while no program has them, and how the next one finds their files.
#[derive(Drop)]
pub struct Rest {
    pub log: Vec<u8>,
    pub mark: Vec<u8>,
    /// A mark that was kept.
    kept: Vec<u8>,
    /// How many of the log's first bytes a sync made sure of.
    pub durable: usize,
    /// How many syncs the log takes, how many bytes and how many at a time, and how many slots the mark.
    pub syncs: usize,
    pub room: usize,
    pub at_a_time: usize,
    pub slots: usize,
}

// A mark that says nothing.
fn no_mark(alloc: Global) -> Result<Vec<u8>, AllocError> {
    let mut mark = Vec::with_capacity(alloc, MARK_BYTES)?;
    for _ in 0..MARK_BYTES {
        mark.push(0)?;
    }
    Ok(mark)
}

impl Rest {
    /// An empty log, and a mark that says nothing.
    pub fn new(alloc: Global) -> Result<Rest, AllocError> {
        Ok(Rest {
            log: Vec::new(alloc),
            mark: no_mark(alloc)?,
            kept: no_mark(alloc)?,
            durable: 0,
            syncs: usize::MAX,
            room: usize::MAX,
            at_a_time: usize::MAX,
            slots: usize::MAX,
        })
    }

    /// The files, where the log has these bytes.
    pub fn files(&self, alloc: Global, log: &[u8]) -> Result<Files, AllocError> {
        let mut state = State::new(alloc)?;
        state.bytes.extend_from_slice(log)?;
        state.synced = self.durable.min(log.len());
        state.syncs = self.syncs;
        state.room = self.room;
        state.at_a_time = self.at_a_time;
        Ok(Files {
            log: Frail::new(state),
            mark: Slots::new(self.mark.to_vec(alloc)?, self.slots),
        })
    }

    /// Takes the files back. They fail no more.
    pub fn take_back(&mut self, files: Files) {
        let Files { log, mark } = files;
        self.durable = log.state.synced;
        self.log = log.state.bytes;
        self.mark = mark.bytes;
        self.syncs = usize::MAX;
        self.room = usize::MAX;
        self.at_a_time = usize::MAX;
        self.slots = usize::MAX;
    }

    /// Puts another mark in its place: none, the one that was kept, or that of another log.
    pub fn set_mark(&mut self, alloc: Global, word: &[u8]) -> Result<(), AllocError> {
        match word {
            b"keep" => self.kept = self.mark.to_vec(alloc)?,
            b"kept" => self.mark = self.kept.to_vec(alloc)?,
            _ => {
                self.mark = no_mark(alloc)?;
                if word == b"strange".as_slice() {
                    let link = Link {
                        number: 1,
                        digest: 1,
                    };
                    let mut slot = Vec::new(alloc);
                    push_mark(&mut slot, link)?;
                    for (place, byte) in self.mark.iter_mut().zip(&slot) {
                        *place = *byte;
                    }
                }
            }
        }
        Ok(())
    }
}
