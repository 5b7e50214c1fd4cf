//! Logs that are changed in many ways, each of which is started.

use crate::report::Report;
use crate::rest::Rest;
use crate::starting::{Checked, Why, files_of, start};
use std::alloc::{AllocError, Global};
use table_log::Opened;
use table_schema::TableSpec;

/// How many blocks of a log's end are left out at most, and how long each is.
const BLOCKS: usize = 10;

const BLOCK: usize = 16;

/// A table's log, and what starts made of it where it was changed.
#[derive(Drop)]
pub struct Sweep<'a> {
    alloc: Global,
    spec: &'a TableSpec,
    rest: &'a Rest,
    // How many starts served all lines, or the first ones: with all that were synced, or with fewer; refused; or served anything else.
    whole: u64,
    cut: u64,
    short: u64,
    refused: u64,
    wrong: u64,
}

// How a line of a log is changed.
#[derive(Clone, Copy)]
enum Change {
    Missing,
    Doubled,
    Exchanged,
}

// Whether a block is among those that a number names.
fn is_among(number: usize, block: usize) -> bool {
    let mut rest = number;
    for _ in 0..block {
        rest /= 2;
    }
    rest % 2 == 1
}

// The lines, one of them changed.
fn changed(
    alloc: Global,
    lines: &[&[u8]],
    at: usize,
    change: Change,
) -> Result<Vec<u8>, AllocError> {
    let next = at.saturating_add(1);
    let mut log = Vec::new(alloc);
    for (place, line) in lines.iter().enumerate() {
        let (times, shown) = match change {
            Change::Missing if place == at => (0, place),
            Change::Doubled if place == at => (2, place),
            Change::Exchanged if place == at => (1, next),
            Change::Exchanged if place == next => (1, at),
            _ => (1, place),
        };
        for _ in 0..times {
            log.extend_from_slice(lines.get(shown).copied().unwrap_or_default())?;
        }
    }
    Ok(log)
}

impl<'a> Sweep<'a> {
    /// Nothing was started yet.
    pub fn new(alloc: Global, spec: &'a TableSpec, rest: &'a Rest) -> Sweep<'a> {
        Sweep {
            alloc,
            spec,
            rest,
            whole: 0,
            cut: 0,
            short: 0,
            refused: 0,
            wrong: 0,
        }
    }

    // Starts the log with these bytes in its place.
    fn try_log(&mut self, log: &[u8]) -> Result<(), AllocError> {
        let files = self.rest.files(self.alloc, log)?;
        match start(self.alloc, self.spec, files) {
            Ok(started) => {
                self.count_opened(started.opened);
                Ok(())
            }
            Err(unstarted) => self.count_unstarted(unstarted.why),
        }
    }

    // Counts a start that serves this log.
    fn count_opened(&mut self, opened: Opened<Checked>) {
        let files = files_of(opened.logged.into_disk());
        self.count(&files.log.state.bytes);
    }

    // Counts a start that is refused.
    fn count_unstarted(&mut self, why: Why) -> Result<(), AllocError> {
        if why.is_memory() {
            return Err(AllocError);
        }
        self.refused = self.refused.saturating_add(1);
        Ok(())
    }

    // Counts a start that served these bytes.
    fn count(&mut self, served: &[u8]) {
        let is_front = self.rest.log.starts_with(served);
        let counter = if !is_front {
            &mut self.wrong
        } else if served.len() == self.rest.log.len() {
            &mut self.whole
        } else if served.len() < self.rest.durable {
            &mut self.short
        } else {
            &mut self.cut
        };
        *counter = counter.saturating_add(1);
    }

    /// Each front of the log.
    pub fn ends(&mut self) -> Result<(), AllocError> {
        let rest = self.rest;
        for count in 0..=rest.log.len() {
            self.try_log(rest.log.get(..count).unwrap_or_default())?;
        }
        Ok(())
    }

    /// The log with blocks of its end left out as zeros: each choice of the first ones that no sync made sure of.
    pub fn holes(&mut self) -> Result<(), AllocError> {
        let rest = self.rest;
        for number in 0..1024 {
            let mut log = rest.log.to_vec(self.alloc)?;
            for (place, byte) in log.iter_mut().skip(rest.durable).enumerate() {
                let block = place / BLOCK;
                if block < BLOCKS && is_among(number, block) {
                    *byte = 0;
                }
            }
            self.try_log(&log)?;
        }
        Ok(())
    }

    /// The log with each single bit turned over.
    pub fn flips(&mut self) -> Result<(), AllocError> {
        let rest = self.rest;
        for place in 0..rest.log.len() {
            for bit in [1, 2, 4, 8, 16, 32, 64, 128] {
                let mut log = rest.log.to_vec(self.alloc)?;
                if let Some(byte) = log.get_mut(place) {
                    *byte ^= bit;
                }
                self.try_log(&log)?;
            }
        }
        Ok(())
    }

    /// The log with each line missing, doubled, and exchanged with the next.
    pub fn lines(&mut self) -> Result<(), AllocError> {
        let rest = self.rest;
        let mut lines = Vec::new(self.alloc);
        for line in rest.log.split_inclusive(|byte| *byte == b'\n') {
            lines.push(line)?;
        }
        for at in 0..lines.len() {
            self.try_log(&changed(self.alloc, &lines, at, Change::Missing)?)?;
            self.try_log(&changed(self.alloc, &lines, at, Change::Doubled)?)?;
        }
        for at in 1..lines.len() {
            self.try_log(&changed(self.alloc, &lines, at - 1, Change::Exchanged)?)?;
        }
        Ok(())
    }

    /// Adds what the starts made of it.
    pub fn tell(&self, report: &mut Report) -> Result<(), AllocError> {
        report.number(b"  ", self.whole, b" served whole, ")?;
        report.number(b"", self.cut, b" cut behind what was synced, ")?;
        report.number(b"", self.short, b" cut before, ")?;
        report.number(b"", self.refused, b" refused, ")?;
        report.number(b"", self.wrong, b" wrong\n")
    }
}
