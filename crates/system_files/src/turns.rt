//! Who waits for the system to have a log, while the log is written.

use crate::clock::{is_second_since, now};
use crate::descriptor::{Descriptor, TO_WRITE};
use std::alloc::{AllocError, Global};
use std::io;
use std::io::ErrorKind;
use std::sync::Arc;
use std::sync::atomic::{AtomicBool, AtomicU64, Ordering};

/// What a log and its waiter tell each other.
#[derive(Drop)]
struct Told {
    /// The turn that was begun last, and the last one that came to its end.
    begun: AtomicU64,
    ended: AtomicU64,
    /// Whether a turn failed, and whether there is a waiter.
    is_failed: AtomicBool,
    is_taken: AtomicBool,
}

/// What a log knows of its waiter's turns.
#[derive(Drop)]
pub(crate) struct Turns {
    told: Arc<Told, Global>,
    turn: u64,
    /// How many bytes the log has, and how many first ones it had when the turn was begun and were not written again since.
    end: u64,
    stays: u64,
}

impl Turns {
    /// No turn was begun, of a log of so many bytes.
    pub(crate) fn new(alloc: Global, end: u64) -> Result<Turns, AllocError> {
        let told = Told {
            begun: AtomicU64::new(0),
            ended: AtomicU64::new(0),
            is_failed: AtomicBool::new(false),
            is_taken: AtomicBool::new(false),
        };
        Ok(Turns {
            told: Arc::new(alloc, told)?,
            turn: 0,
            end,
            stays: 0,
        })
    }

    /// Whether there is a waiter.
    pub(crate) fn is_taken(&self) -> bool {
        self.told.is_taken.load(Ordering::SeqCst)
    }

    /// Bytes were written from a place on.
    pub(crate) fn write(&mut self, at: u64, count: usize) {
        self.end = self.end.max(at.saturating_add(count as u64));
        self.stays = self.stays.min(at);
    }

    /// What stood behind the first bytes was taken away.
    pub(crate) fn shorten(&mut self, count: u64) {
        self.end = self.end.min(count);
        self.stays = self.stays.min(count);
    }

    /// Begins a turn.
    pub(crate) fn begin(&mut self) {
        self.turn = self.turn.saturating_add(1);
        self.stays = self.end;
        self.told.begun.store(self.turn, Ordering::SeqCst);
    }

    /// How many first bytes the turn made sure of, if it came to its end.
    pub(crate) fn end(&self) -> io::Result<u64> {
        if self.told.is_failed.load(Ordering::SeqCst) {
            return Err(io::Error::from(ErrorKind::Other));
        }
        if self.told.ended.load(Ordering::SeqCst) == self.turn {
            Ok(self.stays)
        } else {
            Ok(0)
        }
    }

    /// Who waits for the log and the mark at these paths.
    pub(crate) fn waiter(&self, log: &str, mark: &str) -> io::Result<Waiter> {
        // Files of its own: the system tells a failure to each of those that are open.
        let log = Descriptor::open(log, TO_WRITE)?;
        let mark = Descriptor::open(mark, TO_WRITE)?;
        let told = Arc::try_clone(&self.told)?;
        told.is_taken.store(true, Ordering::SeqCst);
        Ok(Waiter {
            log,
            mark,
            synced: None,
            told,
        })
    }
}

/// Waits for the system to have a log, and once a second its mark.
#[derive(Drop)]
pub struct Waiter {
    log: Descriptor,
    mark: Descriptor,
    // When the mark was synced.
    synced: Option<i64>,
    told: Arc<Told, Global>,
}

impl Waiter {
    /// Waits until the system has what the log had when its turn was begun, where a crash leaves it.
    pub fn wait(&mut self) {
        let begun = self.told.begun.load(Ordering::SeqCst);
        match self.sync() {
            Ok(()) => self.told.ended.store(begun, Ordering::SeqCst),
            Err(_) => self.told.is_failed.store(true, Ordering::SeqCst),
        }
    }

    // Waits for the system to have both.
    fn sync(&mut self) -> io::Result<()> {
        if is_second_since(self.synced).unwrap_or(true) {
            self.mark.sync_data()?;
            self.synced = now();
        }
        self.log.sync_data()
    }
}
