//! Files in memory that fail.

use file_disk::LogFile;
use std::alloc::{AllocError, Global};
use std::io;
use std::io::ErrorKind;

/// The bytes of a file, and how it fails.
#[derive(Drop)]
pub struct State {
    pub bytes: Vec<u8>,
    /// How many of the first bytes a sync made sure of.
    pub synced: usize,
    /// How many more bytes it takes, how many at a time, and how many more syncs.
    pub room: usize,
    pub at_a_time: usize,
    pub syncs: usize,
    /// Whether every second call is interrupted, and whether the next one is.
    pub interrupts: bool,
    pub is_next: bool,
    /// How often it was synced.
    pub settles: usize,
    /// From where and up to where it was written.
    pub least: usize,
    pub most: usize,
}

/// A file in memory, which fails as its state says.
#[derive(Drop)]
pub struct Frail {
    pub state: State,
    settles: u64,
}

/// Puts bytes over those from a place on, and behind them. A place behind the last byte is the end.
pub fn put_at(bytes: &mut Vec<u8>, at: usize, more: &[u8]) -> Result<(), AllocError> {
    let start = at.min(bytes.len());
    let over = more.len().min(bytes.len() - start);
    let (front, rest) = more.split_at(over);
    bytes[start..start + over].copy_from_slice(front);
    bytes.extend_from_slice(rest)
}

impl State {
    /// No bytes, and memory for as many as a case has. It never fails.
    pub fn new(alloc: Global) -> Result<State, AllocError> {
        Ok(State {
            bytes: Vec::with_capacity(alloc, 4096)?,
            synced: 0,
            room: usize::MAX,
            at_a_time: usize::MAX,
            syncs: usize::MAX,
            interrupts: false,
            is_next: true,
            settles: 0,
            least: usize::MAX,
            most: 0,
        })
    }

    // Fails where this call is interrupted.
    fn begin(&mut self) -> io::Result<()> {
        let is_interrupted = self.interrupts && self.is_next;
        self.is_next = !self.is_next;
        if is_interrupted {
            return Err(io::Error::from(ErrorKind::Interrupted));
        }
        Ok(())
    }

    // Puts bytes over those from a place on, and behind them.
    fn put(&mut self, at: usize, bytes: &[u8]) -> io::Result<()> {
        self.begin()?;
        if !bytes.is_empty() && self.room == 0 {
            return Err(io::Error::from(ErrorKind::StorageFull));
        }
        put_at(&mut self.bytes, at, bytes)?;
        if !bytes.is_empty() {
            self.synced = self.synced.min(at);
            self.least = self.least.min(at);
            self.most = self.most.max(at.saturating_add(bytes.len()));
        }
        self.room = self.room.saturating_sub(bytes.len());
        Ok(())
    }

    // Makes sure of all bytes.
    fn sync(&mut self) -> io::Result<()> {
        if self.syncs == 0 {
            return Err(io::Error::from(ErrorKind::StorageFull));
        }
        self.syncs -= 1;
        self.settles = self.settles.saturating_add(1);
        self.synced = self.bytes.len();
        Ok(())
    }
}

impl Frail {
    /// The file of this state.
    pub fn new(state: State) -> Frail {
        Frail { state, settles: 0 }
    }
}

impl LogFile for Frail {
    ghost use Rattle.std.specs.Prelude.{None};

    ghost contents = { λ _. None };

    ghost settles = { λ f. f.settles };

    fn read_from(&mut self, at: u64, piece: &mut [u8]) -> io::Result<usize> {
        self.state.begin()?;
        let rest = self.state.bytes.get(at as usize..).unwrap_or_default();
        let count = piece.len().min(rest.len()).min(self.state.at_a_time);
        piece[..count].copy_from_slice(&rest[..count]);
        Ok(count)
    }

    fn write_at(&mut self, at: u64, bytes: &[u8]) -> io::Result<usize> {
        let count = bytes.len().min(self.state.room).min(self.state.at_a_time);
        self.state.put(at as usize, &bytes[..count])?;
        Ok(count)
    }

    fn shorten(&mut self, count: u64) -> io::Result<()> {
        self.state.bytes.truncate(count as usize);
        self.state.synced = self.state.synced.min(count as usize);
        Ok(())
    }

    fn settle(&mut self) -> io::Result<()> {
        self.state.sync()?;
        self.settles = self.settles.saturating_add(1);
        Ok(())
    }
}
