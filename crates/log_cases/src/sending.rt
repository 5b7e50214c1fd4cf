//! Streams that sessions send, over readers and writers that fail.

use std::alloc::{AllocError, Global};
use std::io;
use std::io::{ErrorKind, Read, Write};

/// A reader that gives its bytes, and then fails, or ends.
#[derive(Drop)]
pub struct Given<'a> {
    pub rest: &'a [u8],
    pub fails: bool,
}

impl Read for Given<'_> {
    fn read(&mut self, buf: &mut [u8]) -> io::Result<usize> {
        if self.rest.is_empty() && self.fails {
            return Err(io::Error::from(ErrorKind::TimedOut));
        }
        let count = self.rest.len().min(buf.len());
        let (given, rest) = self.rest.split_at(count);
        buf[..given.len()].copy_from_slice(given);
        self.rest = rest;
        Ok(given.len())
    }
}

/// A writer that takes so many bytes, and then fails.
#[derive(Drop)]
pub struct Narrow {
    pub room: usize,
    pub taken: Vec<u8>,
}

impl Narrow {
    /// It has taken nothing, and has memory for as much as a case tells.
    pub fn new(alloc: Global, room: usize) -> Result<Narrow, AllocError> {
        Ok(Narrow {
            room,
            taken: Vec::with_capacity(alloc, 4096)?,
        })
    }

    fn take(&mut self, bytes: &[u8]) -> Result<(), AllocError> {
        self.taken.extend_from_slice(bytes)
    }
}

impl Write for Narrow {
    fn write(&mut self, buf: &[u8]) -> io::Result<usize> {
        let count = buf.len().min(self.room);
        if count == 0 {
            return Err(io::Error::from(ErrorKind::BrokenPipe));
        }
        self.take(&buf[..count])?;
        self.room = self.room.saturating_sub(count);
        Ok(count)
    }

    fn flush(&mut self) -> io::Result<()> {
        Ok(())
    }
}
