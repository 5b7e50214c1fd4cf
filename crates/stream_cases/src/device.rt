//! Readers and writers that fail.

use std::alloc::AllocError;
use std::io;
use std::io::{Read, Write};

/// A reader that gives its bytes, so many at a time, and then fails, or ends.
#[derive(Drop)]
pub struct Broken<'a> {
    pub rest: &'a [u8],
    pub at_a_time: usize,
    pub fails: bool,
}

impl Read for Broken<'_> {
    fn read(&mut self, buf: &mut [u8]) -> io::Result<usize> {
        if self.rest.is_empty() && self.fails {
            return Err(io::Error::from(io::ErrorKind::TimedOut));
        }
        let count = self.rest.len().min(buf.len()).min(self.at_a_time);
        let (given, rest) = self.rest.split_at(count);
        buf[..given.len()].copy_from_slice(given);
        self.rest = rest;
        Ok(given.len())
    }
}

/// A writer that takes so many bytes, so many at a time, and then fails, or takes no more.
#[derive(Drop)]
pub struct Narrow {
    pub room: usize,
    pub at_a_time: usize,
    pub fails: bool,
    pub taken: Vec<u8>,
}

impl Write for Narrow {
    fn write(&mut self, buf: &[u8]) -> io::Result<usize> {
        let count = buf.len().min(self.room).min(self.at_a_time);
        if count == 0 && self.fails {
            return Err(io::Error::from(io::ErrorKind::BrokenPipe));
        }
        self.taken.extend_from_slice(&buf[..count])?;
        self.room -= count;
        Ok(count)
    }

    fn flush(&mut self) -> io::Result<()> {
        Ok(())
    }
}

/// A writer that keeps what it takes, and how many bytes each write had.
#[derive(Drop)]
pub struct Noted {
    pub taken: Vec<u8>,
    pub sizes: Vec<usize>,
}

impl Write for Noted {
    fn write(&mut self, buf: &[u8]) -> io::Result<usize> {
        self.note(buf)?;
        Ok(buf.len())
    }

    fn flush(&mut self) -> io::Result<()> {
        Ok(())
    }
}

impl Noted {
    fn note(&mut self, buf: &[u8]) -> Result<(), AllocError> {
        self.sizes.push(buf.len())?;
        self.taken.extend_from_slice(buf)
    }
}
