//! A writer whose failures are counted.
ghost use Rattle.std.specs.Prelude.{◌≡◌, ◌≢◌, length, IfErr, OnOk, OnErr};
ghost use Rattle.std.specs.Io.{WritesAtMost};
ghost use Rattle.std.specs.Io.KnownBytes.{Appends, WriteAppends};
ghost use Rattle.std.specs.IoError.{error_kind};
ghost use Rattle.table_engine.specs.Devices.{AppendsFront, failures_after, failures_after_write};

use crate::again;
use crate::count::raise;
use std::io;
use std::io::{ErrorKind, Write};
use thiserror::Error;

/// A writer, and how often it failed: how many of its writes failed, or had a byte to take and took none. The count stays
/// at `u64::MAX` once it is there.
#[derive(Debug, Drop)]
pub struct Sink<W> {
    inner: W,
    failures: u64,
}

/// A write failed, or took no byte, before all bytes were written.
#[derive(Clone, Copy, Debug, PartialEq, Eq, Error)]
#[error("a write failed")]
pub struct Unwritten;

impl<W> Sink<W> {
    /// A writer that has not failed yet.
    pub fn new(writer: W) -> Sink<W>
        ensures { result ≡ record { inner = writer; failures = 0 } }
    {
        Sink {
            inner: writer,
            failures: 0,
        }
    }

    /// The number of its failures. O(1).
    pub fn failures(&self) -> u64
        ensures { result ≡ self.now.failures }
    {
        self.failures
    }

    /// The writer, which is not flushed. O(1).
    pub fn into_inner(self) -> W
        ensures { result ≡ self.inner }
    {
        self.inner
    }
}

impl<W: Write> Sink<W> {
    /// Writes once, as the writer does. A write that a signal interrupts is made again, up to `MOST_TRIES` times in all, and
    /// all of them are at most one failure.
    pub fn write(&mut self, bytes: &[u8]) -> io::Result<usize>
        ensures bound { WritesAtMost result bytes.now }
        ensures bytes { WriteAppends (W.contents self.old.inner) (W.contents self.new.inner) result bytes.now }
        ensures again { IfErr result (λ error. error_kind error ≢ ErrorKind.Interrupted) }
        ensures failures { self.new.failures ≡ failures_after_write result (length bytes.now) self.old.failures }
    {
        let written = again::write(&mut self.inner, bytes);
        match written {
            Ok(0) if !bytes.is_empty() => raise(&mut self.failures),
            Ok(_) => {}
            Err(_) => raise(&mut self.failures),
        }
        written
    }

    /// Writes all bytes, in as many writes as it takes. At an `Err` the first of them are written, and nothing else. No bytes
    /// are written in no write. The writer is not flushed.
    pub fn write_all(&mut self, bytes: &[u8]) -> Result<(), Unwritten>
        ensures written { OnOk result (Appends (W.contents self.old.inner) (W.contents self.new.inner) bytes.now) }
        ensures front { OnErr result (AppendsFront (W.contents self.old.inner) (W.contents self.new.inner) bytes.now) }
        ensures failures { self.new.failures ≡ failures_after result self.old.failures }
    {
        let mut rest = bytes;
        while !rest.is_empty() {
            let Ok(taken) = self.write(rest) else {
                return Err(Unwritten);
            };
            if taken == 0 {
                return Err(Unwritten);
            }
            let (_, after) = rest.split_at(taken);
            rest = after;
        }
        Ok(())
    }
}
