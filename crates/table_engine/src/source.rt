//! A reader whose reads are counted.
ghost use Rattle.std.specs.Prelude.{◌≡◌, ◌≢◌, IfErr, length};
ghost use Rattle.std.specs.Io.{ReadsAtMost};
ghost use Rattle.std.specs.Io.KnownBytes.{ReadConsumes};
ghost use Rattle.std.specs.IoError.{error_kind};
ghost use Rattle.table_engine.specs.Devices.{ends_after_read, failures_after_read, raised};

use crate::again;
use crate::count::raise;
use std::io;
use std::io::{ErrorKind, Read};

/// A reader, and how often it was read, failed and told its end. Each count stays at `u64::MAX` once it is there.
#[derive(Debug, Drop)]
pub struct Source<R> {
    inner: R,
    reads: u64,
    failures: u64,
    ends: u64,
}

impl<R> Source<R> {
    /// A reader that was not read yet.
    pub fn new(reader: R) -> Source<R>
        ensures { result ≡ record { inner = reader; reads = 0; failures = 0; ends = 0 } }
    {
        Source {
            inner: reader,
            reads: 0,
            failures: 0,
            ends: 0,
        }
    }

    /// The number of its reads. O(1).
    pub fn reads(&self) -> u64
        ensures { result ≡ self.now.reads }
    {
        self.reads
    }

    /// The number of reads that failed. O(1).
    pub fn failures(&self) -> u64
        ensures { result ≡ self.now.failures }
    {
        self.failures
    }

    /// The number of its ends: of reads that succeeded, had room for a byte and gave none. O(1).
    pub fn ends(&self) -> u64
        ensures { result ≡ self.now.ends }
    {
        self.ends
    }
}

impl<R: Read> Source<R> {
    /// Reads once, as the reader does. A read that a signal interrupts is made again, up to `MOST_TRIES` times in all, and
    /// all of them are one read here, and at most one failure.
    pub fn read(&mut self, buf: &mut [u8]) -> io::Result<usize>
        ensures bound { ReadsAtMost result buf.new }
        ensures bytes { ReadConsumes (R.remaining self.old.inner) (R.remaining self.new.inner) result buf.new }
        ensures again { IfErr result (λ error. error_kind error ≢ ErrorKind.Interrupted) }
        ensures reads { self.new.reads ≡ raised self.old.reads }
        ensures failures { self.new.failures ≡ failures_after_read result self.old.failures }
        ensures ends { self.new.ends ≡ ends_after_read result (length buf.old) self.old.ends }
    {
        raise(&mut self.reads);
        let read = again::read(&mut self.inner, buf);
        match read {
            Ok(0) if !buf.is_empty() => raise(&mut self.ends),
            Ok(_) => {}
            Err(_) => raise(&mut self.failures),
        }
        read
    }
}
