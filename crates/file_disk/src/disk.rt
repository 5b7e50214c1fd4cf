//! A log's disk in a file.

ghost use Rattle.std.specs.Prelude.{◌≡◌, ◌+◌, ◌≤◌, ◌<◌, ◌^◌, ℕ, List, Some, IfOk, OnErr, OnOk, length, take, option_map};
ghost use Rattle.std.specs.Io.{WritesAtMost};
ghost use Rattle.table_engine.specs.Devices.{failures_after, raised};
ghost use Rattle.table_log.specs.Disk.{AppendsAll, Cuts, Reads, synced_after};
ghost use Rattle.file_disk.specs.File.{LacksBack, counted_after, written};

use crate::again::{read_again, write_again};
use crate::file::LogFile;
use std::alloc::AllocError;
use std::io;
use table_log::{Disk, DiskFailed};

/// A file with a log, how many bytes it has, how many of the first of them are synced, and how often it failed.
#[derive(Drop)]
pub struct FileDisk<F: LogFile> {
    file: F,
    size: u64,
    synced: u64,
    failures: u64,
    ghost counted: { (bytes : List ℕ) → F.contents file ≡ Some bytes → size ≡ length bytes },
}

impl<F: LogFile> FileDisk<F> {
    /// A file of so many bytes, none of which is known to be synced. O(1).
    pub fn new(file: F, size: u64) -> FileDisk<F>
        requires { (bytes : List ℕ) → F.contents file ≡ Some bytes → size ≡ length bytes }
        ensures file { result.file ≡ file }
        ensures size { result.size ≡ size }
        ensures synced { result.synced ≡ 0 }
        ensures failures { result.failures ≡ 0 }
    {
        FileDisk {
            file,
            size,
            synced: 0,
            failures: 0,
        }
    }

    /// The file. O(1).
    pub fn into_file(self) -> F
        ensures { result ≡ self.file }
    {
        let FileDisk {
            file: kept,
            size: _,
            synced: _,
            failures: _,
        } = self;
        kept
    }

    // Counts a failure.
    fn fail(&mut self) -> DiskFailed
        ensures file { self.new.file ≡ self.old.file }
        ensures size { self.new.size ≡ self.old.size }
        ensures synced { self.new.synced ≡ self.old.synced }
        ensures failures { self.new.failures ≡ raised self.old.failures }
    {
        self.failures = self.failures.saturating_add(1);
        DiskFailed
    }

    // Appends as many of the bytes as one write takes.
    fn put(&mut self, bytes: &[u8]) -> io::Result<usize>
        requires { self.old.size + length bytes.now < 2 ^ 64 }
        ensures bound { WritesAtMost result bytes.now }
        ensures bytes { F.contents self.new.file ≡ written result bytes.now (F.contents self.old.file) }
        ensures size { self.new.size ≡ counted_after result self.old.size }
        ensures synced { self.new.synced ≡ self.old.synced }
        ensures failures { self.new.failures ≡ self.old.failures }
    {
        let put = write_again(&mut self.file, self.size, bytes);
        if let Ok(taken) = &put {
            self.size += *taken as u64;
        }
        put
    }

    // Takes away what stands behind the first bytes, and leaves it to a sync to make sure of that.
    fn shorten(&mut self, count: u64) -> Result<(), DiskFailed>
        requires { count ≤ self.old.size }
        ensures cut { OnOk result (F.contents self.new.file ≡ option_map (take count) (F.contents self.old.file) × (self.new.size ≡ count)) }
        ensures kept { OnErr result ((F.contents self.new.file ≡ F.contents self.old.file) × (self.new.size ≡ self.old.size)) }
        ensures synced { self.new.synced ≡ self.old.synced }
        ensures failures { self.new.failures ≡ failures_after result self.old.failures }
        ensures settles { F.settles self.new.file ≡ F.settles self.old.file }
    {
        if self.file.shorten(count).is_err() {
            return Err(self.fail());
        }
        self.size = count;
        Ok(())
    }
}

impl<F: LogFile> Disk for FileDisk<F> {
    ghost use Rattle.file_disk.specs.Same.{IsSame, same_goes_on, same_stays};

    ghost contents = { λ d. F.contents d.file };

    ghost size = { λ d. d.size };

    ghost synced = { λ d. d.synced };

    ghost failures = { λ d. d.failures };

    ghost same = { λ a b. IsSame a b };

    ghost stays = { λ d. same_stays d };

    ghost goes_on = { λ a b c first second. same_goes_on a b c first second };

    fn size(&self) -> u64 {
        self.size
    }

    fn synced(&self) -> u64 {
        self.synced
    }

    fn read(&mut self, at: u64, piece: &mut [u8]) -> Result<usize, DiskFailed>
        requires { at ≤ self.old.size }
        ensures bytes { IfOk result (λ count. Reads (F.contents self.old.file) self.old.size at (length piece.old) piece.new count) }
        ensures contents { F.contents self.new.file ≡ F.contents self.old.file }
        ensures size { self.new.size ≡ self.old.size }
        ensures synced { self.new.synced ≡ self.old.synced }
        ensures failures { self.new.failures ≡ failures_after result self.old.failures }
        ensures settles { F.settles self.new.file ≡ F.settles self.old.file }
        ensures same { IsSame self.old self.new }
    {
        let left = self.size - at;
        let room = if left < piece.len() as u64 {
            left as usize
        } else {
            piece.len()
        };
        if room == 0 {
            return Ok(0);
        }
        match read_again(&mut self.file, at, &mut piece[..room]) {
            Ok(0) | Err(_) => Err(self.fail()),
            Ok(count) => Ok(count),
        }
    }

    fn reserve(&mut self, _count: usize) -> Result<(), AllocError> {
        Ok(())
    }

    fn append(&mut self, bytes: &[u8]) -> Result<(), DiskFailed>
        ensures contents { AppendsAll result (F.contents self.old.file) (F.contents self.new.file) bytes.now }
        ensures size { OnOk result (self.new.size ≡ self.old.size + length bytes.now) }
        ensures synced { self.new.synced ≡ self.old.synced }
        ensures failures { self.new.failures ≡ failures_after result self.old.failures }
        ensures short { OnErr result (LacksBack (F.contents self.old.file) (F.contents self.new.file) self.old.size self.new.size bytes.now) }
    {
        if self.size.checked_add(bytes.len() as u64).is_none() {
            return Err(self.fail());
        }
        let mut rest = bytes;
        while !rest.is_empty() {
            match self.put(rest) {
                Ok(0) | Err(_) => return Err(self.fail()),
                Ok(taken) => {
                    let (_, after) = rest.split_at(taken);
                    rest = after;
                }
            }
        }
        Ok(())
    }

    fn sync(&mut self) -> Result<(), DiskFailed>
        ensures contents { F.contents self.new.file ≡ F.contents self.old.file }
        ensures size { self.new.size ≡ self.old.size }
        ensures synced { self.new.synced ≡ synced_after result self.old.size self.old.synced }
        ensures failures { self.new.failures ≡ failures_after result self.old.failures }
        ensures settles { OnOk result (F.settles self.new.file ≡ raised (F.settles self.old.file)) }
    {
        if self.file.settle().is_err() {
            return Err(self.fail());
        }
        self.synced = self.size;
        Ok(())
    }

    fn begin_sync(&mut self) {}

    fn end_sync(&mut self) -> Result<(), DiskFailed> {
        Ok(())
    }

    fn cut(&mut self, count: u64) -> Result<(), DiskFailed>
        requires { count ≤ self.old.size }
        ensures contents { Cuts result count (F.contents self.old.file) (F.contents self.new.file) self.new.size self.new.synced }
        ensures failures { self.new.failures ≡ failures_after result self.old.failures }
        ensures settles { OnOk result (F.settles self.new.file ≡ raised (F.settles self.old.file)) }
    {
        self.shorten(count)?;
        self.sync()
    }

    ghost counted = { λ d bytes e. d.counted bytes e };
}
