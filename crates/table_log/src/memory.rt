//! A disk in memory.

ghost use Rattle.std.specs.Prelude.{◌≡◌, length, Some};
ghost use Rattle.table_engine.specs.Devices.{raised};

use crate::disk::Disk;
use crate::fault::DiskFailed;
use std::alloc::AllocError;

/// A disk in memory, with room for so many bytes. An append that finds less room fails, and leaves what fits.
#[derive(Drop)]
pub struct MemoryDisk {
    bytes: Vec<u8>,
    synced: u64,
    room: usize,
    failures: u64,
}

impl MemoryDisk {
    /// These bytes, all of them synced, and room for so many more. O(1).
    pub fn new(bytes: Vec<u8>, room: usize) -> MemoryDisk
        ensures { result ≡ record { bytes = bytes; synced = length bytes.items; room = room; failures = 0 } }
    {
        let synced = bytes.len() as u64;
        MemoryDisk {
            bytes,
            synced,
            room,
            failures: 0,
        }
    }

    /// The bytes. O(1).
    pub fn bytes(&self) -> &[u8]
        ensures { result.now ≡ self.now.bytes.items }
    {
        &self.bytes
    }

    // Counts a failure.
    fn fail(&mut self) -> DiskFailed
        ensures { self.new ≡ record { bytes = self.old.bytes; synced = self.old.synced; room = self.old.room; failures = raised self.old.failures } }
    {
        self.failures = self.failures.saturating_add(1);
        DiskFailed
    }
}

impl Disk for MemoryDisk {
    ghost contents = { λ d. Some d.bytes.items };

    ghost size = { λ d. length d.bytes.items };

    ghost synced = { λ d. d.synced };

    ghost failures = { λ d. d.failures };

    ghost same = { λ a b. a ≡ b };

    fn size(&self) -> u64 {
        self.bytes.len() as u64
    }

    fn synced(&self) -> u64 {
        self.synced
    }

    fn read(&mut self, at: u64, piece: &mut [u8]) -> Result<usize, DiskFailed> {
        let start = at as usize;
        let count = piece.len().min(self.bytes.len() - start);
        piece[..count].copy_from_slice(&self.bytes[start..start + count]);
        Ok(count)
    }

    fn reserve(&mut self, count: usize) -> Result<(), AllocError> {
        self.bytes.reserve(count.min(self.room))
    }

    fn append(&mut self, bytes: &[u8]) -> Result<(), DiskFailed> {
        let count = bytes.len().min(self.room);
        let (front, rest) = bytes.split_at(count);
        if self.bytes.extend_from_slice(front).is_err() {
            return Err(self.fail());
        }
        self.room -= count;
        if rest.is_empty() {
            Ok(())
        } else {
            Err(self.fail())
        }
    }

    fn sync(&mut self) -> Result<(), DiskFailed> {
        self.synced = self.bytes.len() as u64;
        Ok(())
    }

    fn begin_sync(&mut self) {}

    fn end_sync(&mut self) -> Result<(), DiskFailed> {
        Ok(())
    }

    fn cut(&mut self, count: u64) -> Result<(), DiskFailed> {
        self.bytes.truncate(count as usize);
        self.synced = count;
        Ok(())
    }

    ghost use Rattle.std.proofs.Common.{◌∙◌};
    ghost use Rattle.std.specs.Prelude.{refl};
    ghost use Rattle.table_log.specs.Disk.{same_length};

    ghost stays = { λ _. refl };

    ghost goes_on = { λ _ _ _ first second. first ∙ second };

    ghost counted = { λ d bytes e. same_length d.bytes.items bytes e };
}
