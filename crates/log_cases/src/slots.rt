//! The file of a mark in memory.

use crate::frail::put_at;
use checked_disk::MarkFile;
use std::io;
use std::io::ErrorKind;

/// The bytes of a mark, and how many more slots it takes.
#[derive(Drop)]
pub struct Slots {
    pub bytes: Vec<u8>,
    pub room: usize,
    puts: u64,
}

impl Slots {
    /// The file of these bytes.
    pub fn new(bytes: Vec<u8>, room: usize) -> Slots {
        Slots {
            bytes,
            room,
            puts: 0,
        }
    }
}

impl MarkFile for Slots {
    ghost use Rattle.std.specs.Prelude.{None};

    ghost contents = { λ _. None };

    ghost puts = { λ s. s.puts };

    fn put(&mut self, at: u64, slot: &[u8]) -> io::Result<()> {
        if self.room == 0 {
            return Err(io::Error::from(ErrorKind::StorageFull));
        }
        self.room -= 1;
        put_at(&mut self.bytes, at as usize, slot)?;
        self.puts = self.puts.saturating_add(1);
        Ok(())
    }
}
