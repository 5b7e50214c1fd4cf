//! A part of a file.

ghost use Rattle.std.specs.Prelude.{◌≡◌, ◌+◌, ◌≤◌, ℕ, List, Some, length};
ghost use Rattle.table_folder.specs.StateIn.{part_known};

use file_disk::LogFile;
use std::io;
use std::io::ErrorKind;

/// What stands from one place of a file to another. It is read alone.
#[derive(Drop)]
pub(crate) struct Window<L: LogFile> {
    file: L,
    first: u64,
    end: u64,
}

impl<L: LogFile> Window<L> {
    /// Of a file. O(1).
    pub(crate) fn new(file: L, first: u64, end: u64) -> Window<L>
        ensures { (result.file ≡ file) × (result.first ≡ first) × (result.end ≡ end) }
    {
        Window { file, first, end }
    }
}

// No call changes what is read alone.
fn unchanged() -> io::Error {
    io::Error::from(ErrorKind::Unsupported)
}

impl<L: LogFile> LogFile for Window<L> {
    ghost contents = { λ w. part_known w.first w.end (L.contents w.file) };

    ghost settles = { λ w. L.settles w.file };

    fn read_from(&mut self, at: u64, piece: &mut [u8]) -> io::Result<usize> {
        let Some(place) = self.first.checked_add(at) else {
            return Ok(0);
        };
        let left = self.end.saturating_sub(place);
        let room = if left < piece.len() as u64 {
            left as usize
        } else {
            piece.len()
        };
        self.file.read_from(place, &mut piece[..room])
    }

    fn write_at(&mut self, _at: u64, _bytes: &[u8]) -> io::Result<usize> {
        Err(unchanged())
    }

    fn shorten(&mut self, _count: u64) -> io::Result<()> {
        Err(unchanged())
    }

    fn settle(&mut self) -> io::Result<()> {
        Err(unchanged())
    }
}
