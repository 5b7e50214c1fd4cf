//! A log's file and a mark's, each a file of its own.

ghost use Rattle.std.specs.Prelude.{true};

use crate::files::LogFiles;
use crate::mark::MarkFile;
use file_disk::LogFile;
use std::io;

/// A log's file, and the mark's beside it. Of a crash nothing is said here: that one leaves of such files what `LogFiles` says is assumed.
#[derive(Drop)]
pub struct Beside<L: LogFile, M: MarkFile> {
    pub log: L,
    pub mark: M,
}

impl<L: LogFile, M: MarkFile> LogFiles for Beside<L, M> {
    ghost contents = { λ f. L.contents f.log };

    ghost mark = { λ f. M.contents f.mark };

    ghost settles = { λ f. L.settles f.log };

    ghost puts = { λ f. M.puts f.mark };

    ghost written = { λ _ _. true };

    ghost may_leave = { λ _ _. ⊥ };

    ghost moment = { λ _. 0 };

    ghost left_since = { λ _ _ _. ⊥ };

    ghost counts_now = { λ _ _ _ _ left. left };

    ghost only_now = { λ _ _ left. left };

    fn read_from(&mut self, at: u64, piece: &mut [u8]) -> io::Result<usize> {
        self.log.read_from(at, piece)
    }

    fn write_at(&mut self, at: u64, bytes: &[u8]) -> io::Result<usize> {
        self.log.write_at(at, bytes)
    }

    fn shorten(&mut self, count: u64) -> io::Result<()> {
        match self.log.shorten(count) {
            Ok(()) => Ok(()),
            Err(error) => Err(error),
        }
    }

    fn settle(&mut self) -> io::Result<()> {
        self.log.settle()
    }

    fn begin_settle(&mut self) {}

    fn end_settle(&mut self) -> io::Result<u64> {
        match self.log.settle() {
            Ok(()) => Ok(u64::MAX),
            Err(error) => Err(error),
        }
    }

    fn put_mark(&mut self, at: u64, slot: &[u8]) -> io::Result<()> {
        self.mark.put(at, slot)
    }
}
