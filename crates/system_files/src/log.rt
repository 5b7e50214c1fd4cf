//! A log that is open, and its mark.

use crate::file::SystemFile;
use crate::mark::SystemMark;
use crate::turns::{Turns, Waiter};
use crate::watch::Watch;
use checked_disk::LogFiles;
use file_disk::LogFile;
use std::alloc::Global;
use std::io;

/// A log and its mark. What they hold is not known to a contract.
#[derive(Drop)]
pub struct SystemLog<W: Watch = ()> {
    log: SystemFile<W>,
    mark: SystemMark,
    turns: Turns,
}

impl<W: Watch> SystemLog<W> {
    /// A log that was opened with so many bytes, or that is absent, and the mark beside it.
    pub(crate) fn new(
        alloc: Global,
        log: SystemFile<W>,
        mark: SystemMark,
        size: u64,
    ) -> io::Result<SystemLog<W>> {
        let turns = Turns::new(alloc, size)?;
        Ok(SystemLog { log, mark, turns })
    }

    /// Who waits for the system beside the calls of this log, once its mark was put; the paths are the log's and the mark's. There is one of a log at most.
    pub fn waiter(&self, log: &str, mark: &str) -> io::Result<Waiter> {
        self.turns.waiter(log, mark)
    }
}

impl<W: Watch> LogFiles for SystemLog<W> {
    ghost use Rattle.std.specs.Prelude.{None, true};

    ghost contents = { λ _. None };

    ghost mark = { λ _. None };

    ghost settles = { λ f. f.log.settles };

    ghost puts = { λ f. f.mark.puts };

    ghost written = { λ _ _. true };

    ghost may_leave = { λ _ _. ⊥ };

    ghost moment = { λ _. 0 };

    ghost left_since = { λ _ _ _. ⊥ };

    ghost counts_now = { λ _ _ _ _ left. left };

    ghost only_now = { λ _ _ left. left };

    fn read_from(&mut self, at: u64, piece: &mut [u8]) -> io::Result<usize> {
        self.log.read_from(at, piece)
    }

    fn write_at(&mut self, at: u64, bytes: &[u8]) -> io::Result<usize> {
        let count = self.log.write_at(at, bytes)?;
        self.turns.write(at, count);
        Ok(count)
    }

    fn shorten(&mut self, count: u64) -> io::Result<()> {
        self.log.shorten(count)?;
        self.turns.shorten(count);
        Ok(())
    }

    fn settle(&mut self) -> io::Result<()> {
        self.log.settle()
    }

    fn begin_settle(&mut self) {
        self.turns.begin();
    }

    fn end_settle(&mut self) -> io::Result<u64> {
        self.turns.end()
    }

    fn put_mark(&mut self, at: u64, slot: &[u8]) -> io::Result<()> {
        self.mark.put(at, slot, self.turns.is_taken())
    }
}
