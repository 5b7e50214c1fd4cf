//! No mark.

use checked_disk::MarkFile;
use std::io;

/// No file: for a log that is not at its name yet.
#[derive(Clone, Copy, Debug, PartialEq, Eq)]
pub(crate) struct NoMark {
    puts: u64,
}

impl NoMark {
    /// Nothing was put yet.
    pub(crate) fn new() -> NoMark {
        NoMark { puts: 0 }
    }
}

impl MarkFile for NoMark {
    ghost use Rattle.std.specs.Prelude.{None};

    ghost contents = { λ _. None };

    ghost puts = { λ m. m.puts };

    fn put(&mut self, _at: u64, _slot: &[u8]) -> io::Result<()> {
        self.puts = self.puts.saturating_add(1);
        Ok(())
    }
}
