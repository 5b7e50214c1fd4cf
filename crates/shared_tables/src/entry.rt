//! Accepted writes.

ghost use Rattle.std.specs.Prelude.{◌≡◌};
ghost use Rattle.shared_tables.specs.Stored.{line_bytes};
ghost use Rattle.shared_tables.specs.Text.{entry_line};

use crate::canonical::Canonical;
use crate::stored::Line;
use std::marker::Model;
use std::sync::Arc;
use table_cmd::Command;

/// An accepted write in the journal of a table. Its command stands once in memory, with that of its session's pass.
#[derive(Drop)]
pub struct Entry {
    pub(crate) session: u32,
    pub(crate) serial: u64,
    pub(crate) command: Arc<Canonical>,
    pub(crate) answer: Line,
}

impl Model for Entry {
    ghost use Rattle.shared_tables.specs.Journal.{EntryData};
    ghost use Rattle.shared_tables.specs.Stored.{line_bytes};

    ghost Value = { EntryData };

    ghost view = { λ e. record { session = e.session; serial = e.serial; command = e.command.value; answer = line_bytes e.answer } };
}

impl Entry {
    /// The session that it came from. O(1).
    pub fn session(&self) -> u32
        ensures { result ≡ self.now.session }
    {
        self.session
    }

    /// Its number among the session's writes of the table, from 1. O(1).
    pub fn serial(&self) -> u64
        ensures { result ≡ self.now.serial }
    {
        self.serial
    }

    /// The write. O(1).
    pub fn command(&self) -> &Command
        ensures { result.now ≡ self.now.command }
    {
        self.command.command()
    }

    /// The canonical text of the write, and a newline. O(1).
    pub(crate) fn line(&self) -> &[u8]
        ensures { result.now ≡ entry_line self.now }
    {
        self.command.line()
    }

    /// The line that was answered, with its newline. O(1).
    pub fn answer(&self) -> &[u8]
        ensures { result.now ≡ self.now.answer }
    {
        self.answer.bytes()
    }
}
