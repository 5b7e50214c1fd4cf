//! A table with its log.

ghost use Rattle.std.specs.Prelude.{◌≡◌, ◌+◌, ◌≤◌, ◌↔◌, false, true, if◌then◌else◌, IfErr, IfOk, IsSome, IsTrue, OnErr, OnOk, length};
ghost use Rattle.command_lines.specs.Fits.{CommandFits};
ghost use Rattle.table_changes.specs.Change.{is_change};
ghost use Rattle.table_reply.specs.Ready.{IsBehind};
ghost use Rattle.table_log.specs.declared.fault.OpenWhy.TheVariants.{Memory};
ghost use Rattle.table_log.specs.Log.{after_command};
ghost use Rattle.table_log.specs.Logged.{AppendsAnswer, IsKept, IsSyncedOn, LeavesTable, Stops, Tells, failed_log, log_line, synced_log};

use crate::disk::Disk;
use crate::fault::{OpenFault, OpenWhy, Over};
use command_text::write_command;
use std::alloc::Global;
use std::marker::Model;
use table_cmd::Command;
use table_reply::{Out, OutOfRoom, Ready, Told};
use table_schema::TableSpec;
use table_step::{Outcome, Table, is_change, refuse_memory};

/// A table, and on a disk the log of its accepted writes. The table is what the log's lines leave of the one that it begins with.
#[derive(Drop)]
pub struct LoggedTable<D: Disk> {
    // The declaration of the empty table that the log begins with.
    pub(crate) declared: Option<TableSpec>,
    pub(crate) table: Table,
    pub(crate) disk: D,
    pub(crate) line: Out,
    pub(crate) is_over: bool,
    pub(crate) alloc: Global,
}

impl<D: Disk> Model for LoggedTable<D> {
    ghost use Rattle.table_log.specs.Logged.{IsKept, LogData};

    ghost Value = { LogData };

    ghost view = { λ l. record { declared = l.declared; table = l.table; bytes = D.contents l.disk; size = D.size l.disk; synced = D.synced l.disk; failures = D.failures l.disk; is_over = l.is_over } };

    ghost invariant = { λ l. IsKept (record { declared = l.declared; table = l.table; bytes = D.contents l.disk; size = D.size l.disk; synced = D.synced l.disk; failures = D.failures l.disk; is_over = l.is_over }) };
}

/// How long a log was when an answer was given.
#[derive(Clone, Copy, Debug, PartialEq, Eq)]
pub struct Mark {
    bytes: u64,
}

// Puts the line of a write into a buffer, in place of what stands there.
fn set_line(alloc: Global, command: &Command, line: &mut Out) -> Result<(), OutOfRoom>
    ensures { OnOk result (line.new.bytes ≡ log_line command.now) }
{
    line.clear();
    write_command(alloc, command, line)?;
    line.try_push(b"\n")
}

// Puts the line of a write into a buffer, and takes the memory that a disk needs to append it.
fn ready_line<D: Disk>(
    alloc: Global,
    command: &Command,
    line: &mut Out,
    disk: &mut D,
) -> Result<(), OutOfRoom>
    ensures line { OnOk result (line.new.bytes ≡ log_line command.now) }
    ensures contents { D.contents disk.new ≡ D.contents disk.old }
    ensures size { D.size disk.new ≡ D.size disk.old }
    ensures synced { D.synced disk.new ≡ D.synced disk.old }
    ensures failures { D.failures disk.new ≡ D.failures disk.old }
{
    set_line(alloc, command, line)?;
    disk.reserve(line.bytes().len()).map_err(|_| OutOfRoom)
}

impl<D: Disk> LoggedTable<D> {
    /// A table, and the disk with its log: the bytes are whole lines that leave the table. No line is carried out. The declaration is that of the empty table that the log
    /// begins with, if it begins with one. Where memory is refused the disk is handed back. O(1).
    pub fn on(
        alloc: Global,
        declared: Option<TableSpec>,
        table: Table,
        disk: D,
    ) -> Result<LoggedTable<D>, OpenFault<D>>
        requires { LeavesTable declared (D.contents disk) table }
        ensures parts { IfOk result (λ logged. logged ≡ record { declared = declared; table = table; bytes = D.contents disk; size = D.size disk; synced = D.synced disk; failures = D.failures disk; is_over = false }) }
        ensures back { IfErr result (λ fault. fault ≡ record { disk = disk; why = Memory }) }
    {
        match Out::new(alloc) {
            Ok(line) => Ok(LoggedTable {
                declared,
                table,
                disk,
                line,
                is_over: false,
                alloc,
            }),
            Err(_) => Err(OpenFault {
                disk,
                why: OpenWhy::Memory,
            }),
        }
    }

    /// The table. O(1).
    pub fn table(&self) -> &Table
        ensures { result.now ≡ self.now.table }
    {
        &self.table
    }

    /// Carries out a command and appends the line of its answer, or else the memory line. The canonical text of an accepted
    /// write, and a newline, is in the log before it is answered. It is not synced yet.
    ///
    /// Where the disk fails, nothing is answered, and the log is over: from then on nothing is answered. What was answered
    /// before is in the log. The answer to an accepted write has at most 256 bytes. O(length of the command), and what the command
    /// costs.
    pub fn call<'o>(&mut self, command: &Command, out: Ready<'o>) -> Told<'o, Result<(), Over>>
        requires fits { CommandFits command.now }
        ensures answered { OnOk result.what ((self.old.is_over ≡ false) × AppendsAnswer self.old command.now out.entry.out.now.bytes result.out.now.bytes self.new) }
        ensures short { OnOk result.what (IsSome (after_command self.old.table command.now) → length result.out.now.bytes ≤ length out.entry.out.now.bytes + 256) }
        ensures stopped { OnErr result.what ((result.out.now.bytes ≡ out.entry.out.now.bytes) × Stops self.old command.now self.new) }
        ensures stands { IsKept self.old }
        ensures behind { IsBehind out.entry result }
    {
        if self.is_over {
            let Ready { out } = out;
            return Told {
                what: Err(Over),
                out,
            };
        }
        if ready_line(self.alloc, command, &mut self.line, &mut self.disk).is_err() {
            let Told { what: _, out } = refuse_memory(out);
            return Told { what: Ok(()), out };
        }
        let start = out.out.bytes().len();
        let Told { what: outcome, out } = self.table.step(command, out);
        if let Outcome::Write = outcome
            && self.disk.append(self.line.bytes()).is_err()
        {
            self.is_over = true;
            out.truncate(start);
            return Told {
                what: Err(Over),
                out,
            };
        }
        Told { what: Ok(()), out }
    }

    /// Carries out a command that changes no table, as `call` does. O(what the read costs).
    pub fn read<'o>(&self, command: &Command, out: Ready<'o>) -> Told<'o, Result<(), Over>>
        requires reads { is_change command.now ≡ false }
        ensures answered { OnOk result.what ((self.now.is_over ≡ false) × Tells self.now command.now out.entry.out.now.bytes result.out.now.bytes) }
        ensures over { OnErr result.what ((self.now.is_over ≡ true) × (result.out.now ≡ out.entry.out.now)) }
        ensures stands { IsKept self.now }
        ensures behind { IsBehind out.entry result }
    {
        if self.is_over {
            let Ready { out } = out;
            return Told {
                what: Err(Over),
                out,
            };
        }
        let Told { what: _, out } = self.table.read(command, out);
        Told { what: Ok(()), out }
    }

    /// Makes sure of all writes so far. Where the disk fails the log is over. O(what the disk takes).
    pub fn sync(&mut self) -> Result<(), Over>
        ensures synced { OnOk result ((self.old.is_over ≡ false) × (self.new ≡ synced_log self.old)) }
        ensures over { OnErr result (self.new ≡ (if self.old.is_over then self.old else failed_log self.old)) }
    {
        if self.is_over {
            return Err(Over);
        }
        if self.disk.sync().is_err() {
            self.is_over = true;
            return Err(Over);
        }
        Ok(())
    }

    /// Begins a sync of all writes so far that goes on beside the calls. O(1).
    pub fn begin_sync(&mut self)
        ensures { self.new ≡ self.old }
    {
        self.disk.begin_sync();
    }

    /// Counts what the sync that was begun last made sure of, if it came to its end. Where it failed the log is over. O(what the disk takes).
    pub fn end_sync(&mut self) -> Result<(), Over>
        ensures synced { OnOk result ((self.old.is_over ≡ false) × IsSyncedOn self.old self.new) }
        ensures over { OnErr result (self.new ≡ (if self.old.is_over then self.old else failed_log self.old)) }
    {
        if self.is_over {
            return Err(Over);
        }
        if self.disk.end_sync().is_err() {
            self.is_over = true;
            return Err(Over);
        }
        Ok(())
    }

    /// How long the log is: what was answered until now rests on so much of it. O(1).
    pub fn mark(&self) -> Mark
        ensures size { result.bytes ≡ self.now.size }
        ensures kept { IsKept self.now }
    {
        Mark {
            bytes: self.disk.size(),
        }
    }

    /// Whether the answers that were given until the mark rest on synced bytes alone, which no crash loses. O(1).
    pub fn is_synced(&self, mark: Mark) -> bool
        ensures { IsTrue result ↔ mark.bytes ≤ self.now.synced }
    {
        mark.bytes <= self.disk.synced()
    }

    /// The disk. O(1).
    pub fn disk(&self) -> &D
        ensures contents { D.contents result.now ≡ self.now.bytes }
        ensures size { D.size result.now ≡ self.now.size }
        ensures synced { D.synced result.now ≡ self.now.synced }
        ensures failures { D.failures result.now ≡ self.now.failures }
    {
        &self.disk
    }

    /// The table's name. O(1).
    pub fn name(&self) -> &str
        ensures { result.now ≡ self.now.table.shape.name }
    {
        self.table.name()
    }

    /// The disk alone. O(records).
    pub fn into_disk(self) -> D
        ensures contents { D.contents result ≡ self.bytes }
        ensures size { D.size result ≡ self.size }
        ensures synced { D.synced result ≡ self.synced }
        ensures failures { D.failures result ≡ self.failures }
    {
        let LoggedTable {
            declared: _,
            table: _,
            disk: kept,
            line: _,
            is_over: _,
            alloc: _,
        } = self;
        kept
    }
}
