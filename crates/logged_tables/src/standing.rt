//! What stands until bytes go to a session's peer: how far the log of each table has to be synced before.

ghost use Rattle.std.specs.Prelude.{◌≡◌, ◌⊎◌, ◌<◌, ◌++◌, false, Some, None, IfOk, IsFalse, OnErr, OnOk, length, slice_get, slice_set, replicate};
ghost use Rattle.command_lines.specs.Fits.{CommandFits};
ghost use Rattle.table_reply.specs.Ready.{IsBehind};
ghost use Rattle.table_log.specs.Logged.{AppendsAnswer, IsKept, Stops};
ghost use Rattle.table_step.specs.Step.{memory_line};
ghost use Rattle.table_log.specs.declared.logged.Mark.{Mark};
ghost use Rattle.logged_tables.specs.Standing.{Carries, IsSettled, StopsSync, marked};

use crate::syncing::{Syncing, sync_to};
use crate::tables::LoggedTables;
use std::alloc::{AllocError, Global};
use std::marker::Model;
use table_cmd::Command;
use table_log::{Disk, LoggedTable, Mark, Over};
use table_reply::{Out, READY_ROOM, Ready, Told};
use table_step::{is_change, refuse_memory};

/// For each table how far its log has to be synced before bytes go to the peer; and a buffer for the answer to a change.
#[derive(Drop)]
pub(crate) struct Standing {
    marks: Vec<Option<Mark>>,
    reply: Out,
}

impl Model for Standing {
    ghost use Rattle.std.specs.Prelude.{List, Option};
    ghost use Rattle.table_log.specs.declared.logged.Mark.{Mark};

    ghost Value = { List (Option Mark) };

    ghost view = { λ s. s.marks.items };
}

impl Standing {
    /// No mark stands, of so many tables.
    pub(crate) fn new(alloc: Global, tables: usize) -> Result<Standing, AllocError>
        ensures { IfOk result (λ standing. standing ≡ replicate tables None) }
    {
        let marks = vec![in alloc; None; tables]?;
        let reply = Out::new(alloc).map_err(|_| AllocError)?;
        Ok(Standing { marks, reply })
    }

    /// The number of tables. O(1).
    pub(crate) fn len(&self) -> usize
        ensures { result ≡ length self.now }
    {
        self.marks.len()
    }

    /// Whether a mark stands of the table of this number. O(1).
    pub(crate) fn stands(&self, place: usize) -> bool
        requires { place < length self.now }
        ensures { IsFalse result → slice_get self.now place ≡ Some None }
    {
        self.marks[place].is_some()
    }

    // Carries out a command that may change a table.
    fn change<'o, D: Disk>(
        &mut self,
        table: &mut LoggedTable<D>,
        command: &Command,
        out: Ready<'o>,
    ) -> Told<'o, Result<(), Over>>
        requires { CommandFits command.now }
        ensures answered { OnOk result.what ((table.old.is_over ≡ false) × AppendsAnswer table.old command.now out.entry.out.now.bytes result.out.now.bytes table.new) }
        ensures stopped { OnErr result.what ((result.out.now ≡ out.entry.out.now) × Stops table.old command.now table.new) }
        ensures stands { IsKept table.old }
        ensures behind { IsBehind out.entry result }
        ensures marks { self.new ≡ self.old }
    {
        let Ok(ready) = self.reply.emptied();
        match table.call(command, ready).end() {
            Ok(()) => hand_over(self.reply.bytes(), out).with(Ok(())),
            Err(over) => out.give_back(Err(over)),
        }
    }

    /// Carries out a command on the table of this number, which is lent, and keeps how far its log has to be synced before the
    /// answer leaves, where it has to be. Where the log is over, nothing is answered.
    pub(crate) fn call<'o, D: Disk>(
        &mut self,
        table: &mut LoggedTable<D>,
        place: usize,
        syncing: Syncing,
        command: &Command,
        out: Ready<'o>,
    ) -> Told<'o, Result<(), Over>>
        requires fits { CommandFits command.now }
        requires place { place < length self.old }
        ensures answered { OnOk result.what ((table.old.is_over ≡ false) × Carries table.old command.now out.entry.out.now.bytes result.out.now.bytes table.new) }
        ensures marked { OnOk result.what (self.new ≡ marked syncing place table.new self.old) }
        ensures stopped { OnErr result.what ((result.out.now ≡ out.entry.out.now) × (self.new ≡ self.old) × Stops table.old command.now table.new) }
        ensures stands { IsKept table.old }
        ensures behind { IsBehind out.entry result }
    {
        let told = if is_change(command) {
            self.change(table, command, out)
        } else {
            table.read(command, out)
        };
        if told.what.is_ok() && syncing == Syncing::Each {
            self.marks[place] = Some(table.mark());
        }
        told
    }

    /// Sees to it that the log of the table of this number, which is lent, is synced as far as its mark says, and takes the mark
    /// away. Where it is synced so far, nothing is done.
    pub(crate) fn settle<D: Disk>(
        &mut self,
        tables: &LoggedTables<D>,
        table: &mut LoggedTable<D>,
        place: usize,
    ) -> Result<(), Over>
        requires place { place < length self.old }
        requires named { slice_get tables.now place ≡ Some table.old.table.shape.name }
        ensures settled { OnOk result ((self.new ≡ slice_set self.old place None) × IsSettled (slice_get self.old place) table.old table.new) }
        ensures stopped { OnErr result ((self.new ≡ self.old) × ((mark : Mark) × (slice_get self.old place ≡ Some (Some mark)) × StopsSync mark table.old table.new)) }
    {
        if let Some(mark) = self.marks[place] {
            match sync_to(table, mark) {
                Ok(()) => {}
                Err(over) => return Err(over),
            }
        }
        self.marks[place] = None;
        Ok(())
    }
}

// Appends the line of an answer. One of more than 512 bytes may find no room: then it is the memory line.
fn hand_over<'o>(line: &[u8], out: Ready<'o>) -> Told<'o, ()>
    ensures told { (result.out.now.bytes ≡ out.entry.out.now.bytes ++ line.now) ⊎ ((READY_ROOM < length line.now) × (result.out.now.bytes ≡ out.entry.out.now.bytes ++ memory_line)) }
    ensures behind { IsBehind out.entry result }
{
    let Ready { out } = out;
    if out.try_push(line).is_ok() {
        return Told { what: (), out };
    }
    refuse_memory(Ready { out }).with(())
}
