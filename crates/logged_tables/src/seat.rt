//! The place of a session.

ghost use Rattle.std.specs.Prelude.{◌≡◌, ◌<◌, ◌++◌, false, List, ℕ, None, Some, All, IfErr, IfOk, IfSome, OnErr, OnOk, length, slice_get, slice_set};
ghost use Rattle.command_lines.specs.Fits.{CommandFits};
ghost use Rattle.table_reply.specs.Ready.{IsBehind};
ghost use Rattle.table_log.specs.Logged.{Stops};
ghost use Rattle.table_log.specs.declared.logged.Mark.{Mark};
ghost use Rattle.logged_tables.specs.Found.{AreCovered, IsCovered, IsFound, IsUnsynced};
ghost use Rattle.logged_tables.specs.Hears.{HearsCommand, IsOver};
ghost use Rattle.logged_tables.specs.Standing.{Carries, marked};

use crate::fault::{OverAt, Unsettled};
use crate::numbered::Numbered;
use crate::standing::Standing;
use crate::syncing::Syncing;
use crate::tables::LoggedTables;
use std::alloc::{AllocError, Global};
use std::marker::Model;
use std::sync::{Mutex, MutexGuard, Wait};
use table_cmd::Command;
use table_log::{Disk, Over};
use table_reply::{Fault, Ready, Told};
use table_step::{refuse, refuse_memory};

/// The place of a session, which serves one stream after another.
#[derive(Drop)]
pub struct Seat<'a, D: Disk, T: Wait> {
    pub(crate) tables: &'a LoggedTables<D>,
    pub(crate) rt: &'a T,
    syncing: Syncing,
    standing: Mutex<Standing>,
}

impl<'a, D: Disk, T: Wait> Model for Seat<'a, D, T> {
    ghost use Rattle.logged_tables.specs.Hears.{SeatData};

    ghost Value = { SeatData };

    ghost view = { λ s. record { names = s.tables.now; syncing = s.syncing } };
}

impl<'a, D: Disk, T: Wait> Seat<'a, D, T> {
    /// The place of a session on these tables. O(tables).
    pub fn new(
        alloc: Global,
        tables: &'a LoggedTables<D>,
        rt: &'a T,
        syncing: Syncing,
    ) -> Result<Seat<'a, D, T>, AllocError>
        ensures { IfOk result (λ seat. seat ≡ record { names = tables.now; syncing = syncing }) }
    {
        let standing = Standing::new(alloc, tables.len())?;
        Ok(Seat {
            tables,
            rt,
            syncing,
            standing: Mutex::new(standing),
        })
    }

    // The allocator of the tables.
    pub(crate) fn alloc(&self) -> Global {
        let tables = self.tables;
        tables.alloc()
    }

    // Locks what stands.
    pub(crate) fn lock(&self) -> MutexGuard<'_, Standing> {
        self.standing.lock(self.rt)
    }

    // The table whose log is over, and was when bytes were to go to the peer.
    pub(crate) fn over(&self) -> Option<OverAt>
        ensures { IfSome result (λ at. IsUnsynced self.now.names at) }
    {
        let mut standing = self.standing.lock(self.rt);
        match self.settle_all(&mut standing) {
            Ok(()) => None,
            Err(unsettled) => unsettled.over,
        }
    }

    // Carries out a command under the lock of the table that it names, and appends the line of its answer, or else the memory
    // line. Where no table has the name, the line says so, and no lock is taken. Where the table's log is over nothing is appended.
    pub(crate) fn call<'o>(&self, command: &Command, out: Ready<'o>) -> Told<'o, Result<(), OverAt>>
        requires { CommandFits command.now }
        ensures answered { OnOk result.what ((text : List ℕ) × (result.out.now.bytes ≡ out.entry.out.now.bytes ++ text) × HearsCommand self.now.names command.now text) }
        ensures refused { IfErr result.what (λ at. IsOver self.now.names command.now at) }
        ensures unchanged { OnErr result.what (result.out.now ≡ out.entry.out.now) }
        ensures behind { IsBehind out.entry result }
    {
        let tables = self.tables;
        let Some(place) = tables.place_of(command.table()) else {
            return refuse(Fault::Table, out).with(Ok(()));
        };
        let mut standing = self.standing.lock(self.rt);
        let Some(lock) = tables.at(place) else {
            return refuse_memory(out).with(Ok(()));
        };
        let mut held = lock.lock_for(self.rt, command);
        // They always fit, but of what a lock holds only its type is known.
        if !tables.is_at(place, &held) || place >= standing.len() {
            return refuse_memory(out).with(Ok(()));
        }
        let Told { what, out } = self.carry_out(&mut standing, &mut held, place, command, out);
        match what {
            Ok(()) => Told { what: Ok(()), out },
            Err(Over) => Told {
                what: Err(OverAt { table: place }),
                out,
            },
        }
    }

    // Carries out a command on the table of this number, which is lent.
    fn carry_out<'o>(
        &self,
        standing: &mut Standing,
        held: &mut Numbered<D>,
        place: usize,
        command: &Command,
        out: Ready<'o>,
    ) -> Told<'o, Result<(), Over>>
        requires fits { CommandFits command.now }
        requires place { place < length standing.old }
        requires found { IsFound self.now.names place held.old.number held.old.log }
        ensures answered { OnOk result.what ((held.old.log.is_over ≡ false) × Carries held.old.log command.now out.entry.out.now.bytes result.out.now.bytes held.new.log) }
        ensures marked { OnOk result.what (standing.new ≡ marked self.now.syncing place held.new.log standing.old) }
        ensures stopped { OnErr result.what ((result.out.now ≡ out.entry.out.now) × (standing.new ≡ standing.old) × Stops held.old.log command.now held.new.log) }
        ensures behind { IsBehind out.entry result }
    {
        standing.call(&mut held.log, place, self.syncing, command, out)
    }

    // Sees to it that no mark stands of a table.
    fn settle(&self, standing: &mut Standing, place: usize) -> Result<(), Unsettled>
        requires { place < length standing.old }
        ensures taken { OnOk result (standing.new ≡ slice_set standing.old place None) }
        ensures covered { OnOk result ((mark : Mark) → slice_get standing.old place ≡ Some (Some mark) → IsCovered self.now.names place mark) }
        ensures count { length standing.new ≡ length standing.old }
        ensures over { IfErr result (λ unsettled. IfSome unsettled.over (λ at. IsUnsynced self.now.names at)) }
    {
        if !standing.stands(place) {
            return Ok(());
        }
        let tables = self.tables;
        let Some(lock) = tables.at(place) else {
            return Err(Unsettled { over: None });
        };
        // What others append meanwhile is synced too, and they need no sync of their own.
        let mut held = lock.lock_behind(self.rt);
        if !tables.is_at(place, &held) {
            return Err(Unsettled { over: None });
        }
        match standing.settle(tables, &mut held.log, place) {
            Ok(()) => Ok(()),
            Err(Over) => Err(Unsettled {
                over: Some(OverAt { table: place }),
            }),
        }
    }

    // Sees to it that no mark stands: the log of each table with a mark is synced so far.
    pub(crate) fn settle_all(&self, standing: &mut Standing) -> Result<(), Unsettled>
        ensures none { OnOk result (All (λ mark. mark ≡ None) standing.new) }
        ensures covered { OnOk result (AreCovered self.now.names standing.old) }
        ensures over { IfErr result (λ unsettled. IfSome unsettled.over (λ at. IsUnsynced self.now.names at)) }
    {
        for place in 0..standing.len() {
            match self.settle(standing, place) {
                Ok(()) => {}
                Err(unsettled) => return Err(unsettled),
            }
        }
        Ok(())
    }
}
