//! Tables with their logs, each behind a lock of its own.

ghost use Rattle.std.specs.Prelude.{◌≡◌, ◌≤◌, ◌<◌, IfErr, IfNone, IfOk, IfSome, IsTrue, OnOk, Some, length, map, slice_get, vec_len};
ghost use Rattle.logged_tables.specs.Found.{AreSynced, AreSyncedSoFar, IsFound, IsSynced, IsSyncedSoFar};
ghost use Rattle.logged_tables.specs.Hears.{place_of};

use crate::fault::OverAt;
use crate::lock::TableLock;
use crate::numbered::Numbered;
use crate::syncer::Syncer;
use crate::syncing::sync_to;
use key_extract::Text;
use std::alloc::{AllocError, Global};
use std::marker::Model;
use std::sync::Wait;
use table_log::{Disk, LoggedTable, Over};

/// Tables with their logs, each behind a lock of its own, which several sessions call. A clause sees their names.
#[derive(Drop)]
pub struct LoggedTables<D: Disk> {
    alloc: Global,
    names: Vec<Text>,
    locks: Vec<TableLock<D>>,
}

impl<D: Disk> Model for LoggedTables<D> {
    ghost use Rattle.std.specs.Prelude.{◌≡◌, List, ℕ, vec_len};

    ghost Value = { List (List ℕ) };

    ghost view = { λ t. t.names.items };

    ghost invariant = { λ t. vec_len t.locks ≡ vec_len t.names };
}

// The names of tables.
fn names_of<D: Disk>(alloc: Global, tables: &[LoggedTable<D>]) -> Result<Vec<Text>, AllocError>
    ensures { IfOk result (λ names. names.items ≡ map (λ t. t.table.shape.name) tables.now) }
{
    let mut names = Vec::with_capacity(alloc, tables.len())?;
    for table in tables {
        names.push(Text::copy_of(alloc, table.name())?)?;
    }
    Ok(names)
}

// The name of the table of a number.
fn name_at(names: &[Text], place: usize) -> Option<&str>
    ensures some { IfSome result (λ name. slice_get names.now place ≡ Some name.now) }
    ensures none { IfNone result (length names.now ≤ place) }
{
    match names.get(place) {
        Some(name) => Some(name.as_str()),
        None => None,
    }
}

// Whether the table of a number has this name.
fn is_named(names: &[Text], place: usize, name: &str) -> bool
    ensures { IsTrue result → slice_get names.now place ≡ Some name.now }
{
    match name_at(names, place) {
        Some(known) => known == name,
        None => false,
    }
}

impl<D: Disk> LoggedTables<D> {
    /// Puts tables behind locks. They are numbered from 0, as they stand in the list. O(tables).
    pub fn new(alloc: Global, tables: Vec<LoggedTable<D>>) -> Result<LoggedTables<D>, AllocError>
        ensures { IfOk result (λ made. made ≡ map (λ t. t.table.shape.name) tables.items) }
    {
        let names = names_of(alloc, &tables)?;
        let mut locks = Vec::with_capacity(alloc, tables.len())?;
        for table in tables {
            let number = locks.len();
            locks.push(TableLock::new(number, table))?;
        }
        Ok(LoggedTables {
            alloc,
            names,
            locks,
        })
    }

    /// The number of tables. O(1).
    pub fn len(&self) -> usize
        ensures { result ≡ length self.now }
    {
        self.names.len()
    }

    /// The name of the table of a number. O(1).
    pub fn name(&self, table: usize) -> Option<&str>
        ensures some { IfSome result (λ name. slice_get self.now table ≡ Some name.now) }
        ensures none { IfNone result (length self.now ≤ table) }
    {
        name_at(&self.names, table)
    }

    // The number of the first table of a name.
    pub(crate) fn place_of(&self, name: &str) -> Option<usize>
        ensures { result ≡ place_of self.now name.now }
    {
        self.names.iter().position(|other| other.as_str() == name)
    }

    /// Whether this, which a lock holds, is the table of a number. It always is, but of what a lock holds only its type is known.
    pub(crate) fn is_at(&self, place: usize, held: &Numbered<D>) -> bool
        ensures { IsTrue result → IsFound self.now place held.now.number held.now.log }
    {
        // Its mark says that it is what its log leaves.
        let _mark = held.log.mark();
        if held.number != place {
            return false;
        }
        is_named(&self.names, place, held.log.name())
    }

    // The lock of the table of a number.
    pub(crate) fn at(&self, place: usize) -> Option<&TableLock<D>> {
        self.locks.get(place)
    }

    // What gives memory to a session's calls.
    pub(crate) fn alloc(&self) -> Global {
        self.alloc
    }

    /// Syncs each log that has bytes that are not synced. All are tried, and the first table whose log is over is told. It waits
    /// for each table. O(tables), and what the disks take.
    pub fn sync_all(&self, rt: &impl Wait) -> Result<(), OverAt>
        ensures synced { OnOk result (AreSynced self.now) }
        ensures over { IfErr result (λ at. at.table < length self.now) }
    {
        let mut first = Ok(());
        for (place, lock) in self.locks.iter().enumerate() {
            let mut held = lock.lock(rt);
            first = first.and(self.sync_one(&mut held, place));
        }
        first
    }

    // Syncs the log of the table of this number, which is lent.
    fn sync_one(&self, held: &mut Numbered<D>, place: usize) -> Result<(), OverAt>
        ensures synced { OnOk result (IsSynced self.now place) }
        ensures over { IfErr result (λ at. at.table ≡ place) }
    {
        if !self.is_at(place, held) {
            return Err(OverAt { table: place });
        }
        let mark = held.log.mark();
        match sync_to(&mut held.log, mark) {
            Ok(()) => Ok(()),
            Err(Over) => Err(OverAt { table: place }),
        }
    }

    /// The same, up to the end that each log has when it is looked at. The syncers are those of the first tables' disks: calls go on
    /// while they wait. The other logs are synced while their tables are locked.
    pub fn sync_beside<S: Syncer>(&self, rt: &impl Wait, syncers: &mut [S]) -> Result<(), OverAt>
        ensures synced { OnOk result (AreSyncedSoFar self.now) }
        ensures over { IfErr result (λ at. at.table < length self.now) }
    {
        let mut first = Ok(());
        for (place, lock) in self.locks.iter().enumerate() {
            first = first.and(self.sync_one_beside(rt, lock, syncers.get_mut(place), place));
        }
        first
    }

    // Syncs the log of the table of this number, behind its lock.
    fn sync_one_beside<S: Syncer>(
        &self,
        rt: &impl Wait,
        lock: &TableLock<D>,
        syncer: Option<&mut S>,
        place: usize,
    ) -> Result<(), OverAt>
        ensures synced { OnOk result (IsSyncedSoFar self.now place) }
        ensures over { IfErr result (λ at. at.table ≡ place) }
    {
        let over = OverAt { table: place };
        let seen = lock.lock(rt);
        let found: &Numbered<D> = &seen;
        if !self.is_at(place, found) {
            return Err(over);
        }
        let mark = found.log.mark();
        drop(seen);
        let mut guard = lock.lock_synced(rt, syncer, mark);
        let held: &mut Numbered<D> = &mut guard;
        if !self.is_at(place, held) {
            return Err(over);
        }
        match sync_to(&mut held.log, mark) {
            Ok(()) => Ok(()),
            Err(Over) => Err(over),
        }
    }

    /// The tables, out of their locks and in the order of their numbers. O(tables).
    pub fn into_tables(self, alloc: Global) -> Result<Vec<LoggedTable<D>>, AllocError>
        ensures { IfOk result (λ tables. map (λ t. t.table.shape.name) tables.items ≡ self) }
    {
        let LoggedTables {
            alloc: _,
            names,
            locks,
        } = self;
        let mut tables = Vec::with_capacity(alloc, locks.len())?;
        for lock in locks {
            let Numbered { number, log } = lock.into_table();
            // It always is the table of this number, but of what a lock held only its type is known.
            if number != tables.len() || !is_named(&names, number, log.name()) {
                return Err(AllocError);
            }
            tables.push(log)?;
        }
        Ok(tables)
    }
}
