//! A table with its log, behind a lock.

use crate::long::is_long;
use crate::numbered::Numbered;
use crate::syncer::Syncer;
use std::sync::{Condvar, Mutex, MutexGuard, Wait};
use table_cmd::Command;
use table_log::{Disk, LoggedTable, Mark};

/// A table with its log behind a lock. A sync may let the calls go first that came before it, and makes sure of theirs too. Calls that may
/// take long stand in a row, and only its head is at the lock. So short calls and syncs wait there for few of them.
#[derive(Drop)]
pub(crate) struct TableLock<D: Disk> {
    table: Mutex<Numbered<D>>,
    row: Mutex<()>,
    queue: Mutex<Queue>,
    moves: Condvar,
}

// Who wants the lock.
#[derive(Drop)]
struct Queue {
    // How many came for it.
    came: u64,
    // How many of them have had it.
    went: u64,
    // The least count of those that went for which somebody waits.
    awaited: u64,
}

impl Queue {
    // Whether fewer went than these. Then they are waited for.
    fn awaits(&mut self, count: u64) -> bool {
        let waits = self.went < count;
        if waits {
            self.awaited = self.awaited.min(count);
        }
        waits
    }

    // One more went. Says whether somebody waits for that.
    fn step(&mut self) -> bool {
        self.went = self.went.saturating_add(1);
        let reached = self.awaited <= self.went;
        if reached {
            self.awaited = u64::MAX;
        }
        reached
    }
}

impl<D: Disk> TableLock<D> {
    /// The table of this number behind a lock.
    pub(crate) fn new(number: usize, log: LoggedTable<D>) -> TableLock<D> {
        TableLock {
            table: Mutex::new(Numbered { number, log }),
            row: Mutex::new(()),
            queue: Mutex::new(Queue {
                came: 0,
                went: 0,
                awaited: u64::MAX,
            }),
            moves: Condvar::new(),
        }
    }

    /// Locks the table for a command.
    pub(crate) fn lock_for(
        &self,
        rt: &impl Wait,
        command: &Command,
    ) -> MutexGuard<'_, Numbered<D>> {
        if !is_long(command) {
            return self.lock(rt);
        }
        let head = self.row.lock(rt);
        let table = self.lock(rt);
        drop(head);
        table
    }

    /// Locks the table.
    pub(crate) fn lock(&self, rt: &impl Wait) -> MutexGuard<'_, Numbered<D>> {
        self.begin(rt);
        let table = self.table.lock(rt);
        self.end(rt);
        table
    }

    /// Locks the table once its log is synced up to a mark, where somebody waits for its disk: calls go on meanwhile, and what they append is not synced by that.
    pub(crate) fn lock_synced<S: Syncer>(
        &self,
        rt: &impl Wait,
        syncer: Option<&mut S>,
        mark: Mark,
    ) -> MutexGuard<'_, Numbered<D>> {
        let mut table = self.lock(rt);
        if let Some(syncer) = syncer
            && !table.log.is_synced(mark)
        {
            table.log.begin_sync();
            drop(table);
            syncer.wait();
            table = self.lock(rt);
            // Where it failed the log is over, which who holds it finds.
            let _ = table.log.end_sync();
        }
        table
    }

    /// Locks the table once as many have had it as came before. Who comes later is not waited for.
    pub(crate) fn lock_behind(&self, rt: &impl Wait) -> MutexGuard<'_, Numbered<D>> {
        let queue = self.queue.lock(rt);
        let before = queue.came;
        let queue = self
            .moves
            .wait_while(rt, queue, |queue| queue.awaits(before));
        drop(queue);
        self.table.lock(rt)
    }

    /// The table, and its number.
    pub(crate) fn into_table(self) -> Numbered<D> {
        let TableLock {
            table,
            row: _,
            queue: _,
            moves: _,
        } = self;
        table.into_inner()
    }

    // One more comes for the lock.
    fn begin(&self, rt: &impl Wait) {
        let mut queue = self.queue.lock(rt);
        queue.came = queue.came.saturating_add(1);
    }

    // One has it.
    fn end(&self, rt: &impl Wait) {
        let reached = self.queue.lock(rt).step();
        if reached {
            self.moves.notify_all();
        }
    }
}
