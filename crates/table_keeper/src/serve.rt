//! Threads that accept connections and serve them for ever.
ghost use Rattle.std.specs.Prelude.{◌≤◌};

use crate::fault::Fault;
use crate::host::Host;
use crate::listen::Listening;
use crate::logs::LogDisk;
use crate::patient::{Sending, Taking};
use crate::syncer::FileSyncer;
use logged_tables::{LoggedTables, OverAt, Seat, ServeFault, Syncing};
use std::alloc::Global;
use std::sync::{Arc, Condvar, Mutex};
use std::thread;
use std::thread::Builder;
use std::time::Duration;
use table_engine::Source;

/// The stack of a thread, in bytes. The deepest line, of 127 levels of JSON, takes less than 256 KiB of it.
const STACK: usize = 2 << 20;

/// What the threads share.
#[derive(Drop)]
pub(crate) struct Served {
    pub(crate) tables: LoggedTables<LogDisk>,
    pub(crate) listening: Listening,
    pub(crate) syncing: Syncing,
    pub(crate) idle: u32,
    pub(crate) over: Mutex<Option<OverAt>>,
    pub(crate) told: Condvar,
}

/// Serves connections in so many threads, until a log can't be written. Tells the first table whose log it was.
pub(crate) fn serve<R: Host>(
    rt: &R,
    served: &Arc<Served, Global>,
    workers: u32,
    syncers: Vec<FileSyncer>,
) -> Result<OverAt, Fault> {
    if served.syncing == Syncing::Second {
        start_syncing(rt, served, syncers)?;
    }
    let started = start_workers(rt, served, workers);
    if started == 0 {
        return Err(Fault::Memory);
    }
    if started < workers {
        let _ = eprintln!(rt; "threads: {started} of {workers} could be started");
    }
    Ok(wait(rt, served))
}

// Starts threads that serve, as many as can be started, and counts them.
fn start_workers<R: Host>(rt: &R, served: &Arc<Served, Global>, workers: u32) -> u32
    ensures { result ≤ workers }
{
    let mut started = 0;
    for _ in 0..workers {
        if start(rt, served).is_ok() {
            started += 1;
        }
    }
    started
}

// Starts a thread that serves.
fn start<R: Host>(rt: &R, served: &Arc<Served, Global>) -> Result<(), Fault> {
    let theirs = Arc::try_clone(served)?;
    let own = *rt;
    let started = Builder::new()
        .stack_size(STACK)
        .spawn(rt, move || work(&own, &theirs));
    match started {
        Ok(_) => Ok(()),
        Err(_) => Err(Fault::Memory),
    }
}

// Starts a thread that syncs.
fn start_syncing<R: Host>(
    rt: &R,
    served: &Arc<Served, Global>,
    syncers: Vec<FileSyncer>,
) -> Result<(), Fault> {
    let theirs = Arc::try_clone(served)?;
    let own = *rt;
    let started = Builder::new()
        .stack_size(STACK)
        .spawn(rt, move || keep_synced(&own, &theirs, syncers));
    match started {
        Ok(_) => Ok(()),
        Err(_) => Err(Fault::Memory),
    }
}

// Waits until a log is over.
fn wait<R: Host>(rt: &R, served: &Served) -> OverAt {
    for _ in rt.forever() {
        let over = served
            .told
            .wait_while(rt, served.over.lock(rt), |over| over.is_none());
        if let Some(at) = *over {
            return at;
        }
    }
    unreachable!()
}

// Tells that a log is over.
fn tell<R: Host>(rt: &R, served: &Served, at: OverAt) {
    let mut over = served.over.lock(rt);
    if over.is_none() {
        *over = Some(at);
    }
    drop(over);
    served.told.notify_all();
}

// Syncs all logs once a second.
fn keep_synced<R: Host>(rt: &R, served: &Served, syncers: Vec<FileSyncer>) {
    let mut syncers = syncers;
    for _ in rt.forever() {
        thread::sleep(rt, Duration::from_secs(1));
        if let Err(at) = served.tables.sync_beside(rt, &mut syncers) {
            tell(rt, served, at);
        }
    }
}

// Accepts connections one after another, and serves each. Where that fails it waits a little, and goes on.
fn work<R: Host>(rt: &R, served: &Served) {
    for _ in rt.forever() {
        if !serve_next(rt, served) {
            thread::sleep(rt, Duration::from_millis(20));
        }
    }
}

// Accepts a connection and serves it, and says whether it could be accepted and memory was there for it.
fn serve_next<R: Host>(rt: &R, served: &Served) -> bool {
    let Ok(connection) = served.listening.accept() else {
        return false;
    };
    if connection.prepare(served.idle).is_err() {
        return true;
    }
    let Ok(seat) = Seat::new(rt.alloc(), &served.tables, rt, served.syncing) else {
        return false;
    };
    let sending = Sending::new(rt, &connection, served.idle);
    let taking = Taking::new(rt, &connection, served.idle);
    match seat.serve(&mut Source::new(sending), taking).end {
        Ok(()) | Err(ServeFault::Read) | Err(ServeFault::Write) => true,
        Err(ServeFault::Memory) => false,
        Err(ServeFault::Over(at)) => {
            tell(rt, served, at);
            true
        }
    }
}
