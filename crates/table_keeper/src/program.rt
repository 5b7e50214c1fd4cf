//! What the program does.
ghost use Rattle.std.specs.Prelude.{◌≡◌};
ghost use Rattle.table_keeper.specs.Fault.{asked_syncing};

use crate::alter::alter;
use crate::compact::compact;
use crate::dump::dump;
use crate::export::export;
use crate::fault::Fault;
use crate::folder::taken;
use crate::host::Host;
use crate::import::import;
use crate::listen::Listening;
use crate::logs::{LogDisk, OpenLog, start};
use crate::schema::schema_of;
use crate::serve::{Served, serve};
use crate::syncer::FileSyncer;
use crate::upgrade::upgrade;
use keeper_words::{Asked, Keeping, Tables, When, read_words};
use logged_tables::{LoggedTables, OverAt, Syncing};
use std::env;
use std::io::ErrorKind;
use std::sync::{Arc, Condvar, Mutex};
use system_files::SystemFolder;
use table_folder::FileName;

/// Does what the words ask for. Serving ends at a fault alone.
pub(crate) fn run<R: Host>(rt: &HostRuntime, threads: &R) -> Result<(), Fault> {
    let words = given_words(rt)?;
    match read_words(rt.alloc(), &words)? {
        Asked::Keep(keeping) => keep(rt, threads, &keeping),
        Asked::Compact(tables) => begin_anew(rt, &tables),
        Asked::Export(one) => export(rt, &one),
        Asked::Import(importing) => import(rt, &importing),
        Asked::Dump(dumping) => dump(rt, &dumping),
        Asked::Upgrade(tables) => upgrade(rt, &tables),
        Asked::Alter(altering) => alter(rt, &altering),
    }
}

// The words that follow the program's name.
fn given_words(rt: &HostRuntime) -> Result<Vec<String>, Fault> {
    match env::args(rt) {
        Ok(all) => Ok(all.skip(1).collect(rt.alloc())?),
        Err(error) if error.kind() == ErrorKind::OutOfMemory => Err(Fault::Memory),
        Err(_) => Err(Fault::Words(String::from_str(rt.alloc(), "error: a word is not UTF-8\n")?)),
    }
}

// Starts, and writes the state of each table with an empty log behind it.
fn begin_anew(rt: &HostRuntime, asked: &Tables<'_>) -> Result<(), Fault> {
    let schema = schema_of(rt, asked.schema)?;
    let folder = taken(rt, asked.folder)?;
    let logs = start(rt, &folder, &schema)?;
    compact(rt, &folder, logs)
}

// Starts, listens and serves.
fn keep<R: Host>(rt: &HostRuntime, threads: &R, keeping: &Keeping<'_>) -> Result<(), Fault> {
    let schema = schema_of(rt, keeping.schema)?;
    let folder = taken(rt, keeping.folder)?;
    let logs = start(rt, &folder, &schema)?;
    let Ok(listening) = Listening::at(rt, keeping.listen) else {
        return Err(Fault::Listen);
    };
    let syncing = syncing_of(keeping.sync);
    let syncers = syncers_of(rt, &folder, &logs, syncing)?;
    let Kept { tables, paths } = behind_locks(rt, &folder, logs)?;
    let served = Arc::new(
        rt.alloc(),
        Served {
            tables,
            listening,
            syncing,
            idle: keeping.idle,
            over: Mutex::new(None),
            told: Condvar::new(),
        },
    )?;
    if println!(rt; "listening").is_err() {
        return Err(Fault::Output);
    }
    let at = serve(threads, &served, keeping.workers, syncers)?;
    Err(over(rt, &paths, at))
}

// Tables behind their locks, and the paths of their logs.
#[derive(Drop)]
struct Kept {
    tables: LoggedTables<LogDisk>,
    paths: Vec<String>,
}

// Who waits for the logs, where all are synced once a second.
fn syncers_of(
    rt: &HostRuntime,
    folder: &SystemFolder,
    logs: &[OpenLog<'_>],
    syncing: Syncing,
) -> Result<Vec<FileSyncer>, Fault> {
    let mut syncers = Vec::new(rt.alloc());
    if syncing != Syncing::Second {
        return Ok(syncers);
    }
    for log in logs {
        let path = folder.path_of(log.table.name(), FileName::Log(log.about.base.state()))?;
        let mark = folder.path_of(log.table.name(), FileName::Mark)?;
        match log.disk.files().waiter(path.as_str(), mark.as_str()) {
            Ok(files) => syncers.push(FileSyncer { files })?,
            Err(error) => return Err(Fault::of_file(&error, path)),
        }
    }
    Ok(syncers)
}

// Puts tables behind locks.
fn behind_locks(
    rt: &HostRuntime,
    folder: &SystemFolder,
    logs: Vec<OpenLog<'_>>,
) -> Result<Kept, Fault> {
    let mut tables = Vec::with_capacity(rt.alloc(), logs.len())?;
    let mut paths = Vec::with_capacity(rt.alloc(), logs.len())?;
    for log in logs {
        let begin = FileName::Log(log.about.base.state());
        paths.push(folder.path_of(log.table.name(), begin)?)?;
        tables.push(log.logged(rt)?)?;
    }
    let tables = LoggedTables::new(rt.alloc(), tables)?;
    Ok(Kept { tables, paths })
}

// The fault of a log that can't be written.
fn over(rt: &HostRuntime, paths: &[String], at: OverAt) -> Fault {
    let Some(path) = paths.get(at.table) else {
        return Fault::Memory;
    };
    match String::from_str(rt.alloc(), path) {
        Ok(path) => Fault::Log(path),
        Err(_) => Fault::Memory,
    }
}

// When the logs are synced, as it is asked for.
fn syncing_of(when: When) -> Syncing
    ensures { result ≡ asked_syncing when }
{
    match when {
        When::Each => Syncing::Each,
        When::Second => Syncing::Second,
        When::Never => Syncing::Never,
    }
}
