//! Sessions on several tables with their logs, each over a file.

use crate::frail::{Frail, State};
use crate::opening::open;
use crate::report::Report;
use crate::sending::{Given, Narrow};
use crate::words::{add_bytes, first_word, number, place_of};
use file_disk::FileDisk;
use logged_tables::{LoggedTables, Seat, ServeFault, Syncing};
use std::alloc::{AllocError, Global};
use std::sync::Wait;
use table_engine::Source;
use table_log::{LoggedTable, OpenWhy};
use table_schema::{Schema, TableSpec};

type Tables = LoggedTables<FileDisk<Frail>>;

/// Adds the lines of a case, and below each what it tells; and at last what each file has.
pub fn tell_seats(
    rt: &impl Wait,
    alloc: Global,
    schema: &Schema,
    lines: &[Vec<u8>],
    report: &mut Report,
) -> Result<(), AllocError> {
    let mut files = Vec::new(alloc);
    for _ in schema.tables() {
        files.push(State::new(alloc)?)?;
    }
    let at = lines.iter().position(|line| line.starts_with(b"open "));
    let at = at.unwrap_or(lines.len());
    for line in lines.get(..at).unwrap_or_default() {
        report.texts(&[line, b"\n"])?;
        prepare(schema, &mut files, line)?;
    }
    let Some((opening, later)) = lines.get(at..).unwrap_or_default().split_first() else {
        return Ok(());
    };
    report.texts(&[opening, b"\n"])?;
    let (_, word) = first_word(opening);
    let syncing = syncing_of(word);
    let mut opened = Vec::new(alloc);
    for (spec, file) in schema.tables().iter().zip(files) {
        match open_log(alloc, spec, file, report)? {
            Some(logged) => opened.push(logged)?,
            None => return Ok(()),
        }
    }
    let tables = LoggedTables::new(alloc, opened)?;
    tell_names(&tables, report)?;
    let meeting = Meeting {
        rt,
        alloc,
        tables: &tables,
        syncing,
    };
    meet(&meeting, later, report)?;
    for logged in tables.into_tables(alloc)? {
        tell_file(logged, report)?;
    }
    Ok(())
}

fn syncing_of(word: &[u8]) -> Syncing {
    match word {
        b"each" => Syncing::Each,
        b"second" => Syncing::Second,
        _ => Syncing::Never,
    }
}

// Carries out a line before the logs are opened.
fn prepare(schema: &Schema, files: &mut [State], line: &[u8]) -> Result<(), AllocError> {
    let (verb, rest) = first_word(line);
    let (table, text) = first_word(rest);
    let place = place_of(schema, table).unwrap_or(files.len());
    let Some(state) = files.get_mut(place) else {
        return Ok(());
    };
    if add_bytes(verb, text, &mut state.bytes)? {
        return Ok(());
    }
    match verb {
        b"room" => state.room = number(text),
        b"pieces" => state.at_a_time = number(text),
        b"syncs" => state.syncs = number(text),
        _ => state.interrupts = true,
    }
    Ok(())
}

// Opens the log of a table, and once more where memory was refused.
fn open_log(
    alloc: Global,
    spec: &TableSpec,
    file: State,
    report: &mut Report,
) -> Result<Option<LoggedTable<FileDisk<Frail>>>, AllocError> {
    let size = file.bytes.len() as u64;
    let mut disk = FileDisk::new(Frail::new(file), size);
    for _ in 0..2 {
        match open(alloc, spec, disk) {
            Ok(opened) => return Ok(Some(opened.logged)),
            Err(fault) => {
                report.texts(&[b"  ", spec.name().as_bytes(), b":"])?;
                report.unopened(fault.why)?;
                disk = fault.disk;
                if fault.why != OpenWhy::Memory {
                    report.contents(&disk.into_file().state.bytes)?;
                    return Ok(None);
                }
            }
        }
    }
    Ok(None)
}

fn tell_names(tables: &Tables, report: &mut Report) -> Result<(), AllocError> {
    for place in 0..tables.len() {
        if let Some(name) = tables.name(place) {
            report.number(b"  ", place, b": ")?;
            report.texts(&[name.as_bytes(), b"\n"])?;
        }
    }
    Ok(())
}

// What sessions share.
#[derive(Drop)]
struct Meeting<'a, R> {
    rt: &'a R,
    alloc: Global,
    tables: &'a Tables,
    syncing: Syncing,
}

// Carries out lines of sessions.
fn meet<R: Wait>(
    meeting: &Meeting<'_, R>,
    lines: &[Vec<u8>],
    report: &mut Report,
) -> Result<(), AllocError> {
    let mut sent = Vec::new(meeting.alloc);
    for line in lines {
        report.texts(&[line, b"\n"])?;
        let (verb, text) = first_word(line);
        match verb {
            b"+" => {
                sent.extend_from_slice(text)?;
                sent.push(b'\n')?;
            }
            b"sync" => tell_sync(meeting.rt, meeting.tables, report)?,
            _ => {
                let (_session, room) = first_word(text);
                let fails = verb == b"broken".as_slice();
                let room = if fails { usize::MAX } else { number(room) };
                let narrow = Narrow::new(meeting.alloc, room)?;
                send(meeting, Given { rest: &sent, fails }, narrow, report)?;
                sent.clear();
            }
        }
    }
    Ok(())
}

// Serves what a session sends.
fn send<R: Wait>(
    meeting: &Meeting<'_, R>,
    given: Given<'_>,
    narrow: Narrow,
    report: &mut Report,
) -> Result<(), AllocError> {
    let seat = Seat::new(meeting.alloc, meeting.tables, meeting.rt, meeting.syncing)?;
    let served = seat.serve(&mut Source::new(given), narrow);
    report.contents(&served.writer.taken)?;
    match served.end {
        Ok(()) => report.texts(&[b"  served\n"]),
        Err(ServeFault::Read) => report.texts(&[b"  a read failed\n"]),
        Err(ServeFault::Write) => report.texts(&[b"  a write failed\n"]),
        Err(ServeFault::Memory) => report.texts(&[b"  memory\n"]),
        Err(ServeFault::Over(at)) => report.number(b"  over: table ", at.table, b"\n"),
    }
}

fn tell_sync(rt: &impl Wait, tables: &Tables, report: &mut Report) -> Result<(), AllocError> {
    match tables.sync_all(rt) {
        Ok(()) => report.texts(&[b"  synced\n"]),
        Err(at) => report.number(b"  over: table ", at.table, b"\n"),
    }
}

// Adds what the file of a table has.
fn tell_file(logged: LoggedTable<FileDisk<Frail>>, report: &mut Report) -> Result<(), AllocError> {
    report.texts(&[logged.name().as_bytes(), b"\n"])?;
    let state = logged.into_disk().into_file().state;
    report.contents(&state.bytes)?;
    report.number(b"  ", state.synced, b" bytes are synced, by ")?;
    report.number(b"", state.settles, b" syncs\n")
}
