//! Prints what tables with their logs tell, over disks in memory and files that fail. Standard input holds a schema file, and
//! then cases, each below a line `=== KIND NAME`. Each line of a case is printed, and below it what it tells.
//!
//! A case of the kind `log` has one table over a disk in memory:
//! - `line TEXT`, `torn TEXT`, `zeros COUNT`: the disk has this line, these bytes, so many zeros;
//! - `open TABLE ROOM`: the log is opened under this declaration, with room for so many bytes more;
//! - `call COMMAND`: the command is carried out; `sync`: the log is synced;
//! - `mark`: how long the log is; `reached`: whether it is synced so far;
//! - `close`: the disk's bytes.
//!
//! A case of the kind `seats` has a table of each declaration over a file, and two sessions, `a` and `b`:
//! - `line TABLE TEXT`, `torn TABLE TEXT`, `zeros TABLE COUNT`: the file has this;
//! - `room TABLE COUNT`, `pieces TABLE COUNT`, `syncs TABLE COUNT`: it takes so many bytes, so many at a time, and so many syncs;
//! - `interrupts TABLE`: every second of its calls is interrupted;
//! - `open SYNCING`: the logs are opened; `sync`: all are synced;
//! - `+ TEXT`: a further line is to be sent; `send SESSION ROOM`: a session sends them to a writer of so much room;
//!   `broken SESSION`: it sends them, and the reader then fails.
//!
//! At its end stands what each file has.
//!
//! A case of the kind `checked` names a table, which it has over a disk that checks itself, in files:
//! - `line TEXT`, `torn TEXT`, `zeros COUNT`, `cut COUNT`: the log at rest has this more behind it, or so many bytes less;
//! - `mark keep`, `mark kept`, `mark none`, `mark strange`: the mark at rest is kept, or put back; or another stands in its place;
//! - `syncs COUNT`, `room COUNT`, `pieces COUNT`, `slots COUNT`: so many syncs the log's file takes, once it is open, so many bytes, so many
//!   at a time, and so many slots the mark's;
//! - `open`, `call COMMAND`, `sync`; `close`: the log's bytes, and where they were written;
//! - `ends`, `holes`, `flips`, `lines`: what starts make of the log at rest where it ends at each byte; where blocks of its end that no sync made
//!   sure of are zeros; where a bit is turned over; where a line is missing, doubled, or exchanged with the next.
//!
//! What is told for want of memory is made again.
#![tactic(auto)]

mod calling;
mod checked_case;
mod frail;
mod input;
mod log_case;
mod opening;
mod report;
mod rest;
mod seat_case;
mod sending;
mod slots;
mod starting;
mod sweeps;
mod words;

use checked_case::tell_checked;
use input::Input;
use log_case::tell_log;
use report::Report;
use seat_case::tell_seats;
use std::alloc::Global;
use std::io;
use std::io::Write;
use std::sync::Wait;
use words::first_word;

fn tell_cases<R: Print + Wait>(rt: &R, alloc: Global, input: &Input) -> io::Result<()> {
    let schema = match input.schema(alloc) {
        Ok(schema) => schema,
        Err(_) => return Err(io::Error::from(io::ErrorKind::OutOfMemory)),
    };
    let mut output = io::writer(rt);
    for case in &input.cases {
        let mut report = Report::new(alloc);
        report.texts(&[b"=== ", &case.name, b"\n"])?;
        match first_word(&case.name) {
            (b"log", _) => tell_log(alloc, &schema, &case.lines, &mut report)?,
            (b"checked", text) => {
                let (table, _) = first_word(text);
                tell_checked(alloc, &schema, table, &case.lines, &mut report)?;
            }
            _ => tell_seats(rt, alloc, &schema, &case.lines, &mut report)?,
        }
        output.write_all(report.bytes())?;
    }
    Ok(())
}

fn main(rt: HostRuntime) -> io::Result<()> {
    let input = Input::read(&rt)?;
    tell_cases(&rt, rt.alloc(), &input)
}
