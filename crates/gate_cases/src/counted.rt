//! How many connections are served.

use crate::report::Report;
use crate::service::{answers, listen, remove, sent};
use crate::start::{Start, tell_gathered};
use shared_tables::OpenGate;
use std::io;
use std::net::Net;
use std::os::unix::net::UnixStream;
use std::rt::Files;
use std::sync::Wait;
use std::thread::Threads;
use table_sockets::serve_on;

/// How many threads serve, and how many connections each of them takes.
const WORKERS: u32 = 2;

const EACH: u32 = 3;

/// How many connections send a line, and how many send nothing, so that a service that waits for too many of them ends.
const OPENED: u64 = 8;

const SPARES: u64 = 8;

// Connections, each of which has sent a line, and then the spare ones, which have ended.
fn connect<R: Net>(rt: &R, start: &Start) -> io::Result<Vec<UnixStream>> {
    let mut opened = Vec::new(start.alloc);
    for id in 0..OPENED {
        let line = format!(in start.alloc;
            "{{\"op\":\"insert\",\"t\":\"t\",\"r\":{{\"k\":{id}}}}}\n"
        )?;
        opened.push(sent(rt, line.as_bytes())?)?;
    }
    for _ in 0..SPARES {
        sent(rt, b"")?;
    }
    Ok(opened)
}

/// Adds how many of the connections are answered, of which there are too many, and how many entries are gathered.
pub fn tell_counted<R: Files + Net + Threads + Wait + Sync>(
    rt: &R,
    start: &Start,
    report: &mut Report,
) -> io::Result<()> {
    let alloc = start.alloc;
    let (shared, passes) = start.tables(WORKERS, OpenGate)?;
    let listening = listen(rt, true)?;
    let opened = connect(rt, start)?;
    let done = serve_on(rt, listening, shared, passes, EACH);
    remove(rt)?;
    let mut answered = 0u64;
    for stream in opened {
        if !answers(alloc, stream).is_empty() {
            answered = answered.saturating_add(1);
        }
    }
    report.text("eight connections, of which two threads take three each\n  answered: ")?;
    report.number(answered)?;
    report.text("\n")?;
    report.end(done.end)?;
    Ok(tell_gathered(alloc, done.shared, done.passes, report)?)
}
