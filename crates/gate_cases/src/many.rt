//! Threads that serve many connections.

use crate::report::Report;
use crate::service::{answers, listen, remove, sent};
use crate::start::{Start, tell_gathered};
use shared_tables::OpenGate;
use std::alloc::{AllocError, Global};
use std::net::Net;
use std::rt::Files;
use std::sync::Wait;
use std::thread::Threads;
use std::{io, thread};
use table_sockets::serve_on;

/// How many connections one thread takes.
const EACH: [u32; 2] = [2_001, 100_000];

const LINE: &str = "{\"op\":\"insert\",\"t\":\"t\",\"r\":{\"k\":1}}\n";

// Makes connections, one after the other, each of which sends a line and waits for its answer, and counts those that are
// answered. It ends at the first that is not.
fn connect<R: Net>(rt: &R, alloc: Global, most: u32) -> u64 {
    let mut answered = 0u64;
    for _ in 0..most {
        let Ok(stream) = sent(rt, LINE.as_bytes()) else {
            return answered;
        };
        if answers(alloc, stream).is_empty() {
            return answered;
        }
        answered = answered.saturating_add(1);
    }
    answered
}

// Adds how many of the connections are answered that one thread is to take, and how many entries are gathered.
fn tell_each<R: Files + Net + Threads + Wait + Sync>(
    rt: &R,
    start: &Start,
    each: u32,
    report: &mut Report,
) -> io::Result<()> {
    let alloc = start.alloc;
    let (shared, passes) = start.tables(1, OpenGate)?;
    let listening = listen(rt, true)?;
    let (done, answered) = thread::join(
        rt,
        || serve_on(rt, listening, shared, passes, each),
        || connect(rt, alloc, each),
    );
    remove(rt)?;
    tell_answered(answered, report)?;
    report.end(done.end)?;
    Ok(tell_gathered(alloc, done.shared, done.passes, report)?)
}

fn tell_answered(answered: u64, report: &mut Report) -> Result<(), AllocError> {
    report.text("one thread and many connections\n  answered: ")?;
    report.number(answered)?;
    report.text("\n")
}

/// Adds how many of many connections are answered by one thread.
pub fn tell_many<R: Files + Net + Threads + Wait + Sync>(
    rt: &R,
    start: &Start,
    report: &mut Report,
) -> io::Result<()> {
    for each in &EACH {
        tell_each(rt, start, *each, report)?;
    }
    Ok(())
}
