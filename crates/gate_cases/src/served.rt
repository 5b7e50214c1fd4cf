//! A gate that holds a connection inside one table until another connection is answered on the other table.

use crate::meeting::Meeting;
use crate::report::Report;
use crate::service::{answers, listen, remove, sent};
use crate::start::{Start, tell_gathered};
use shared_tables::Gate;
use std::io;
use std::io::Read;
use std::net::Net;
use std::os::unix::net::UnixStream;
use std::rt::Files;
use std::sync::Wait;
use std::thread::Threads;
use table_sockets::serve_on;

const FIRST: &str = "{\"op\":\"size\",\"t\":\"p\"}\n";

const SECOND: &str = "{\"op\":\"size\",\"t\":\"t\"}\n";

/// A gate that holds whoever comes to the first table until the other connection is sent something.
#[derive(Clone, Copy)]
struct Reading<'a> {
    meeting: &'a Meeting,
    other: &'a UnixStream,
}

impl<'a> Gate for Reading<'a> {
    fn enter(&self, table: usize, _session: u32) {
        if table != 0 {
            return;
        }
        self.meeting.inside.raise();
        let (mut other, mut one) = (self.other, [0]);
        if let Ok(1) = other.read(&mut one) {
            self.meeting.answered.raise();
        }
    }
}

/// Adds whether a connection is answered by one table while another one is held in the other.
pub fn tell_served<R: Files + Net + Threads + Wait + Sync>(
    rt: &R,
    start: &Start,
    report: &mut Report,
) -> io::Result<()> {
    let (alloc, meeting) = (start.alloc, Meeting::new());
    let listening = listen(rt, true)?;
    let first = sent(rt, FIRST.as_bytes())?;
    let other = sent(rt, SECOND.as_bytes())?;
    let reading = Reading {
        meeting: &meeting,
        other: &other,
    };
    let (shared, passes) = start.tables(2, reading)?;
    let done = serve_on(rt, listening, shared, passes, 1);
    remove(rt)?;
    report.text("a connection is held in a table, and another one calls the other table\n  ")?;
    report.push(&answers(alloc, first))?;
    report.whether("  the first came inside", meeting.inside.is_raised())?;
    report.whether(
        "  the other was answered meanwhile",
        meeting.answered.is_raised(),
    )?;
    report.end(done.end)?;
    Ok(tell_gathered(alloc, done.shared, done.passes, report)?)
}
