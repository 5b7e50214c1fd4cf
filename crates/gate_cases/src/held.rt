//! A gate that holds a session inside one table until another session is answered on the other table.

use crate::meeting::Meeting;
use crate::report::Report;
use crate::start::{Start, Told, answered, passes_of, tell_gathered};
use shared_tables::{Gate, Pass, Shared};
use std::alloc::{AllocError, Global};
use std::sync::Wait;
use std::thread;
use std::thread::Threads;

const FIRST: &str = "{\"op\":\"size\",\"t\":\"p\"}";

const SECOND: &str = "{\"op\":\"size\",\"t\":\"t\"}";

/// A gate that holds the session 0 in the first table.
#[derive(Clone, Copy)]
struct Holding<'a> {
    meeting: &'a Meeting,
}

impl<'a> Gate for Holding<'a> {
    fn enter(&self, table: usize, session: u32) {
        if table == 0 && session == 0 {
            self.meeting.inside.raise();
            self.meeting.wait_for(&self.meeting.answered);
        }
    }
}

// What a session is answered on the other table once the first one is held.
fn pass_by(
    rt: &impl Wait,
    alloc: Global,
    meeting: &Meeting,
    shared: &Shared<Holding<'_>>,
    pass: Pass,
) -> Result<Told, AllocError> {
    meeting.wait_for(&meeting.inside);
    let told = answered(alloc, rt, shared, pass, SECOND);
    meeting.answered.raise();
    told
}

// What both sessions are answered: the one that is held, and the one that passes by.
fn call_both<R: Threads + Wait + Sync>(
    rt: &R,
    alloc: Global,
    meeting: &Meeting,
    shared: &Shared<Holding<'_>>,
    passes: Vec<Pass>,
) -> Result<(Told, Told), AllocError> {
    let mut passes = passes;
    let (Some(second), Some(first)) = (passes.pop(), passes.pop()) else {
        return Err(AllocError);
    };
    let (held, told) = thread::join(
        rt,
        || answered(alloc, rt, shared, first, FIRST),
        || pass_by(rt, alloc, meeting, shared, second),
    );
    let held = held?;
    Ok((held, told?))
}

// Adds what both are answered, and whether it was in time.
fn tell_both(
    meeting: &Meeting,
    first: &[u8],
    second: &[u8],
    report: &mut Report,
) -> Result<(), AllocError> {
    report.text("a session is held in a table, and another one calls the other table\n  ")?;
    report.push(first)?;
    report.text("  ")?;
    report.push(second)?;
    report.whether("  in time", meeting.is_in_time())
}

/// Adds what a session is answered that calls one table while another one is held in the other.
pub fn tell_called<R: Threads + Wait + Sync>(
    rt: &R,
    start: &Start,
    report: &mut Report,
) -> Result<(), AllocError> {
    let (alloc, meeting) = (start.alloc, Meeting::new());
    let holding = Holding { meeting: &meeting };
    let (shared, passes) = start.tables(2, holding)?;
    let (held, told) = call_both(rt, alloc, &meeting, &shared, passes)?;
    tell_both(&meeting, &held.answer, &told.answer, report)?;
    let passes = passes_of(alloc, held, told)?;
    tell_gathered(alloc, shared, passes, report)
}
