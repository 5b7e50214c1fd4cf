//! A gate that holds a session inside each of sixteen tables in turn, until another session is answered on all others.

use crate::meeting::Meeting;
use crate::report::Report;
use crate::start::{Start, Told, answer, answered};
use crate::wide::{SESSIONS, TABLES, UNNAMED, wide};
use shared_tables::{Gate, Pass, Shared};
use std::alloc::{AllocError, Global};
use std::sync::Wait;
use std::thread;
use std::thread::Threads;

/// The session that is held.
const HELD: u32 = SESSIONS - 1;

const EMPTY: &[u8] = b"{\"at\":0,\"n\":0,\"ok\":true}";

/// A gate that holds one session in one table.
#[derive(Clone, Copy)]
struct Staying<'a> {
    meeting: &'a Meeting,
    table: usize,
}

impl<'a> Gate for Staying<'a> {
    fn enter(&self, table: usize, session: u32) {
        if table == self.table && session == HELD {
            self.meeting.inside.raise();
            self.meeting.wait_for(&self.meeting.answered);
        }
    }
}

// A look at a table.
fn look(alloc: Global, table: usize) -> Result<String, AllocError> {
    format!(in alloc; "{{\"op\":\"size\",\"t\":\"t{table}\"}}")
}

// What a session is answered by all tables but one, and by a line that names none, once another session is held in that one.
fn go_round(
    rt: &impl Wait,
    alloc: Global,
    meeting: &Meeting,
    shared: &Shared<Staying<'_>>,
    pass: Pass,
    held: usize,
) -> Result<Vec<u8>, AllocError> {
    let (mut pass, mut told) = (pass, Vec::new(alloc));
    meeting.wait_for(&meeting.inside);
    for table in 0..=TABLES {
        if table != held {
            let line = look(alloc, table)?;
            told.extend_from_slice(&answer(alloc, rt, shared, &mut pass, &line)?)?;
        }
    }
    meeting.answered.raise();
    Ok(told)
}

// What both sessions are answered: the one that is held, and the one that goes round.
fn call_both<R: Threads + Wait + Sync>(
    rt: &R,
    alloc: Global,
    meeting: &Meeting,
    shared: &Shared<Staying<'_>>,
    passes: Vec<Pass>,
    table: usize,
) -> Result<(Told, Vec<u8>), AllocError> {
    let (mut passes, line) = (passes, look(alloc, table)?);
    let (Some(first), Some(second)) = (passes.pop(), passes.pop()) else {
        return Err(AllocError);
    };
    let (held, told) = thread::join(
        rt,
        || answered(alloc, rt, shared, first, &line),
        || go_round(rt, alloc, meeting, shared, second, table),
    );
    let held = held?;
    Ok((held, told?))
}

// How many answers are those of an empty table, and of no table.
fn count(told: &[u8]) -> (u64, u64) {
    let (mut of_tables, mut of_none) = (0u64, 0u64);
    for answer in told.split(|byte| *byte == b'\n') {
        if answer == EMPTY {
            of_tables = of_tables.saturating_add(1);
        } else if answer == UNNAMED {
            of_none = of_none.saturating_add(1);
        }
    }
    (of_tables, of_none)
}

// Adds what is answered while a session is held in one of the tables.
fn tell_held<R: Threads + Wait + Sync>(
    rt: &R,
    start: &Start,
    table: usize,
    report: &mut Report,
) -> Result<(), AllocError> {
    let meeting = Meeting::new();
    let staying = Staying {
        meeting: &meeting,
        table,
    };
    let (shared, passes) = start.tables(SESSIONS, staying)?;
    let (held, told) = call_both(rt, start.alloc, &meeting, &shared, passes, table)?;
    let (of_tables, of_none) = count(&told);
    report.text(
        "a session is held in one of sixteen tables, and another one calls all others\n  ",
    )?;
    report.push(&held.answer)?;
    report.text("  by the others: ")?;
    report.number(of_tables)?;
    report.text("\n  of no table: ")?;
    report.number(of_none)?;
    report.text("\n")?;
    report.whether("  in time", meeting.is_in_time())
}

/// Adds what a session is answered by all tables but one, in which another session is held, for each of sixteen tables.
pub fn tell_beside<R: Threads + Wait + Sync>(
    rt: &R,
    start: &Start,
    report: &mut Report,
) -> Result<(), AllocError> {
    let start = wide(start.alloc)?;
    for table in 0..TABLES {
        tell_held(rt, &start, table, report)?;
    }
    Ok(())
}
