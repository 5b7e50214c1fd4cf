//! A gate that holds a session inside a table, and looks whether another one comes there meanwhile.

use crate::meeting::Meeting;
use crate::report::Report;
use crate::start::{Start, Told, answered, passes_of, tell_gathered};
use shared_tables::{Gate, Pass, Shared};
use std::alloc::{AllocError, Global};
use std::sync::Wait;
use std::thread;
use std::thread::Threads;

/// What the session that is held calls, and what the other one does.
const CALLS: [(&str, &str); 2] = [
    (
        "{\"op\":\"insert\",\"t\":\"p\",\"r\":{\"id\":1,\"g\":\"a\"}}",
        "{\"op\":\"size\",\"t\":\"p\"}",
    ),
    (
        "{\"op\":\"insert\",\"t\":\"t\",\"r\":{\"k\":1}}",
        "{\"op\":\"size\",\"t\":\"t\"}",
    ),
];

/// A gate that holds the session 0, and notes whether the other one gets on meanwhile.
#[derive(Clone, Copy)]
struct Keeping<'a> {
    meeting: &'a Meeting,
}

impl<'a> Gate for Keeping<'a> {
    fn enter(&self, _table: usize, session: u32) {
        let meeting = self.meeting;
        if session != 0 {
            meeting.answered.raise();
            return;
        }
        meeting.inside.raise();
        meeting.wait_for(&meeting.coming);
        if meeting.answered.is_raised_meanwhile() {
            meeting.met.raise();
        }
    }
}

// What a session is answered that calls once the other one is held.
fn come(
    rt: &impl Wait,
    alloc: Global,
    meeting: &Meeting,
    shared: &Shared<Keeping<'_>>,
    pass: Pass,
    line: &str,
) -> Result<Told, AllocError> {
    meeting.wait_for(&meeting.inside);
    meeting.coming.raise();
    let told = answered(alloc, rt, shared, pass, line);
    meeting.answered.raise();
    told
}

// What both sessions are answered: the one that is held, and the one that comes then.
fn call_both<R: Threads + Wait + Sync>(
    rt: &R,
    alloc: Global,
    meeting: &Meeting,
    shared: &Shared<Keeping<'_>>,
    passes: Vec<Pass>,
    lines: (&str, &str),
) -> Result<(Told, Told), AllocError> {
    let mut passes = passes;
    let (Some(second), Some(first)) = (passes.pop(), passes.pop()) else {
        return Err(AllocError);
    };
    let (held, told) = thread::join(
        rt,
        || answered(alloc, rt, shared, first, lines.0),
        || come(rt, alloc, meeting, shared, second, lines.1),
    );
    let held = held?;
    Ok((held, told?))
}

// Adds what both are answered, whether they were there at once, and whether it was in time.
fn tell_both(
    meeting: &Meeting,
    held: &[u8],
    told: &[u8],
    report: &mut Report,
) -> Result<(), AllocError> {
    report.text("a session is held in a table, and another one calls the same table\n  ")?;
    report.push(held)?;
    report.text("  ")?;
    report.push(told)?;
    report.whether("  both were there at once", meeting.met.is_raised())?;
    report.whether("  in time", meeting.is_in_time())
}

// Lets two sessions come to one table, and adds what they are answered, and whether they were there at once.
fn tell_table<R: Threads + Wait + Sync>(
    rt: &R,
    start: &Start,
    lines: (&str, &str),
    report: &mut Report,
) -> Result<(), AllocError> {
    let (alloc, meeting) = (start.alloc, Meeting::new());
    let keeping = Keeping { meeting: &meeting };
    let (shared, passes) = start.tables(2, keeping)?;
    let (held, told) = call_both(rt, alloc, &meeting, &shared, passes, lines)?;
    tell_both(&meeting, &held.answer, &told.answer, report)?;
    let passes = passes_of(alloc, held, told)?;
    tell_gathered(alloc, shared, passes, report)
}

/// Adds whether two sessions are in one table at once, for each of two tables.
pub fn tell_locked<R: Threads + Wait + Sync>(
    rt: &R,
    start: &Start,
    report: &mut Report,
) -> Result<(), AllocError> {
    for lines in &CALLS {
        tell_table(rt, start, *lines, report)?;
    }
    Ok(())
}
