//! A gate that notes who enters where.

use crate::report::Report;
use crate::start::{Start, answer, tell_gathered};
use shared_tables::{Gate, OpenGate, Pass, Shared};
use std::alloc::{AllocError, Global};
use std::sync::Wait;
use std::sync::atomic::{AtomicU64, Ordering};
use std::thread;
use std::thread::Threads;
use table_engine::{Sink, Source};

/// Who may enter where: each of two sessions each of two tables, or anything else.
const PLACES: [&str; 5] = ["p by 0", "p by 1", "t by 0", "t by 1", "another"];

/// How many times each session calls each table beside the other session.
const EACH: u64 = 200;

/// A stream of lines, some of which are no commands or name no table. No newline ends the last.
const STREAM: &str =
    "{\"op\":\"size\",\"t\":\"p\"}\n\nno line\n{\"op\":\"size\",\"t\":\"z\"}\n{\"op\":\"size\",\"t\":\"t\"}";

/// Sessions, or in the end a pass of no session, and their lines.
const CALLS: [(usize, &str); 9] = [
    (0, "{\"op\":\"size\",\"t\":\"p\"}"),
    (1, "{\"op\":\"size\",\"t\":\"p\"}"),
    (0, "{\"op\":\"size\",\"t\":\"t\"}"),
    (1, "{\"op\":\"insert\",\"t\":\"t\",\"r\":{\"k\":1}}"),
    (
        0,
        "{\"op\":\"insert\",\"t\":\"p\",\"r\":{\"id\":1,\"g\":\"a\"}}",
    ),
    (
        1,
        "{\"op\":\"insert\",\"t\":\"p\",\"r\":{\"id\":1,\"g\":\"b\"}}",
    ),
    (1, "{\"op\":\"insert\",\"t\":\"p\",\"r\":{\"id\":1}}"),
    (0, "{\"op\":\"size\",\"t\":\"z\"}"),
    (2, "{\"op\":\"size\",\"t\":\"p\"}"),
];

/// How often each of the places was entered.
#[derive(Drop)]
struct Trail {
    entered: [AtomicU64; 5],
}

impl Trail {
    fn new() -> Trail {
        Trail {
            entered: [
                AtomicU64::new(0),
                AtomicU64::new(0),
                AtomicU64::new(0),
                AtomicU64::new(0),
                AtomicU64::new(0),
            ],
        }
    }

    fn note(&self, table: usize, session: u32) {
        let place = match (table, session) {
            (0, 0) => 0,
            (0, 1) => 1,
            (1, 0) => 2,
            (1, 1) => 3,
            _ => 4,
        };
        self.entered[place].fetch_add(1, Ordering::SeqCst);
    }

    // Adds what was noted, and begins anew.
    fn tell(&self, report: &mut Report) -> Result<(), AllocError> {
        report.text("  entered:")?;
        let mut all = 0u64;
        for (name, entered) in PLACES.iter().zip(&self.entered) {
            let count = entered.swap(0, Ordering::SeqCst);
            all = all.saturating_add(count);
            if count > 0 {
                report.text(" ")?;
                report.text(name)?;
                report.text(" x ")?;
                report.number(count)?;
            }
        }
        report.text(if all == 0 { " none\n" } else { "\n" })
    }
}

/// A gate that notes who enters where.
#[derive(Clone, Copy)]
struct Noting<'a> {
    trail: &'a Trail,
}

impl<'a> Gate for Noting<'a> {
    fn enter(&self, table: usize, session: u32) {
        self.trail.note(table, session);
    }
}

// Adds who enters where at each of the calls, made one after the other. The last is of a pass of no session.
fn tell_calls(
    rt: &impl Wait,
    start: &Start,
    trail: &Trail,
    shared: &Shared<Noting<'_>>,
    passes: &mut [Pass],
    report: &mut Report,
) -> Result<(), AllocError> {
    for (session, line) in &CALLS {
        let Some(pass) = passes.get_mut(*session) else {
            return report.text("no pass\n");
        };
        report.text(line)?;
        report.text("\n  ")?;
        report.push(&answer(start.alloc, rt, shared, pass, line)?)?;
        trail.tell(report)?;
    }
    Ok(())
}

// Adds who enters where while a session serves a stream.
fn tell_stream(
    rt: &impl Wait,
    alloc: Global,
    trail: &Trail,
    shared: &Shared<Noting<'_>>,
    pass: &mut Pass,
    report: &mut Report,
) -> Result<(), AllocError> {
    let mut answers = Vec::new(alloc);
    let mut source = Source::new(STREAM.as_bytes());
    let mut sink = Sink::new(&mut answers);
    let served = shared.serve(rt, pass, &mut source, &mut sink);
    report.text("a stream\n")?;
    report.push(&answers)?;
    report.whether("  served", served.is_ok())?;
    trail.tell(report)
}

// Calls each of the two tables many times, and gives the pass back.
fn call_many(
    rt: &impl Wait,
    alloc: Global,
    shared: &Shared<Noting<'_>>,
    pass: Pass,
) -> Result<Pass, AllocError> {
    let mut pass = pass;
    for _ in 0..EACH {
        answer(alloc, rt, shared, &mut pass, CALLS[0].1)?;
        answer(alloc, rt, shared, &mut pass, CALLS[2].1)?;
    }
    Ok(pass)
}

// Lets two sessions call the tables at once, and adds who entered where, and what is gathered.
fn tell_both<R: Threads + Wait + Sync>(
    rt: &R,
    alloc: Global,
    trail: &Trail,
    shared: Shared<Noting<'_>>,
    passes: Vec<Pass>,
    report: &mut Report,
) -> Result<(), AllocError> {
    let mut passes = passes;
    let (Some(second), Some(first)) = (passes.pop(), passes.pop()) else {
        return report.text("no passes\n");
    };
    let (first, second) = thread::join(
        rt,
        || call_many(rt, alloc, &shared, first),
        || call_many(rt, alloc, &shared, second),
    );
    passes.push(first?)?;
    passes.push(second?)?;
    report.text("two sessions at once\n")?;
    trail.tell(report)?;
    tell_gathered(alloc, shared, passes, report)
}

/// Adds who enters where at each call, in a stream, and where two sessions call at once.
pub fn tell_noted<R: Threads + Wait + Sync>(
    rt: &R,
    start: &Start,
    report: &mut Report,
) -> Result<(), AllocError> {
    let trail = Trail::new();
    let (shared, mut passes) = start.tables(2, Noting { trail: &trail })?;
    let (_, mut strangers) = start.tables(3, OpenGate)?;
    passes.extend(strangers.pop())?;
    tell_calls(rt, start, &trail, &shared, &mut passes, report)?;
    passes.truncate(2);
    if let Some(pass) = passes.last_mut() {
        tell_stream(rt, start.alloc, &trail, &shared, pass, report)?;
    }
    tell_both(rt, start.alloc, &trail, shared, passes, report)
}
