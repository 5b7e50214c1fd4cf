//! A gate that looks whether the step was made: a long answer takes memory, which the process does not have yet at the gate.

use crate::report::Report;
use crate::start::{Start, answer, tell_gathered};
use bench_report::resident;
use shared_tables::{Gate, Pass, Shared};
use std::alloc::{AllocError, Global};
use std::io;
use std::rt::Runtime;
use std::sync::Wait;
use std::sync::atomic::{AtomicU64, Ordering};

/// How many records are listed, and how many letters the text of each has.
const RECORDS: u64 = 400;

const LETTERS: usize = 4_000;

const LIST: &str = "{\"op\":\"list\",\"t\":\"p\",\"i\":\"q\"}";

/// A gate that notes the memory of the process.
#[derive(Drop)]
struct Weighing<'a, R: Runtime> {
    rt: &'a R,
    bytes: &'a AtomicU64,
}

impl<'a, R: Runtime> Gate for Weighing<'a, R> {
    fn enter(&self, _table: usize, _session: u32) {
        let bytes = resident(self.rt).unwrap_or(0);
        self.bytes.store(bytes, Ordering::SeqCst);
    }
}

// The letters of a text.
fn letters(alloc: Global) -> Result<String, AllocError> {
    let mut text = String::new(alloc);
    for _ in 0..LETTERS {
        text.push('x')?;
    }
    Ok(text)
}

// Inserts the records.
fn fill<G: Gate>(
    rt: &impl Wait,
    start: &Start,
    shared: &Shared<G>,
    pass: &mut Pass,
) -> Result<(), AllocError> {
    let text = letters(start.alloc)?;
    let text = text.as_str();
    for id in 0..RECORDS {
        let line = format!(in start.alloc;
            "{{\"op\":\"insert\",\"t\":\"p\",\"r\":{{\"id\":{id},\"g\":\"{text}\"}}}}"
        )?;
        answer(start.alloc, rt, shared, pass, &line)?;
    }
    Ok(())
}

/// The bytes of a list, and of the process before its call and behind it.
#[derive(Clone, Copy)]
struct Weighed {
    length: u64,
    before: u64,
    behind: u64,
}

// Calls for the list of the records.
fn weigh<R: Runtime + Wait, G: Gate>(
    rt: &R,
    start: &Start,
    shared: &Shared<G>,
    pass: &mut Pass,
) -> io::Result<Weighed> {
    let before = resident(rt)?;
    let told = answer(start.alloc, rt, shared, pass, LIST)?;
    let behind = resident(rt)?;
    Ok(Weighed {
        length: told.len() as u64,
        before,
        behind,
    })
}

// Adds where the memory of the list was taken, beside the bytes of the process at the gate.
fn tell_weighed(weighed: Weighed, at: u64, report: &mut Report) -> Result<(), AllocError> {
    report.text("a list\n  bytes: ")?;
    report.number(weighed.length)?;
    report.text("\n")?;
    report.whether(
        "  its memory is there before the gate",
        at.saturating_sub(weighed.before) > weighed.length / 2,
    )?;
    report.whether(
        "  its memory is there behind the gate",
        weighed.behind.saturating_sub(at) > weighed.length / 2,
    )
}

/// Adds whether the memory of a long answer is taken behind the gate.
pub fn tell_step<R: Runtime + Wait>(rt: &R, start: &Start, report: &mut Report) -> io::Result<()> {
    let bytes = AtomicU64::new(0);
    let (shared, mut passes) = start.tables(1, Weighing { rt, bytes: &bytes })?;
    if let Some(pass) = passes.first_mut() {
        fill(rt, start, &shared, pass)?;
        let weighed = weigh(rt, start, &shared, pass)?;
        tell_weighed(weighed, bytes.load(Ordering::SeqCst), report)?;
    }
    Ok(tell_gathered(start.alloc, shared, passes, report)?)
}
