//! Two threads on one table.

use crate::again::answer_after;
use crate::buffers::new_out;
use crate::report::Report;
use command_lines::read_command;
use shared_tables::{Journals, OpenGate, Pass, Shared, gather};
use std::alloc::{AllocError, Global};
use std::sync::Wait;
use std::thread;
use std::thread::Threads;
use table_cmd::Command;
use table_schema::Schema;

// How many records each thread inserts.
const EACH: u64 = 100;

// What a thread gives back: its pass, and what it was answered, one line for each record.
#[derive(Drop)]
struct Filled {
    pass: Pass,
    answers: Vec<Vec<u8>>,
}

// A row with this number.
fn push_row(id: u64, report: &mut Report) -> Result<(), AllocError> {
    report.text("{\"g\":\"a\",\"id\":")?;
    report.number(id)?;
    report.text(",\"n\":")?;
    report.number(id)?;
    report.text("}")
}

// The insertion of the record with this number.
fn insertion(alloc: Global, id: u64) -> Result<Command, AllocError> {
    let mut line = Report::new(alloc);
    line.text("{\"op\":\"insert\",\"t\":\"p\",\"r\":")?;
    push_row(id, &mut line)?;
    line.text("}")?;
    read_command(alloc, line.bytes()).map_err(|_| AllocError)
}

// Inserts records, the first one with this number.
fn fill(
    rt: &impl Wait,
    alloc: Global,
    shared: &Shared<OpenGate>,
    pass: Pass,
    first: u64,
) -> Result<Filled, AllocError> {
    let mut pass = pass;
    let mut answers = Vec::new(alloc);
    for id in (0..u64::MAX).skip(first as usize).take(EACH as usize) {
        let mut out = new_out(alloc)?;
        let command = insertion(alloc, id)?;
        let Ok(ready) = out.emptied();
        let called = shared.call(rt, &mut pass, command, ready).end();
        if called.is_ok() {
            answers.push(out.bytes().to_vec(alloc)?)?;
        }
    }
    Ok(Filled { pass, answers })
}

// The handle in the answer to an insertion.
fn handle_in(answer: &[u8]) -> &[u8] {
    answer
        .split(|byte| *byte == b'"')
        .nth(5)
        .unwrap_or_default()
}

// What the ordered index by number shows where each record has the handle that its thread was answered.
fn list_of(alloc: Global, first: &[Vec<u8>], second: &[Vec<u8>]) -> Result<Report, AllocError> {
    let mut list = Report::new(alloc);
    list.text("{\"at\":200,\"ok\":true,\"rs\":[")?;
    for (id, answer) in (0..u64::MAX).zip(first.iter().chain(second)) {
        list.text(if id == 0 { "{\"h\":\"" } else { ",{\"h\":\"" })?;
        list.push(handle_in(answer))?;
        list.text("\",\"r\":")?;
        push_row(id, &mut list)?;
        list.text("}")?;
    }
    list.text("]}\n")?;
    Ok(list)
}

// Adds how many entries each of the two sessions has in the journal of a table, and whether its writes are numbered from 1.
fn tell_sessions(journals: &Journals, table: usize, report: &mut Report) -> Result<(), AllocError> {
    let mut counts = [0u64, 0];
    let mut in_order = true;
    for entry in journals.tables().get(table).into_iter().flatten() {
        if let Some(count) = counts.get_mut(entry.session() as usize) {
            in_order = in_order && entry.serial().checked_sub(*count) == Some(1);
            *count = entry.serial();
        }
    }
    report.text("  table ")?;
    report.number(table)?;
    report.text(": ")?;
    report.number(counts[0])?;
    report.text(" and ")?;
    report.number(counts[1])?;
    report.text(if in_order {
        " in order\n"
    } else {
        " out of order\n"
    })
}

// Adds what the journals tell, and whether they make the same records with the same handles again.
fn tell_filled(
    alloc: Global,
    journals: &Journals,
    first: &[Vec<u8>],
    second: &[Vec<u8>],
    report: &mut Report,
) -> Result<(), AllocError> {
    tell_sessions(journals, 0, report)?;
    tell_sessions(journals, 1, report)?;
    report.text("  ")?;
    let size = answer_after(alloc, journals, b"{\"op\":\"size\",\"t\":\"p\"}")?;
    report.push(&size)?;
    let list = answer_after(
        alloc,
        journals,
        b"{\"op\":\"list\",\"t\":\"p\",\"i\":\"u\"}",
    )?;
    let same = list.as_slice() == list_of(alloc, first, second)?.bytes();
    report.text(if same {
        "  the same records and handles\n"
    } else {
        "  other records or handles\n"
    })
}

/// Lets two threads insert a hundred records each, and adds what their passes gather.
pub fn tell_threads<R: Threads + Wait + Sync>(
    rt: &R,
    alloc: Global,
    schema: Schema,
    report: &mut Report,
) -> Result<(), AllocError> {
    let (shared, mut passes, _) = Shared::new(alloc, schema, 2, OpenGate)?;
    let (Some(second), Some(first)) = (passes.pop(), passes.pop()) else {
        return report.text("  no passes\n");
    };
    let (first, second) = thread::join(
        rt,
        || fill(rt, alloc, &shared, first, 0),
        || fill(rt, alloc, &shared, second, EACH),
    );
    let (first, second) = (first?, second?);
    passes.push(first.pass)?;
    passes.push(second.pass)?;
    match gather(alloc, shared, passes) {
        Ok(journals) => tell_filled(alloc, &journals, &first.answers, &second.answers, report),
        Err(_) => report.text("  a mismatch\n"),
    }
}
