//! Lines that are sent, by threads too.

use crate::buffers::new_out;
use crate::report::Report;
use crate::told::{tell_fault, tell_unread};
use command_lines::read_command;
use shared_tables::{CallFault, OpenGate, Pass, Shared};
use std::alloc::{AllocError, Global};
use std::sync::Wait;
use std::thread;
use std::thread::Threads;
use table_cmd::Command;
use table_reply::Out;
use table_schema::Schema;
use table_step::Table;

/// A pass under a name, and the lines that are kept for it.
#[derive(Drop)]
pub struct Holder {
    pub name: Vec<u8>,
    pub pass: Pass,
    pub kept: Vec<Vec<u8>>,
}

impl Holder {
    /// No lines are kept.
    pub fn new(alloc: Global, name: Vec<u8>, pass: Pass) -> Holder {
        Holder {
            name,
            pass,
            kept: Vec::new(alloc),
        }
    }
}

/// A pass whose lines were sent, and what was told.
#[derive(Drop)]
pub struct Sent {
    pub holder: Holder,
    pub told: Report,
}

/// Calls the tables with the command of a line. (It is read last, so that nothing has to let go of it.)
pub fn call_line(
    alloc: Global,
    rt: &impl Wait,
    shared: &Shared<OpenGate>,
    pass: &mut Pass,
    line: &[u8],
    report: &mut Report,
) -> Result<(), AllocError> {
    let mut out = new_out(alloc)?;
    let command = match read_command(alloc, line) {
        Ok(command) => command,
        Err(fault) => return tell_unread(fault, report),
    };
    let Ok(ready) = out.emptied();
    let called = shared.call(rt, pass, command, ready).end();
    tell_call(called, &out, report)
}

fn tell_call(
    called: Result<(), CallFault>,
    out: &Out,
    report: &mut Report,
) -> Result<(), AllocError> {
    match called {
        Ok(()) => {
            report.text("  ")?;
            report.push(out.bytes())
        }
        Err(fault) => tell_fault(fault, report),
    }
}

// Sends the lines of a pass.
fn send(
    rt: &impl Wait,
    alloc: Global,
    shared: &Shared<OpenGate>,
    holder: Holder,
) -> Result<Sent, AllocError> {
    let Holder {
        name,
        mut pass,
        kept,
    } = holder;
    let mut told = Report::new(alloc);
    for line in &kept {
        call_line(alloc, rt, shared, &mut pass, line, &mut told)?;
    }
    let holder = Holder::new(alloc, name, pass);
    Ok(Sent { holder, told })
}

// Sends the lines of one pass after the other.
fn in_one(
    rt: &impl Wait,
    alloc: Global,
    shared: &Shared<OpenGate>,
    holders: Vec<Holder>,
) -> Result<Vec<Sent>, AllocError> {
    let mut all = Vec::new(alloc);
    for holder in holders {
        all.push(send(rt, alloc, shared, holder)?)?;
    }
    Ok(all)
}

// What two threads sent.
fn joined(
    front: Result<Vec<Sent>, AllocError>,
    back: Result<Vec<Sent>, AllocError>,
) -> Result<Vec<Sent>, AllocError> {
    let mut all = front?;
    for sent in back? {
        all.push(sent)?;
    }
    Ok(all)
}

// Lets two threads send the lines of these passes.
fn in_two<R: Threads + Wait + Sync>(
    rt: &R,
    alloc: Global,
    shared: &Shared<OpenGate>,
    holders: Vec<Holder>,
) -> Result<Vec<Sent>, AllocError> {
    let mut front = holders;
    let back = front.split_off(front.len() / 2)?;
    let (front, back) = thread::join(
        rt,
        || in_one(rt, alloc, shared, front),
        || in_one(rt, alloc, shared, back),
    );
    joined(front, back)
}

/// Lets four threads send the lines of these passes.
pub fn in_four<R: Threads + Wait + Sync>(
    rt: &R,
    alloc: Global,
    shared: &Shared<OpenGate>,
    holders: Vec<Holder>,
) -> Result<Vec<Sent>, AllocError> {
    let mut front = holders;
    let back = front.split_off(front.len() / 2)?;
    let (front, back) = thread::join(
        rt,
        || in_two(rt, alloc, shared, front),
        || in_two(rt, alloc, shared, back),
    );
    joined(front, back)
}

fn step(table: &mut Table, command: Command, out: &mut Out) {
    let Ok(ready) = out.emptied();
    table.step(&command, ready).end();
    drop(command);
}

fn step_line(
    alloc: Global,
    table: &mut Table,
    line: &[u8],
    report: &mut Report,
) -> Result<(), AllocError> {
    let mut out = new_out(alloc)?;
    let command = match read_command(alloc, line) {
        Ok(command) => command,
        Err(fault) => return tell_unread(fault, report),
    };
    step(table, command, &mut out);
    report.text("  ")?;
    report.push(out.bytes())
}

/// Carries the lines out on an empty table, the first one of the schema, which has no lock and no journal.
pub fn step_lines(
    alloc: Global,
    schema: &Schema,
    lines: &[Vec<u8>],
    report: &mut Report,
) -> Result<(), AllocError> {
    let Some(spec) = schema.tables().first() else {
        return report.text("  no tables\n");
    };
    let mut table = Table::new(alloc, spec)?;
    for line in lines {
        step_line(alloc, &mut table, line, report)?;
    }
    Ok(())
}
