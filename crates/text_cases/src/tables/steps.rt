//! What each line is to each table.

use crate::buffers::new_out;
use crate::commands::{name_of, written};
use crate::printed::is_line_printed;
use command_lines::{CommandFault, read_command};
use std::alloc::{AllocError, Global};
use table_cmd::Command;
use table_reply::{Fault, Out};
use table_schema::Schema;
use table_step::{Outcome, Table, refuse, refuse_memory};

/// The answer of a table that is not the one of the command.
const OTHER_TABLE: &[u8] = b"{\"err\":\"table\"}\n";

// What a command was for a table, in a word.
fn kind_of(outcome: Outcome) -> &'static str {
    match outcome {
        Outcome::Write => "write",
        Outcome::Read => "read",
        Outcome::Refusal => "refusal",
        Outcome::Memory => "memory",
    }
}

// Adds what was told.
fn tell(
    alloc: Global,
    outcome: Outcome,
    out: &Out,
    report: &mut Vec<u8>,
) -> Result<(), AllocError> {
    report.extend_from_slice(kind_of(outcome).as_bytes())?;
    report.extend_from_slice(b" ")?;
    report.extend_from_slice(out.bytes())?;
    if is_line_printed(alloc, out.bytes()) {
        return Ok(());
    }
    report.extend_from_slice(b"is printed otherwise\n")
}

// Adds a fault as it is told without a table.
fn tell_refused(alloc: Global, fault: Fault, report: &mut Vec<u8>) -> Result<(), AllocError> {
    let mut out = new_out(alloc)?;
    let Ok(ready) = out.emptied();
    let outcome = refuse(fault, ready).end();
    tell(alloc, outcome, &out, report)
}

fn tell_memory(alloc: Global, report: &mut Vec<u8>) -> Result<(), AllocError> {
    let mut out = new_out(alloc)?;
    let Ok(ready) = out.emptied();
    let outcome = refuse_memory(ready).end();
    tell(alloc, outcome, &out, report)
}

/// Adds each fault as it is told without a table.
pub(crate) fn tell_refusals(alloc: Global, report: &mut Vec<u8>) -> Result<(), AllocError> {
    report.extend_from_slice(b"=== refusals\n")?;
    tell_refused(alloc, Fault::Line, report)?;
    tell_memory(alloc, report)
}

// Adds what a table says to a command, but for one that says only that it has another name, and whether it was added.
fn tell_step(
    alloc: Global,
    table: &mut Table,
    command: &Command,
    report: &mut Vec<u8>,
) -> Result<bool, AllocError> {
    let mut out = new_out(alloc)?;
    let Ok(ready) = out.emptied();
    let outcome = table.step(command, ready).end();
    if outcome == Outcome::Refusal && out.bytes() == OTHER_TABLE {
        return Ok(false);
    }
    report.extend_from_slice(b"  ")?;
    tell(alloc, outcome, &out, report)?;
    Ok(true)
}

fn tell_fault(alloc: Global, fault: Fault, report: &mut Vec<u8>) -> Result<(), AllocError> {
    report.extend_from_slice(b"  ")?;
    tell_refused(alloc, fault, report)
}

// Adds what the tables say to a command.
fn tell_steps(
    alloc: Global,
    tables: &mut [Table],
    command: &Command,
    report: &mut Vec<u8>,
) -> Result<(), AllocError> {
    let mut is_told = false;
    for table in tables {
        if tell_step(alloc, table, command, report)? {
            is_told = true;
        }
    }
    if is_told {
        return Ok(());
    }
    tell_fault(alloc, Fault::Table, report)
}

// What a line that is no command is told.
fn fault_of(fault: CommandFault) -> Fault {
    match fault {
        CommandFault::Json => Fault::Json,
        CommandFault::Command => Fault::Command,
        CommandFault::Memory => Fault::Memory,
    }
}

// Adds the text of a command, and what it is told.
fn tell_command(
    alloc: Global,
    tables: &mut [Table],
    command: &Command,
    report: &mut Vec<u8>,
) -> Result<(), AllocError> {
    report.extend_from_slice(written(alloc, command)?.bytes())?;
    report.extend_from_slice(b"\n")?;
    tell_steps(alloc, tables, command, report)
}

// Adds why a line is no command, and what it is told.
fn tell_unread(alloc: Global, fault: CommandFault, report: &mut Vec<u8>) -> Result<(), AllocError> {
    report.extend_from_slice(name_of(fault).as_bytes())?;
    report.extend_from_slice(b"\n")?;
    tell_fault(alloc, fault_of(fault), report)
}

fn tell_line(
    alloc: Global,
    tables: &mut [Table],
    line: &[u8],
    report: &mut Vec<u8>,
) -> Result<(), AllocError> {
    match read_command(alloc, line) {
        Ok(command) => {
            let told = tell_command(alloc, tables, &command, report);
            drop(command);
            told
        }
        Err(fault) => tell_unread(alloc, fault, report),
    }
}

fn new_tables(alloc: Global, schema: &Schema) -> Result<Vec<Table>, AllocError> {
    let mut tables = Vec::new(alloc);
    for spec in schema.tables() {
        tables.push(Table::new(alloc, spec)?)?;
    }
    Ok(tables)
}

/// Tells each line to new tables of the schema. Adds to the report the text of the command that the line is read as, and the
/// kind of its outcome and its answer.
pub(crate) fn tell_lines(
    alloc: Global,
    schema: &Schema,
    lines: &[Vec<u8>],
    report: &mut Vec<u8>,
) -> Result<(), AllocError> {
    let mut tables = new_tables(alloc, schema)?;
    for line in lines {
        tell_line(alloc, &mut tables, line, report)?;
    }
    Ok(())
}
