//! What commands on tables are answered. The lines hold scripts one after the other, each below a line `=== NAME`: a schema
//! file, a line `---`, and lines of commands. A script with no schema file has that of the script before it, and the first one
//! the built-in schema.
//!
//! For each line it prints the text of the command that the line is read as, or its fault, what kind of outcome that is for
//! the table, and the answer. After the scripts come the faults that are told without a table.

mod steps;

use crate::scripts::{Script, scripts_of};
use schema_file::read_schema;
use std::alloc::{AllocError, Global};
use std::io;
use std::io::Write;
use steps::{tell_lines, tell_refusals};
use table_schema::{Schema, SchemaFault, builtin};

// The schema that a file says, or the built-in one where there is none.
fn schema_in(alloc: Global, file: &[u8]) -> Result<Schema, SchemaFault> {
    if file.is_empty() {
        return Ok(builtin(alloc)?);
    }
    read_schema(alloc, file)
}

// Adds what is printed for a script on the schema of this file.
fn tell_script(
    alloc: Global,
    file: &[u8],
    script: &Script,
    report: &mut Vec<u8>,
) -> Result<(), AllocError> {
    report.extend_from_slice(b"=== ")?;
    report.extend_from_slice(script.name.as_bytes())?;
    report.extend_from_slice(b"\n")?;
    match schema_in(alloc, file) {
        Ok(schema) => tell_lines(alloc, &schema, &script.lines, report),
        Err(_) => report.extend_from_slice(b"no schema\n"),
    }
}

/// What the tables of each script are told.
pub(crate) fn tell(rt: &HostRuntime, lines: &[Vec<u8>]) -> io::Result<()> {
    let alloc = rt.alloc();
    let mut report = Vec::new(alloc);
    let scripts = scripts_of(alloc, lines)?;
    let mut file: &[u8] = &[];
    for script in &scripts {
        if !script.file.is_empty() {
            file = &script.file;
        }
        tell_script(alloc, file, script, &mut report)?;
    }
    tell_refusals(alloc, &mut report)?;
    io::writer(rt).write_all(&report)
}
