//! What schema files mean. The lines hold the files one after the other, each below a line `=== NAME`. Each is answered by
//! `NAME: FAULT`, or by `NAME: valid` and a line for each of its tables; the built-in schema comes first. Lines below a line `---`
//! add indices to the first of the tables, and drop some: each is printed with what it does, and where it does so, the table.

mod defined;
mod spelled;

use crate::scripts::{Script, scripts_of};
use defined::tell_change;
use schema_file::read_schema;
use spelled::table_line;
use std::io;
use table_schema::{Schema, builtin};

fn tell_tables(rt: &HostRuntime, name: &str, schema: &Schema) -> io::Result<()> {
    println!(rt; "{name}: valid")?;
    for table in schema.tables() {
        let copy = table.copy()?;
        let line = table_line(rt.alloc(), &copy)?;
        println!(rt; "  {line}")?;
    }
    Ok(())
}

// What each line makes of the first of the tables.
fn tell_changes(rt: &HostRuntime, lines: &[Vec<u8>], schema: &Schema) -> io::Result<()> {
    let alloc = rt.alloc();
    let Some(first) = schema.tables().first() else {
        return Ok(());
    };
    let mut table = first.copy()?;
    for line in lines {
        let line = String::from_utf8_lossy(alloc, line)?;
        let said = tell_change(alloc, &mut table, line.as_str())?;
        println!(rt; "{line}\n  {said}")?;
    }
    Ok(())
}

fn tell_script(rt: &HostRuntime, script: &Script) -> io::Result<()> {
    let name = script.name.as_str();
    match read_schema(rt.alloc(), &script.file) {
        Ok(schema) => {
            tell_tables(rt, name, &schema)?;
            tell_changes(rt, &script.lines, &schema)
        }
        Err(fault) => println!(rt; "{name}: {fault}"),
    }
}

/// The built-in schema, and what each file means.
pub(crate) fn tell(rt: &HostRuntime, lines: &[Vec<u8>]) -> io::Result<()> {
    let alloc = rt.alloc();
    tell_tables(rt, "built in", &builtin(alloc)?)?;
    for script in &scripts_of(alloc, lines)? {
        tell_script(rt, script)?;
    }
    Ok(())
}
