//! What each case begins with.

use crate::report::Report;
use command_lines::read_command;
use schema_file::read_schema;
use shared_tables::{Gate, GatherWhy, Pass, Shared, gather};
use std::alloc::{AllocError, Global};
use std::io;
use std::io::Read;
use std::sync::Wait;
use table_reply::Out;

/// The text of the schema.
#[derive(Drop)]
pub struct Start {
    pub alloc: Global,
    pub schema: Vec<u8>,
}

/// What a call with a line is answered. (The command is read last, so that nothing has to let go of it.)
pub fn answer<G: Gate>(
    alloc: Global,
    rt: &impl Wait,
    shared: &Shared<G>,
    pass: &mut Pass,
    line: &str,
) -> Result<Vec<u8>, AllocError> {
    let mut out = Out::new(alloc).map_err(|_| AllocError)?;
    let Ok(command) = read_command(alloc, line.as_bytes()) else {
        return b"no command\n".to_vec(alloc);
    };
    let Ok(ready) = out.emptied();
    match shared.call(rt, pass, command, ready).end() {
        Ok(()) => out.bytes().to_vec(alloc),
        Err(_) => b"refused\n".to_vec(alloc),
    }
}

/// The pass of a call, and what it was answered.
#[derive(Drop)]
pub struct Told {
    pub pass: Pass,
    pub answer: Vec<u8>,
}

/// What a call with a line is answered, and its pass.
pub fn answered<G: Gate>(
    alloc: Global,
    rt: &impl Wait,
    shared: &Shared<G>,
    pass: Pass,
    line: &str,
) -> Result<Told, AllocError> {
    let mut pass = pass;
    let answer = answer(alloc, rt, shared, &mut pass, line)?;
    Ok(Told { pass, answer })
}

/// Adds how many entries are gathered of each table, or why none are.
pub fn tell_gathered<G: Gate + Drop>(
    alloc: Global,
    shared: Shared<G>,
    passes: Vec<Pass>,
    report: &mut Report,
) -> Result<(), AllocError> {
    match gather(alloc, shared, passes) {
        Ok(journals) => {
            report.text("  gathered entries:")?;
            for journal in journals.tables() {
                report.text(" ")?;
                report.number(journal.len() as u64)?;
            }
            report.text("\n")
        }
        Err(fault) => match fault.why {
            GatherWhy::Memory => report.text("  not gathered: memory\n"),
            GatherWhy::Mismatch { .. } => report.text("  not gathered: a mismatch\n"),
        },
    }
}

/// The passes of two calls.
pub fn passes_of(alloc: Global, first: Told, second: Told) -> Result<Vec<Pass>, AllocError> {
    let mut passes = Vec::new(alloc);
    passes.push(first.pass)?;
    passes.push(second.pass)?;
    Ok(passes)
}

impl Start {
    /// Takes standard input as the text of the schema.
    pub fn read<R: Input>(rt: &R, alloc: Global) -> io::Result<Start> {
        let mut schema = Vec::new(alloc);
        rt.reader().read_to_end(&mut schema)?;
        Ok(Start { alloc, schema })
    }

    /// Empty tables of the schema with a gate, and a pass for each session.
    pub fn tables<G: Gate + Drop>(
        &self,
        workers: u32,
        gate: G,
    ) -> Result<(Shared<G>, Vec<Pass>), AllocError> {
        let schema = read_schema(self.alloc, &self.schema).map_err(|_| AllocError)?;
        let (shared, passes, _) = Shared::new(self.alloc, schema, workers, gate)?;
        Ok((shared, passes))
    }
}
