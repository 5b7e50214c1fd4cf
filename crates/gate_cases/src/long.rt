//! A journal of many entries.

use crate::report::Report;
use crate::start::{Start, answer, tell_gathered};
use shared_tables::OpenGate;
use std::alloc::AllocError;
use std::sync::Wait;

/// How many writes a session makes to one table.
const WRITES: u64 = 200_000;

const FIRST: &str = "{\"op\":\"insert\",\"t\":\"t\",\"r\":{\"k\":1}}";

const NEXT: &str = "{\"op\":\"replace\",\"t\":\"t\",\"h\":\"0:1\",\"r\":{\"k\":1}}";

/// Adds how many writes of one record are accepted, and how many entries are gathered.
pub fn tell_long(rt: &impl Wait, start: &Start, report: &mut Report) -> Result<(), AllocError> {
    let (shared, mut passes) = start.tables(1, OpenGate)?;
    let mut accepted = 0u64;
    if let Some(pass) = passes.first_mut() {
        for number in 0..WRITES {
            let line = if number == 0 { FIRST } else { NEXT };
            if answer(start.alloc, rt, &shared, pass, line)?.starts_with(b"{\"at\":") {
                accepted = accepted.saturating_add(1);
            }
        }
    }
    report.text("one record, written over and over\n  accepted: ")?;
    report.number(accepted)?;
    report.text("\n")?;
    tell_gathered(start.alloc, shared, passes, report)
}
