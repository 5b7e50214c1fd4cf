//! Prints what sessions are told by tables behind locks, and what their passes gather. Standard input holds a schema file, a
//! line `---`, and then lines, which are printed too, but for `later`:
//!
//! - `open SET SESSIONS`: empty tables of the schema under this name, for so many sessions, and a pass for each: the passes of
//!   `a` are called `a0`, `a1` and so on;
//! - `builtin SET SESSIONS`: the same of the built-in schema. Where memory is refused for the schema or its tables, nothing is opened, and
//!   that is told;
//! - `PASS SET COMMAND`: the pass calls the command on these tables;
//! - `later PASS COMMAND`: the command is kept for the pass, and the line is not printed;
//! - `join SET PASS ..`: four threads share the passes, and call what was kept for them on these tables;
//! - `serve SET PASS`: what was kept for the pass is served as one stream, whose last line no newline ends;
//! - `alone PASS`: what the first table of the schema answers, empty, without a lock or a journal, to what is kept for the pass;
//! - `gather SET PASS ..`: the passes are gathered with the tables. Where they agree, the journals are printed and run again on
//!   empty tables; otherwise all are put back;
//! - `uncompared SET`: the journals as they stand, as where memory was refused, with the number of each one's entries; they are
//!   not handed out where a mismatch was found;
//! - `write SET`: the text of these journals, or a front of it and why no more was written;
//! - `narrow SET`: whether writers that are too narrow for the text of these journals take fronts of it;
//! - `again SET COMMAND`: what these tables answer once the journals were run on them;
//! - `threads`: two threads insert a hundred records each in a table `p`, which are gathered and run again.
#![tactic(auto)]

mod again;
mod buffers;
mod hall;
mod narrow;
mod report;
mod sending;
mod serving;
mod threads;
mod told;
mod words;

use hall::Hall;
use report::Report;
use std::alloc::Global;
use std::io;
use std::io::{BufRead, Write};
use std::sync::Wait;
use std::thread::Threads;

// Carries out the lines of the input, and prints what each is told before the next is read.
fn tell_lines<R: Input + Print + Threads + Wait + Sync>(rt: &R, alloc: Global) -> io::Result<()> {
    let mut hall = Hall::new(alloc);
    let mut report = Report::new(alloc);
    let mut output = io::writer(rt);
    for line in rt.reader().split(alloc, b'\n') {
        hall.take(rt, &line?, &mut report)?;
        output.write_all(report.bytes())?;
        report.clear();
    }
    Ok(())
}

fn main(rt: HostRuntime) -> io::Result<()> {
    tell_lines(&rt, rt.alloc())
}
