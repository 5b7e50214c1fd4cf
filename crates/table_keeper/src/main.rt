//! Keeps the tables of a schema in a folder, and answers lines of commands on them.
#![tactic(auto)]

mod alter;
mod compact;
mod decided;
mod dump;
mod export;
mod fault;
mod files;
mod fill;
mod folder;
mod host;
mod import;
mod listen;
mod logs;
mod mark;
mod patient;
mod program;
mod request;
mod rows;
mod schema;
mod serve;
mod shown;
mod syncer;
mod told;
mod upgrade;

use program::run;
use std::process::ExitCode;

fn main(rt: HostRuntime) -> ExitCode {
    let mut faults = rt.stderr();
    match run(&rt, &rt) {
        Ok(()) => ExitCode::from(0),
        Err(fault) => ExitCode::from(fault.report(&mut faults)),
    }
}
