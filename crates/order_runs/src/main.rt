//! Gives drawn calls to the container, and compares each answer, and what each change leaves of the views, with what
//! the views that it showed before say.
//!
//! A line has a call: how often it was made, what refused it, and the differences. With a difference the status is 1.
#![tactic(auto)]

mod draw;
mod lists;
mod script;
mod tally;
mod views;
mod watched;

use script::run_script;
use std::io;
use std::process::ExitCode;
use tally::Tallies;

const SCRIPTS: u64 = 2400;

fn run(rt: &HostRuntime) -> io::Result<ExitCode> {
    let mut tallies = Tallies::new();
    for number in 0..SCRIPTS {
        run_script(rt.alloc(), number, &mut tallies)?;
    }
    tallies.print(rt)?;
    Ok(if tallies.are_clean() {
        ExitCode::SUCCESS
    } else {
        ExitCode::FAILURE
    })
}

fn main(rt: HostRuntime) -> io::Result<ExitCode> {
    run(&rt)
}
