//! Answers lines of commands on tables that are kept in memory.
#![tactic(auto)]

mod beside;
mod fault;
mod journal;
mod opens;
mod place;
mod program;
mod serve;

use beside::HostFiles;
use program::{given_words, main_with};
use std::io;
use std::process::ExitCode;
use table_engine::{Sink, Source};

fn main(rt: HostRuntime) -> ExitCode {
    let mut faults = Sink::new(rt.stderr());
    let status = match given_words(&rt) {
        Ok(words) => main_with(
            &rt,
            &mut HostFiles { rt: &rt },
            &words,
            &mut Source::new(rt.reader()),
            &mut Sink::new(io::writer(&rt)),
            &mut faults,
        ),
        Err(fault) => fault.report(&mut faults),
    };
    ExitCode::from(status)
}
