//! Runs drawn scripts on the container and on its first version over plain lists by turns, and compares each answer,
//! and after each write each view. An index that is added is compared with that of a container that was made with it. Now and then
//! the container is made anew of what it holds.
//!
//! A line has the indices of a group, as `indices` reads them, how many scripts and calls it had, the refusals by
//! their names, and the differences. With a difference the status is 1.
//!
//! With the words `add INDEX` it adds an index to many records, once more where memory is refused, and prints one line; with
//! `fill INDEX` it ends before that, and prints none. With `spent` behind them no number is left for the write.
#![tactic(auto)]

mod draw;
mod index_tally;
mod indices;
mod last_writes;
mod limits;
mod pair;
mod plain;
mod refused;
mod script;
mod tally;

use draw::Draw;
use indices::Indices;
use last_writes::run_last_writes;
use refused::{Numbers, Run, run_refused};
use script::run_script;
use std::process::ExitCode;
use std::{env, io};
use tally::Tally;

const SCRIPTS: u64 = 300;

const GROUPS: [&str; 12] = [
    "sequenced",
    "ordered:0",
    "hashed!0",
    "random ranked:-1",
    "sequenced ordered!0 hashed:1",
    "ranked!0-12 hashed:2 random",
    "ordered:01 ranked:-1-2 hashed:012",
    "hashed!01 hashed:1 sequenced",
    "ranked:2 ordered:-20-1 ordered!10",
    "sequenced sequenced random random ordered:0 ordered:1 ranked:0 ranked:1",
    "sequenced random ordered!01 ordered:-1 ranked!20-1 ranked:-2 hashed!012 hashed:1",
    "hashed!0 hashed!12 ordered!0 ranked!1-02 ranked:01",
];

// Runs the scripts of a group.
fn run_group(rt: &HostRuntime, text: &str, seed: u64) -> io::Result<Tally> {
    let mut tally = Tally::new();
    let indices = Indices::read(rt.alloc(), text)?;
    for number in 0..SCRIPTS {
        let mut draw = Draw::new(rt.alloc(), seed, number);
        run_script(rt.alloc(), &indices, &mut draw, &mut tally)?;
    }
    Ok(tally)
}

// Runs the last writes that there are numbers for.
fn run_last(rt: &HostRuntime, total: &mut Tally) -> io::Result<()> {
    let mut tally = Tally::new();
    run_last_writes(rt.alloc(), &mut tally)?;
    total.add(&tally);
    tally.print(rt, "last writes")
}

// The status of a run.
fn status(tally: &Tally) -> ExitCode {
    if tally.is_clean() {
        ExitCode::SUCCESS
    } else {
        ExitCode::FAILURE
    }
}

fn run(rt: &HostRuntime) -> io::Result<ExitCode> {
    let mut total = Tally::new();
    for (number, text) in GROUPS.iter().enumerate() {
        let tally = run_group(rt, text, number as u64)?;
        tally.print(rt, text)?;
        total.add(&tally);
    }
    run_last(rt, &mut total)?;
    total.print(rt, "total")?;
    total.print_indices(rt)?;
    Ok(status(&total))
}

// What the first word asks for.
fn run_of(word: &str) -> Run {
    if word == "fill" { Run::Fill } else { Run::Add }
}

// Adds an index to many records.
fn run_words(rt: &HostRuntime, words: &[String]) -> io::Result<ExitCode> {
    let [word, index, behind @ ..] = words else {
        return Ok(ExitCode::FAILURE);
    };
    let run = run_of(word.as_str());
    let numbers = if behind.is_empty() {
        Numbers::Left
    } else {
        Numbers::Spent
    };
    let mut tally = Tally::new();
    run_refused(rt.alloc(), run, index.as_str(), numbers, &mut tally)?;
    if run == Run::Add {
        tally.print(rt, index.as_str())?;
    }
    Ok(ExitCode::SUCCESS)
}

fn main(rt: HostRuntime) -> io::Result<ExitCode> {
    let words: Vec<String> = env::args(&rt)?.skip(1).collect(rt.alloc())?;
    if words.is_empty() {
        run(&rt)
    } else {
        run_words(&rt, &words)
    }
}
