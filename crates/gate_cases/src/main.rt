//! Prints what gates see of calls on tables behind locks, and how services end whose threads end in different ways. Standard
//! input holds a schema file with the tables `p` and `t`.
//!
//! Sessions meet in threads. Each wait has a limit, and a case tells whether one was met. What is printed is the same
//! however the threads take turns.
#![tactic(auto)]

mod beside;
mod counted;
mod ends;
mod flag;
mod held;
mod locked;
mod long;
mod many;
mod meeting;
mod noted;
mod report;
mod served;
mod service;
mod start;
mod step;
mod wide;

use beside::tell_beside;
use counted::tell_counted;
use ends::tell_ends;
use held::tell_called;
use locked::tell_locked;
use long::tell_long;
use many::tell_many;
use noted::tell_noted;
use report::Report;
use served::tell_served;
use start::Start;
use std::io;
use std::io::Write;
use step::tell_step;
use wide::tell_wide;

fn main(rt: HostRuntime) -> io::Result<()> {
    let start = Start::read(&rt, rt.alloc())?;
    let mut report = Report::new(rt.alloc());
    tell_noted(&rt, &start, &mut report)?;
    tell_step(&rt, &start, &mut report)?;
    tell_locked(&rt, &start, &mut report)?;
    tell_called(&rt, &start, &mut report)?;
    tell_served(&rt, &start, &mut report)?;
    tell_counted(&rt, &start, &mut report)?;
    tell_ends(&rt, &start, &mut report)?;
    tell_wide(&rt, &start, &mut report)?;
    tell_beside(&rt, &start, &mut report)?;
    tell_long(&rt, &start, &mut report)?;
    tell_many(&rt, &start, &mut report)?;
    io::writer(&rt).write_all(report.bytes())
}
