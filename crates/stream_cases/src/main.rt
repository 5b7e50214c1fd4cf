//! Prints whether sessions are answered the same in whatever way they send their lines, also over readers and writers that
//! fail. Standard input holds a schema file, and then streams, each below a line `=== NAME`. In a stream `@(COUNT BYTE)`
//! stands for so many bytes of that number.
//!
//! For each stream it prints what one session is answered that sends the lines one after the other, and then whether the
//! answers are the same in other ways, also where each read in turn fails, and the writer after each number of bytes. Behind
//! locks the journals then tell of what was carried out; they are printed too. At last it prints how services on the tables
//! end, and what words ask for one.
#![tactic(auto)]

mod broken;
mod buffers;
mod device;
mod fault;
mod faulty;
mod input;
mod interrupted;
mod journal;
mod locks;
mod marks;
mod repeats;
mod sent;
mod served;
mod service;
mod sessions;
mod ways;
mod words;

use input::Input;
use service::tell_ends;
use std::io;
use std::io::Write;
use ways::{tell_early, tell_ways};
use words::tell_words;

fn main(rt: HostRuntime) -> io::Result<()> {
    let alloc = rt.alloc();
    let input = Input::read(&rt)?;
    let mut report = Vec::new(alloc);
    if let Ok(schema) = input.schema(alloc) {
        for stream in &input.streams {
            tell_ways(&rt, alloc, (&input, &schema), stream, &mut report)?;
        }
        tell_early(alloc, &schema, &mut report)?;
        tell_ends(&rt, &input, &mut report)?;
        tell_words(alloc, &mut report)?;
    }
    io::writer(&rt).write_all(&report)
}
