//! Prints one table: what each call of the container takes by kind of index, beside the same indices kept by hand with std's
//! collections.
//!
//! - without a word: what the calls answer at 100 records, which no time is in
//! - `times`: the nanoseconds of a call at each size, the longest of some single insertions, and the bytes of a record
//! - `times functions`: the same, beside the container under keys from plain functions
//!
//! A time is the least of several rounds. A dash stands where a call has no counterpart.
#![tactic(auto)]

mod book;
mod by_hand;
mod calls;
mod coming;
mod filled;
mod keys;
mod longest;
mod measured;
mod memory;
mod plain_keys;
mod record;
mod rows;
mod scenes;
mod table;

use scenes::{Beside, print_answers, print_times};
use std::rt::Runtime;
use std::{env, io};

fn main(rt: HostRuntime) -> io::Result<()> {
    let alloc = rt.alloc();
    let words: Vec<String> = env::args(&rt)?.skip(1).collect(alloc)?;
    if words.is_empty() {
        return print_answers(&rt, alloc);
    }
    match words.get(1).map(|word| word.as_str()) {
        Some("functions") => print_times(&rt, alloc, Beside::Functions),
        _ => print_times(&rt, alloc, Beside::ByHand),
    }
}
