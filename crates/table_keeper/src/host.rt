//! What serving asks of its host.

use std::io::Eprint;
use std::rt::Clock;
use std::sync::Wait;
use std::thread::Threads;

/// Memory, threads that wait, the clock, and what is told.
pub trait Host: AllocGlobal
    + Threads
    + Wait
    + Clock
    + Eprint
    + Copy
    + Send
    + Sync
    + Drop
    + 'static {}

impl<R> Host for R
where
    R: AllocGlobal + Threads + Wait + Clock + Eprint + Copy + Send + Sync + Drop + 'static,
{}
