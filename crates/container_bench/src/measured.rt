//! Calls that are timed.

use crate::table::{Side, Size, Table};
use std::io;
use std::rt::Runtime;
use std::time::Instant;

/// At which numbers a call is made, of so many.
#[derive(Clone, Copy)]
pub(crate) enum Span {
    All,
    First(u64),
    FirstHalf,
}

impl Span {
    // How many numbers these are.
    fn of(self, count: u64) -> u64 {
        match self {
            Span::All => count,
            Span::First(most) => count.min(most),
            Span::FirstHalf => count / 2,
        }
    }
}

/// Something with calls that are timed.
pub(crate) trait Measured {
    type Call: Copy;

    /// Whether there is such a call.
    fn has(&self, call: Self::Call) -> bool;

    /// Makes the call at each of these numbers. Answers a sum of the answers.
    fn make(&mut self, call: Self::Call, from: u64, to: u64) -> u64;
}

/// Times those of these calls that there are, one after the other.
pub(crate) fn time_calls<R: Runtime, M: Measured>(
    rt: &R,
    table: &mut Table,
    side: Side,
    measured: &mut M,
    rows: &[(&'static str, M::Call, Span)],
    size: Size,
) -> io::Result<()> {
    for (name, call, span) in rows {
        if measured.has(*call) {
            let calls = span.of(size.count);
            let start = Instant::now(rt)?;
            let met = measured.make(*call, 0, calls);
            table.time(name, side, size, start.elapsed(rt)?, calls)?;
            table.answer(name, side, met)?;
        }
    }
    Ok(())
}
