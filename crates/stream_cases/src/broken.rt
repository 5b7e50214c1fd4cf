//! Streams of which each read in turn fails, and the writer after each number of bytes.

use crate::fault::{Failing, Fault, told_by_engine};
use crate::locks::Locks;
use crate::marks::Mark;
use crate::sent::Sent;
use std::alloc::AllocError;
use std::sync::Wait;
use table_engine::{Engine, PIECE, Sink, Source, serve_stream};

/// How many bytes a read gives, at most.
const SIZES: [usize; 4] = [1, 7, 64, PIECE];

// Whether an engine tells the fault, and then serves the rest of the stream, from the first line on that it did not carry
// out, as if nothing had failed.
fn is_served_on(fault: Fault) -> Result<bool, AllocError> {
    let alloc = fault.sent.alloc;
    let mut engine = Engine::new(alloc, fault.sent.schema, 1)?;
    let mut source = Source::new(fault.reader());
    let mut sink = Sink::new(fault.writer());
    let served = serve_stream(alloc, &mut engine, 0, &mut source, &mut sink);
    let is_told = fault.is_told(told_by_engine(served), &source, sink);
    let mut written = Vec::new(alloc);
    let mut source = Source::new(fault.rest());
    let mut sink = Sink::new(&mut written);
    let served = serve_stream(alloc, &mut engine, 0, &mut source, &mut sink);
    Ok(is_told && served.is_ok() && written.as_slice() == fault.rest_of_answers())
}

// Whether a stream that breaks off is told of and served on as it has to be, also where its reads give less.
fn is_right(
    rt: &impl Wait,
    sent: Sent,
    marks: &[Mark],
    failing: Failing,
    locks: Option<&Locks<'_>>,
) -> Result<bool, AllocError> {
    for at_a_time in SIZES {
        let fault = Fault {
            sent,
            marks,
            at_a_time,
            failing,
        };
        let is_right = match locks {
            _ if at_a_time < sent.stride().min(PIECE) => true,
            None => is_served_on(fault)?,
            Some(locks) => locks.is_served_on(rt, fault)?,
        };
        if !is_right {
            return Ok(false);
        }
    }
    Ok(true)
}

/// The place among the calls that fail of the first at which an engine, or tables behind locks, serve the stream otherwise.
pub fn first_wrong_call(
    rt: &impl Wait,
    sent: Sent,
    marks: &[Mark],
    failings: &[Failing],
    locks: Option<&Locks<'_>>,
) -> Result<Option<usize>, AllocError> {
    for (at, failing) in failings.iter().enumerate() {
        if !is_right(rt, sent, marks, *failing, locks)? {
            return Ok(Some(at));
        }
    }
    Ok(None)
}
