//! A stream over readers and writers that fail.

use crate::device::{Broken, Narrow};
use crate::sent::{Sent, apart, at_once};
use std::alloc::AllocError;
use table_engine::{Engine, Sink, Source, StreamFault, serve_stream};

// Where the line of a place begins.
fn line_start(front: &[u8]) -> usize {
    match front.iter().rposition(|byte| *byte == b'\n') {
        Some(newline) => newline + 1,
        None => 0,
    }
}

// Whether a read fault is told after the answers to the completed lines, and the answers are the same where the same session
// sends on from the start of the line that was broken off. The reader gives so many bytes at a time, and fails at a place.
fn is_read_on(sent: Sent, at: usize, at_a_time: usize) -> Result<bool, AllocError> {
    let alloc = sent.alloc;
    let (front, _) = sent.stream.split_at(at.min(sent.stream.len()));
    let start = line_start(front).min(sent.stream.len());
    let (completed, rest) = sent.stream.split_at(start);
    let mut engine = Engine::new(alloc, sent.schema, 1)?;
    let mut written = Vec::new(alloc);
    let mut broken = Source::new(Broken {
        rest: front,
        at_a_time,
        fails: true,
    });
    let mut sink = Sink::new(&mut written);
    let first = serve_stream(alloc, &mut engine, 0, &mut broken, &mut sink);
    let is_told = first == Err(StreamFault::Read)
        && broken.failures() == 1
        && broken.ends() == 0
        && sink.failures() == 0;
    let is_answered = written.as_slice() == at_once(alloc, sent.schema, completed)?.bytes();
    let mut sink = Sink::new(&mut written);
    let second = serve_stream(alloc, &mut engine, 0, &mut Source::new(rest), &mut sink);
    Ok(is_told && is_answered && second.is_ok() && written.as_slice() == sent.answers)
}

/// The first place at which a reader fails, and the answers are then others.
pub fn first_wrong_read(sent: Sent) -> Result<Option<usize>, AllocError> {
    for at in (0..sent.stream.len()).step_by(sent.stride()) {
        if !is_read_on(sent, at, usize::MAX)? || !is_read_on(sent, at, sent.stride())? {
            return Ok(Some(at));
        }
    }
    Ok(None)
}

// What a stream is told where it is sent twice, the first time over a narrow writer.
#[derive(Drop)]
struct Twice {
    is_broken: bool,
    first: Vec<u8>,
    second: Vec<u8>,
}

fn sent_twice(sent: Sent, mut narrow: Narrow) -> Result<Twice, AllocError> {
    let alloc = sent.alloc;
    let mut engine = Engine::new(alloc, sent.schema, 1)?;
    let mut second = Vec::new(alloc);
    let mut source = Source::new(sent.stream);
    let mut sink = Sink::new(&mut narrow);
    let served = serve_stream(alloc, &mut engine, 0, &mut source, &mut sink);
    let is_broken = served == Err(StreamFault::Write)
        && sink.failures() == 1
        && source.failures() == 0;
    let mut source = Source::new(sent.stream);
    let mut sink = Sink::new(&mut second);
    let _ = serve_stream(alloc, &mut engine, 0, &mut source, &mut sink);
    Ok(Twice {
        is_broken,
        first: narrow.taken,
        second,
    })
}

// A writer that takes so many bytes, and is told that it takes no more in one of two ways.
fn narrow(sent: Sent, room: usize, is_short: bool) -> Narrow {
    Narrow {
        room,
        at_a_time: if is_short { 7 } else { usize::MAX },
        fails: is_short,
        taken: Vec::new(sent.alloc),
    }
}

// Whether a writer that is too narrow takes the front of the answers, and the lines of one piece are carried out before.
fn is_cut_off(sent: Sent, twice: &Twice, room: usize, whole: &Twice) -> bool {
    let (front, _) = sent.answers.split_at(room.min(sent.answers.len()));
    let is_carried_out = sent.stream.len() > 4096 || twice.second == whole.second;
    twice.is_broken && twice.first.as_slice() == front && is_carried_out
}

/// The first room of a writer that is too narrow, and what it takes is not the front of the answers, or the lines of a
/// stream that is read at once were not carried out before it failed.
pub fn first_wrong_write(sent: Sent) -> Result<Option<usize>, AllocError> {
    let whole = sent_twice(sent, narrow(sent, usize::MAX, false))?;
    for room in (0..sent.answers.len()).step_by(apart(sent.answers.len())) {
        for is_short in [false, true] {
            let twice = sent_twice(sent, narrow(sent, room, is_short))?;
            if !is_cut_off(sent, &twice, room, &whole) {
                return Ok(Some(room));
            }
        }
    }
    Ok(None)
}
