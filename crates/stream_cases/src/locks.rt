//! Streams over tables behind locks, and their journals.

use crate::fault::{Fault, told_by_locks};
use crate::input::Input;
use crate::marks::Mark;
use crate::sent::Sent;
use itoa::Buffer;
use shared_tables::{Journals, OpenGate, Pass, Shared, gather};
use std::alloc::{AllocError, Global};
use std::sync::Wait;
use table_engine::{Sink, Source};

/// What is known of a stream over tables behind locks: after each number of its lines, what the journals tell.
#[derive(Drop)]
pub struct Locks<'a> {
    input: &'a Input,
    journals: Vec<Vec<u8>>,
}

/// Empty tables, with passes of two sessions.
fn tables(alloc: Global, input: &Input) -> Result<(Shared<OpenGate>, Vec<Pass>), AllocError> {
    let schema = input.schema(alloc).map_err(|_| AllocError)?;
    let (shared, passes, _) = Shared::new(alloc, schema, 2, OpenGate)?;
    Ok((shared, passes))
}

/// The journals' text.
pub fn text_of(alloc: Global, journals: &Journals) -> Result<Vec<u8>, AllocError> {
    let mut text = Vec::new(alloc);
    match journals.write(&mut Sink::new(&mut text)) {
        Ok(()) => Ok(text),
        Err(_) => Err(AllocError),
    }
}

// The journals' text, and of each entry the session, its number there and the answer.
fn entries_of(alloc: Global, journals: &Journals) -> Result<Vec<u8>, AllocError> {
    let mut entries = text_of(alloc, journals)?;
    for entry in journals.tables().iter().flatten() {
        entries.extend_from_slice(Buffer::new().format(entry.session()).as_bytes())?;
        entries.push(b' ')?;
        entries.extend_from_slice(Buffer::new().format(entry.serial()).as_bytes())?;
        entries.push(b' ')?;
        entries.extend_from_slice(entry.answer())?;
    }
    Ok(entries)
}

// The journals that the passes gather.
fn gathered(
    alloc: Global,
    shared: Shared<OpenGate>,
    passes: Vec<Pass>,
) -> Result<Journals, AllocError> {
    gather(alloc, shared, passes).map_err(|_| AllocError)
}

/// The journals after a stream that the second session sends.
pub fn journals_after(
    rt: &impl Wait,
    alloc: Global,
    input: &Input,
    stream: &[u8],
) -> Result<Journals, AllocError> {
    let (shared, mut passes) = tables(alloc, input)?;
    let Some(pass) = passes.last_mut() else {
        return Err(AllocError);
    };
    let mut written = Vec::new(alloc);
    let mut source = Source::new(stream);
    let mut sink = Sink::new(&mut written);
    let served = shared.serve(rt, pass, &mut source, &mut sink);
    served.map_err(|_| AllocError)?;
    gathered(alloc, shared, passes)
}

impl Locks<'_> {
    /// What is known of a stream with these places between its lines.
    pub fn new<'a>(
        rt: &impl Wait,
        sent: Sent,
        input: &'a Input,
        marks: &[Mark],
    ) -> Result<Locks<'a>, AllocError> {
        let alloc = sent.alloc;
        let mut journals = Vec::new(alloc);
        for mark in marks {
            let front = sent.stream.get(..mark.bytes).unwrap_or_default();
            let after = journals_after(rt, alloc, input, front)?;
            journals.push(entries_of(alloc, &after)?)?;
        }
        Ok(Locks { input, journals })
    }

    // Whether the passes gather, and the journals tell of the first lines, so many, and of nothing else.
    fn is_gathered(
        &self,
        alloc: Global,
        shared: Shared<OpenGate>,
        passes: Vec<Pass>,
        lines: usize,
    ) -> Result<bool, AllocError> {
        let Ok(journals) = gather(alloc, shared, passes) else {
            return Ok(false);
        };
        let entries = entries_of(alloc, &journals)?;
        Ok(match self.journals.get(lines) {
            Some(wanted) => *wanted == entries,
            None => false,
        })
    }

    // Whether the fault is told, and the journals are then those of the lines that were carried out.
    fn is_kept(&self, rt: &impl Wait, fault: Fault) -> Result<bool, AllocError> {
        let alloc = fault.sent.alloc;
        let (shared, mut passes) = tables(alloc, self.input)?;
        let Some(pass) = passes.last_mut() else {
            return Ok(false);
        };
        let mut source = Source::new(fault.reader());
        let mut sink = Sink::new(fault.writer());
        let served = shared.serve(rt, pass, &mut source, &mut sink);
        let is_told = fault.is_told(told_by_locks(served), &source, sink);
        Ok(is_told && self.is_gathered(alloc, shared, passes, fault.mark().lines)?)
    }

    /// Whether the fault is told, the journals are then those of the lines that were carried out, and the same pass serves
    /// the rest of the stream, from the next line on, as if nothing had failed.
    pub fn is_served_on(&self, rt: &impl Wait, fault: Fault) -> Result<bool, AllocError> {
        let alloc = fault.sent.alloc;
        let (shared, mut passes) = tables(alloc, self.input)?;
        let Some(pass) = passes.last_mut() else {
            return Ok(false);
        };
        let mut source = Source::new(fault.reader());
        let mut sink = Sink::new(fault.writer());
        let first = shared.serve(rt, pass, &mut source, &mut sink);
        let is_told = fault.is_told(told_by_locks(first), &source, sink);
        let mut written = Vec::new(alloc);
        let mut source = Source::new(fault.rest());
        let mut sink = Sink::new(&mut written);
        let second = shared.serve(rt, pass, &mut source, &mut sink);
        let is_whole = second.is_ok() && written.as_slice() == fault.rest_of_answers();
        let all = self.journals.len().saturating_sub(1);
        Ok(
            is_told
                && is_whole
                && self.is_gathered(alloc, shared, passes, all)?
                && self.is_kept(rt, fault)?,
        )
    }
}
