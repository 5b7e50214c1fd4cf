//! A stream of which one read or one write fails, and what has to be told then.
ghost use Rattle.std.specs.Prelude.{◌<◌};

use crate::device::{Broken, Narrow};
use crate::marks::{Mark, mark_at, mark_beyond};
use crate::sent::Sent;
use shared_tables::ServeFault;
use std::alloc::AllocError;
use table_engine::{Sink, Source, StreamFault};

/// The longest stream or answers of which a call fails after each byte.
const MAX_EACH: usize = 256;

/// The call that fails.
#[derive(Clone, Copy)]
pub enum Failing {
    /// The read after so many bytes.
    Read(usize),
    /// The write after so many bytes, by an error.
    Write(usize),
    /// The write after so many bytes, which takes none.
    Full(usize),
}

/// What is told of a stream.
#[derive(Clone, Copy, PartialEq, Eq)]
pub enum Told {
    /// It was served to its end.
    Whole,
    Read,
    Write,
    /// Memory was refused, or a call.
    Other,
}

/// A stream whose reads give so many bytes at a time, and the call that fails.
#[derive(Clone, Copy)]
pub struct Fault<'a> {
    pub sent: Sent<'a>,
    pub marks: &'a [Mark],
    pub at_a_time: usize,
    pub failing: Failing,
}

/// What an engine tells of a stream.
pub fn told_by_engine(served: Result<(), StreamFault>) -> Told {
    match served {
        Ok(()) => Told::Whole,
        Err(StreamFault::Read) => Told::Read,
        Err(StreamFault::Write) => Told::Write,
        Err(StreamFault::Memory) => Told::Other,
    }
}

/// What tables behind locks tell of a stream.
pub fn told_by_locks(served: Result<(), ServeFault>) -> Told {
    match served {
        Ok(()) => Told::Whole,
        Err(ServeFault::Read) => Told::Read,
        Err(ServeFault::Write) => Told::Write,
        Err(ServeFault::Memory | ServeFault::Call(_)) => Told::Other,
    }
}

// How far apart the places are at which a call fails: one byte where there are up to 256, and else so far that there are at
// most 32.
fn apart(places: usize) -> usize
    ensures { 0 < result }
{
    if places <= MAX_EACH {
        1
    } else {
        places / 32 + 1
    }
}

/// The reads of a stream that fail: the first, that of the end, and those between.
pub fn reads_of(sent: Sent) -> Result<Vec<Failing>, AllocError> {
    let length = sent.stream.len();
    let mut reads = Vec::new(sent.alloc);
    for at in (0..length).step_by(apart(length)) {
        reads.push(Failing::Read(at))?;
    }
    reads.push(Failing::Read(length))?;
    Ok(reads)
}

/// The writes of a stream's answers that fail, in both ways.
pub fn writes_of(sent: Sent) -> Result<Vec<Failing>, AllocError> {
    let length = sent.answers.len();
    let mut writes = Vec::new(sent.alloc);
    for room in (0..length).step_by(apart(length)) {
        writes.push(Failing::Write(room))?;
        writes.push(Failing::Full(room))?;
    }
    Ok(writes)
}

impl Fault<'_> {
    /// The reader of the stream.
    pub fn reader(&self) -> Broken<'_> {
        let stream = self.sent.stream;
        let (length, fails) = match self.failing {
            Failing::Read(at) => (at, true),
            Failing::Write(_) | Failing::Full(_) => (stream.len(), false),
        };
        Broken {
            rest: stream.get(..length).unwrap_or_default(),
            at_a_time: self.at_a_time,
            fails,
        }
    }

    /// The writer of the answers.
    pub fn writer(&self) -> Narrow {
        let (room, at_a_time, fails) = match self.failing {
            Failing::Read(_) => (usize::MAX, usize::MAX, false),
            Failing::Write(room) => (room, usize::MAX, true),
            Failing::Full(room) => (room, 7, false),
        };
        Narrow {
            room,
            at_a_time,
            fails,
            taken: Vec::new(self.sent.alloc),
        }
    }

    // How many bytes are read: up to the read that fails, or in all reads up to the end of the first line whose answer does
    // not go in.
    fn bytes(&self) -> usize {
        match self.failing {
            Failing::Read(at) => at,
            Failing::Write(room) | Failing::Full(room) => {
                let size = self.at_a_time.max(1);
                let reads = mark_beyond(self.marks, room).bytes.div_ceil(size);
                reads.saturating_mul(size).min(self.sent.stream.len())
            }
        }
    }

    /// The place behind the last line that is carried out.
    pub fn mark(&self) -> Mark {
        mark_at(self.marks, self.bytes())
    }

    /// The stream from that place on.
    pub fn rest(&self) -> &[u8] {
        let stream = self.sent.stream;
        stream.get(self.mark().bytes..).unwrap_or_default()
    }

    /// The answers from that place on.
    pub fn rest_of_answers(&self) -> &[u8] {
        let answers = self.sent.answers;
        answers.get(self.mark().answers..).unwrap_or_default()
    }

    // What the writer has to take: the answers to all lines that are carried out, or what goes in of them.
    fn front(&self) -> &[u8] {
        let length = match self.failing {
            Failing::Read(_) => self.mark().answers,
            Failing::Write(room) | Failing::Full(room) => room,
        };
        self.sent.answers.get(..length).unwrap_or_default()
    }

    // How many reads fail, and how many writes.
    fn failures(&self) -> (u64, u64) {
        match self.failing {
            Failing::Read(_) => (1, 0),
            Failing::Write(_) | Failing::Full(_) => (0, 1),
        }
    }

    /// Whether the call that failed is told, none was made after it, and the writer took what it had to take.
    pub fn is_told(&self, told: Told, source: &Source<Broken<'_>>, sink: Sink<Narrow>) -> bool {
        let (reads, writes) = self.failures();
        let wanted = if reads == 1 { Told::Read } else { Told::Write };
        let pieces = self.bytes().div_ceil(self.at_a_time.max(1)) as u64;
        let is_counted = source.reads() == pieces.saturating_add(reads)
            && source.failures() == reads
            && source.ends() == 0
            && sink.failures() == writes;
        is_counted && told == wanted && sink.into_inner().taken.as_slice() == self.front()
    }
}
