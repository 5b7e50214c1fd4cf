//! Writers that take only so many bytes.

use shared_tables::Journals;
use std::alloc::{AllocError, Global};
use std::io;
use std::io::Write;
use table_engine::{Sink, StreamFault};

// A writer that takes so many bytes, at most seven at a time, and then no more.
#[derive(Drop)]
struct Narrow {
    room: usize,
    taken: Vec<u8>,
}

impl Write for Narrow {
    fn write(&mut self, buf: &[u8]) -> io::Result<usize> {
        let count = buf.len().min(self.room).min(7);
        self.taken.extend_from_slice(&buf[..count])?;
        self.room -= count;
        Ok(count)
    }

    fn flush(&mut self) -> io::Result<()> {
        Ok(())
    }
}

// Whether a writer of this room takes the front of the text that goes in, and the journals say so where it is not all.
fn is_front(
    alloc: Global,
    journals: &Journals,
    text: &[u8],
    room: usize,
) -> Result<bool, AllocError> {
    let mut narrow = Narrow {
        room,
        taken: Vec::new(alloc),
    };
    let written = journals.write(&mut Sink::new(&mut narrow));
    let is_told = if room < text.len() {
        written == Err(StreamFault::Write)
    } else {
        written.is_ok()
    };
    let (front, _) = text.split_at(room.min(text.len()));
    Ok(is_told && narrow.taken.as_slice() == front)
}

/// Whether each writer, however narrow, takes the front of the text that goes in.
pub fn takes_fronts(alloc: Global, journals: &Journals, text: &[u8]) -> Result<bool, AllocError> {
    for room in 0..=text.len() {
        if !is_front(alloc, journals, text, room)? {
            return Ok(false);
        }
    }
    Ok(true)
}
