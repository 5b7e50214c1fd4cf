//! Journals over writers that fail.

use crate::device::Narrow;
use crate::locks::text_of;
use shared_tables::Journals;
use std::alloc::{AllocError, Global};
use table_engine::{Sink, StreamFault};

/// How many bytes a write takes, at most.
const SIZES: [usize; 2] = [7, usize::MAX];

// Whether a writer takes the front of the text that goes in, and the journals tell where that is not all. After so many
// bytes a write fails, or takes no byte.
fn is_front(
    alloc: Global,
    journals: &Journals,
    text: &[u8],
    (room, at_a_time, fails): (usize, usize, bool),
) -> bool {
    let narrow = Narrow {
        room,
        at_a_time,
        fails,
        taken: Vec::new(alloc),
    };
    let mut sink = Sink::new(narrow);
    let written = journals.write(&mut sink);
    let (wanted, failures) = if room < text.len() {
        (Err(StreamFault::Write), 1)
    } else {
        (Ok(()), 0)
    };
    let front = text.get(..room.min(text.len())).unwrap_or_default();
    written == wanted && sink.failures() == failures && sink.into_inner().taken.as_slice() == front
}

// Whether this is so of writers of one room.
fn are_fronts(alloc: Global, journals: &Journals, text: &[u8], room: usize) -> bool {
    for at_a_time in SIZES {
        for fails in [false, true] {
            if !is_front(alloc, journals, text, (room, at_a_time, fails)) {
                return false;
            }
        }
    }
    true
}

/// The first room of a writer that does not take the front of the journals' text.
pub fn first_wrong_room(alloc: Global, journals: &Journals) -> Result<Option<usize>, AllocError> {
    let text = text_of(alloc, journals)?;
    for room in 0..=text.len() {
        if !are_fronts(alloc, journals, &text, room) {
            return Ok(Some(room));
        }
    }
    Ok(None)
}
