//! Places between the lines of a stream.

use std::alloc::{AllocError, Global};

/// A place between two lines of a stream: how many lines stand before it, in how many bytes, and how many bytes of answers
/// they have.
#[derive(Clone, Copy)]
pub struct Mark {
    pub lines: usize,
    pub bytes: usize,
    pub answers: usize,
}

/// The place before the first line.
const START: Mark = Mark {
    lines: 0,
    bytes: 0,
    answers: 0,
};

/// The place before the first line, and that behind each line.
pub fn marks_of(
    alloc: Global,
    lines: &[Vec<u8>],
    each: &[Vec<u8>],
) -> Result<Vec<Mark>, AllocError> {
    let mut mark = START;
    let mut marks = Vec::new(alloc);
    marks.push(mark)?;
    for (line, answer) in lines.iter().zip(each) {
        mark = Mark {
            lines: mark.lines.saturating_add(1),
            bytes: mark.bytes.saturating_add(line.len()).saturating_add(1),
            answers: mark.answers.saturating_add(answer.len()),
        };
        marks.push(mark)?;
    }
    Ok(marks)
}

/// The last place up to which so many bytes of the stream reach.
pub fn mark_at(marks: &[Mark], bytes: usize) -> Mark {
    let mut last = START;
    for mark in marks {
        if mark.bytes <= bytes {
            last = *mark;
        }
    }
    last
}

/// The first place up to which there are more bytes of answers than these.
pub fn mark_beyond(marks: &[Mark], answers: usize) -> Mark {
    for mark in marks {
        if mark.answers > answers {
            return *mark;
        }
    }
    START
}
