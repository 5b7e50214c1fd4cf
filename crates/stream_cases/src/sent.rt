//! A stream of one session, sent in pieces.
ghost use Rattle.std.specs.Prelude.{◌<◌};

use crate::buffers::new_out;
use std::alloc::{AllocError, Global};
use table_engine::Engine;
use table_reply::Out;
use table_schema::Schema;

/// The longest stream or answers that are cut at every place.
const MAX_CUT: usize = 2048;

/// A stream on a schema, and the answers to it.
#[derive(Clone, Copy)]
pub struct Sent<'a> {
    pub alloc: Global,
    pub schema: &'a Schema,
    pub stream: &'a [u8],
    pub answers: &'a [u8],
}

impl Sent<'_> {
    /// How far apart the places are at which the stream is cut.
    pub fn stride(&self) -> usize
        ensures { 0 < result }
    {
        apart(self.stream.len())
    }
}

/// How far apart the places are at which so many bytes are cut: one byte where there are up to 2,048, and else so far that
/// there are at most 32.
pub fn apart(places: usize) -> usize
    ensures { 0 < result }
{
    if places <= MAX_CUT {
        1
    } else {
        places / 32 + 1
    }
}

/// What the one session of a new engine is answered that sends whole lines in one piece.
pub fn at_once(alloc: Global, schema: &Schema, lines: &[u8]) -> Result<Out, AllocError> {
    let mut engine = Engine::new(alloc, schema, 1)?;
    let mut out = new_out(alloc)?;
    engine.feed(0, lines, &mut out).map_err(|_| AllocError)?;
    Ok(out)
}

// What the one session of a new engine is answered, where its stream comes as a first piece of so many bytes, and then
// in pieces of another length.
fn answered(sent: Sent, stream: &[u8], first: usize, then: usize) -> Result<Out, AllocError> {
    let alloc = sent.alloc;
    let mut engine = Engine::new(alloc, sent.schema, 1)?;
    let mut out = new_out(alloc)?;
    let (front, back) = stream.split_at(first.min(stream.len()));
    engine.feed(0, front, &mut out).map_err(|_| AllocError)?;
    for piece in back.chunks(then.max(1)) {
        engine.feed(0, piece, &mut out).map_err(|_| AllocError)?;
    }
    engine.finish(0, &mut out).map_err(|_| AllocError)?;
    Ok(out)
}

/// The first place at which the stream is cut in two, and answered otherwise.
pub fn first_wrong_cut(sent: Sent) -> Result<Option<usize>, AllocError> {
    for at in (0..sent.stream.len()).step_by(sent.stride()) {
        let out = answered(sent, sent.stream, at, sent.stream.len())?;
        if out.bytes() != sent.answers {
            return Ok(Some(at));
        }
    }
    Ok(None)
}

/// The first length of pieces that are answered otherwise. With `is_ended` the last newline is not sent.
pub fn first_wrong_piece(sent: Sent, is_ended: bool) -> Result<Option<usize>, AllocError> {
    let whole = sent.stream;
    let stream = if is_ended {
        whole.strip_suffix(b"\n").unwrap_or(whole)
    } else {
        whole
    };
    for length in [1, 2, 1000] {
        let out = answered(sent, stream, 0, length)?;
        if out.bytes() != sent.answers {
            return Ok(Some(length));
        }
    }
    Ok(None)
}

/// What the one session of a new engine is answered to each line that it sends.
pub fn each_answer(
    alloc: Global,
    schema: &Schema,
    lines: &[Vec<u8>],
) -> Result<Vec<Vec<u8>>, AllocError> {
    let mut engine = Engine::new(alloc, schema, 1)?;
    let mut answers = Vec::new(alloc);
    for line in lines {
        let mut out = new_out(alloc)?;
        engine.feed(0, line, &mut out).map_err(|_| AllocError)?;
        engine.feed(0, b"\n", &mut out).map_err(|_| AllocError)?;
        answers.push(out.bytes().to_vec(alloc)?)?;
    }
    Ok(answers)
}
