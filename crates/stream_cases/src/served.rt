//! A stream over a reader and a writer.

use crate::device::Noted;
use crate::sent::Sent;
use std::alloc::{AllocError, Global};
use table_engine::{Engine, Sink, Source, serve_stream};
use table_schema::Schema;

/// The most bytes that are read at a time.
const PIECE: usize = 4096;

/// Where more bytes of answers than these wait, they are written before a further line is carried out.
const FULL: usize = 65_536;

// Whether the end was told and nothing failed.
fn has_ended<R, W>(source: &Source<R>, sink: &Sink<W>) -> bool {
    source.ends() == 1 && source.failures() == 0 && sink.failures() == 0
}

// What the last of 16 sessions is answered that sends a stream; none where it is not served to its end.
fn served(alloc: Global, schema: &Schema, stream: &[u8]) -> Result<Option<Noted>, AllocError> {
    let mut engine = Engine::new(alloc, schema, 16)?;
    let mut noted = Noted {
        taken: Vec::new(alloc),
        sizes: Vec::new(alloc),
    };
    let mut source = Source::new(stream);
    let mut sink = Sink::new(&mut noted);
    let served = serve_stream(alloc, &mut engine, 15, &mut source, &mut sink);
    let is_whole = served.is_ok() && has_ended(&source, &sink);
    Ok(if is_whole { Some(noted) } else { None })
}

// Whether the answers to a stream that is read at once are written at once.
fn is_at_once(sent: Sent, sizes: &[usize]) -> bool {
    let is_read_at_once = sent.stream.len() <= PIECE && sent.stream.ends_with(b"\n");
    !is_read_at_once || sent.answers.len() > FULL || sizes.len() <= 1
}

/// Whether the answers are the same where the last of 16 sessions sends the stream over a reader, and those to one piece
/// are written at once.
pub fn is_served_alike(sent: Sent) -> Result<bool, AllocError> {
    match served(sent.alloc, sent.schema, sent.stream)? {
        Some(noted) => {
            Ok(noted.taken.as_slice() == sent.answers && is_at_once(sent, &noted.sizes))
        }
        None => Ok(false),
    }
}

/// How many times a line is sent whose answer is long.
const LISTS: usize = 130;

const LIST: &[u8] = b"{\"op\":\"list\",\"t\":\"f\",\"i\":\"q\"}\n";

// A stream of one record with a text of 4,000 bytes, and lines that list it.
fn lists(alloc: Global) -> Result<Vec<u8>, AllocError> {
    let mut stream = Vec::new(alloc);
    stream.extend_from_slice(b"{\"op\":\"insert\",\"t\":\"f\",\"r\":{\"id\":1,\"g\":\"")?;
    for _ in 0..4_000 {
        stream.push(b'x')?;
    }
    stream.extend_from_slice(b"\"}}\n")?;
    for _ in 0..LISTS {
        stream.extend_from_slice(LIST)?;
    }
    Ok(stream)
}

/// Whether the answers to lines of one piece, some of which are long, are written before they are all gathered.
pub fn is_written_early(alloc: Global, schema: &Schema) -> Result<bool, AllocError> {
    let stream = lists(alloc)?;
    let Some(noted) = served(alloc, schema, &stream)? else {
        return Ok(false);
    };
    let lines = noted.taken.iter().filter(|byte| **byte == b'\n').count();
    let is_small = noted.sizes.iter().all(|size| *size <= FULL + PIECE + 512);
    Ok(lines == LISTS + 1 && is_small)
}
