//! A stream's lines, sent by two sessions.
ghost use Rattle.std.specs.Prelude.{◌≡◌, ◌<◌, length};

use crate::buffers::new_out;
use crate::sent::Sent;
use std::alloc::{AllocError, Global};
use table_engine::{Engine, Event, run_events};
use table_reply::Out;

// Sends bytes of one session.
fn send(
    engine: &mut Engine,
    outs: &mut [Out],
    session: usize,
    bytes: &[u8],
) -> Result<(), AllocError>
    requires one_out_each { length outs.old ≡ length engine.old.unfinished }
    requires session { session < length outs.old }
    ensures sessions { length engine.new.unfinished ≡ length engine.old.unfinished }
    ensures outs { length outs.new ≡ length outs.old }
{
    let events = [Event::Piece { session, bytes }];
    run_events(engine, &events, outs).map_err(|_| AllocError)
}

// The byte at a place of a line, if it has one there.
fn byte_at(line: &[u8], at: usize) -> &[u8] {
    if at < line.len() {
        &line[at..at + 1]
    } else {
        &[]
    }
}

// Sends two lines byte by byte, one of each session in turn, and then their newlines.
fn send_both(
    engine: &mut Engine,
    outs: &mut [Out],
    first: &[u8],
    second: &[u8],
) -> Result<(), AllocError>
    requires { (length outs.old ≡ 2) × (length engine.old.unfinished ≡ 2) }
    ensures { (length outs.new ≡ 2) × (length engine.new.unfinished ≡ 2) }
{
    for at in 0..first.len().max(second.len()) {
        send(engine, outs, 0, byte_at(first, at))?;
        send(engine, outs, 1, byte_at(second, at))?;
    }
    send(engine, outs, 0, b"\n")?;
    send(engine, outs, 1, b"\n")
}

// Every second of the answers, from a place on.
fn every_other(alloc: Global, each: &[Vec<u8>], from: usize) -> Result<Vec<u8>, AllocError> {
    let mut answers = Vec::new(alloc);
    for answer in each.iter().skip(from).step_by(2) {
        answers.extend_from_slice(answer)?;
    }
    Ok(answers)
}

/// The lines are sent by two sessions in turn, each line together with the next, byte by byte. Gives the number of a session
/// that is answered otherwise.
pub fn are_shared_alike(
    sent: Sent,
    lines: &[Vec<u8>],
    each: &[Vec<u8>],
) -> Result<Option<usize>, AllocError> {
    let alloc = sent.alloc;
    let mut engine = Engine::new(alloc, sent.schema, 2)?;
    let mut outs = [new_out(alloc)?, new_out(alloc)?];
    for pair in lines.chunks(2) {
        match pair {
            [first, second] => send_both(&mut engine, &mut outs, first, second)?,
            [only] => send_both(&mut engine, &mut outs, only, b"")?,
            _ => {}
        }
    }
    if outs[0].bytes() != every_other(alloc, each, 0)?.as_slice() {
        return Ok(Some(0));
    }
    if outs[1].bytes() != every_other(alloc, each, 1)?.as_slice() {
        return Ok(Some(1));
    }
    Ok(None)
}
