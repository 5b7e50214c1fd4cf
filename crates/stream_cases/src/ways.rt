//! The ways in which a stream is sent.

use crate::broken::first_wrong_call;
use crate::fault::{Failing, reads_of, writes_of};
use crate::faulty::{first_wrong_read, first_wrong_write};
use crate::input::{Input, Stream};
use crate::interrupted::first_wrong_word;
use crate::journal::first_wrong_room;
use crate::locks::{Locks, journals_after, text_of};
use crate::marks::{Mark, marks_of};
use crate::sent::{Sent, each_answer, first_wrong_cut, first_wrong_piece};
use crate::served::{is_served_alike, is_written_early};
use crate::sessions::are_shared_alike;
use itoa::Buffer;
use std::alloc::{AllocError, Global};
use std::sync::Wait;
use table_schema::Schema;

// The lines, each with a newline.
fn stream_of(alloc: Global, lines: &[Vec<u8>]) -> Result<Vec<u8>, AllocError> {
    let mut stream = Vec::new(alloc);
    for line in lines {
        stream.extend_from_slice(line)?;
        stream.push(b'\n')?;
    }
    Ok(stream)
}

// The answers, one after the other.
fn joined(alloc: Global, each: &[Vec<u8>]) -> Result<Vec<u8>, AllocError> {
    let mut answers = Vec::new(alloc);
    for answer in each {
        answers.extend_from_slice(answer)?;
    }
    Ok(answers)
}

fn tell_way(way: &[u8], wrong: Option<usize>, report: &mut Vec<u8>) -> Result<(), AllocError> {
    report.extend_from_slice(way)?;
    match wrong {
        None => report.extend_from_slice(b": the same answers\n"),
        Some(at) => {
            let mut buffer = Buffer::new();
            report.extend_from_slice(b": other answers at ")?;
            report.extend_from_slice(buffer.format(at).as_bytes())?;
            report.extend_from_slice(b"\n")
        }
    }
}

fn tell_each_way(
    sent: Sent,
    lines: &[Vec<u8>],
    each: &[Vec<u8>],
    report: &mut Vec<u8>,
) -> Result<(), AllocError> {
    tell_way(b"cut in two", first_wrong_cut(sent)?, report)?;
    tell_way(b"in small pieces", first_wrong_piece(sent, false)?, report)?;
    let wrong = first_wrong_piece(sent, true)?;
    tell_way(b"without the last newline", wrong, report)?;
    let wrong = are_shared_alike(sent, lines, each)?;
    tell_way(b"by two sessions", wrong, report)?;
    tell_each_device(sent, report)
}

// Tells the same of ways over a reader and a writer. The place of a stream that is served otherwise without a fault is 0.
fn tell_each_device(sent: Sent, report: &mut Vec<u8>) -> Result<(), AllocError> {
    let wrong = if is_served_alike(sent)? {
        None
    } else {
        Some(0)
    };
    tell_way(b"by the last session", wrong, report)?;
    tell_way(
        b"again after a broken read",
        first_wrong_read(sent)?,
        report,
    )?;
    tell_way(
        b"again after a broken write",
        first_wrong_write(sent)?,
        report,
    )?;
    tell_way(
        b"over interrupted reads and writes",
        first_wrong_word(sent)?,
        report,
    )
}

// Tells the same where each read in turn fails, and the writer after each number of bytes, of an engine and of tables behind
// locks.
fn tell_each_failure(
    rt: &impl Wait,
    sent: Sent,
    marks: &[Mark],
    locks: &Locks<'_>,
    report: &mut Vec<u8>,
) -> Result<(), AllocError> {
    let (reads, writes) = (reads_of(sent)?, writes_of(sent)?);
    let ways: [(&[u8], &[Failing], Option<&Locks<'_>>); 4] = [
        (b"on from each broken read", &reads, None),
        (b"on from each broken write", &writes, None),
        (
            b"on from each broken read, behind locks",
            &reads,
            Some(locks),
        ),
        (
            b"on from each broken write, behind locks",
            &writes,
            Some(locks),
        ),
    ];
    for (way, failings, locks) in ways {
        let wrong = first_wrong_call(rt, sent, marks, failings, locks)?;
        tell_way(way, wrong, report)?;
    }
    Ok(())
}

// Tells what the journals are of a stream behind locks, and whether narrow writers take their front.
fn tell_journals(
    rt: &impl Wait,
    input: &Input,
    sent: Sent,
    report: &mut Vec<u8>,
) -> Result<(), AllocError> {
    let journals = journals_after(rt, sent.alloc, input, sent.stream)?;
    report.extend_from_slice(&text_of(sent.alloc, &journals)?)?;
    report.extend_from_slice(match first_wrong_room(sent.alloc, &journals)? {
        None => b"journals over writers that fail: a front of them\n",
        Some(_) => b"journals over writers that fail: something else\n",
    })
}

/// Adds to the report whether many answers to one piece are written before they are all gathered.
pub fn tell_early(alloc: Global, schema: &Schema, report: &mut Vec<u8>) -> Result<(), AllocError> {
    report.extend_from_slice(if is_written_early(alloc, schema)? {
        b"many answers of one piece: written early\n"
    } else {
        b"many answers of one piece: gathered first\n"
    })
}

/// Adds to the report the answers to a stream, and whether they are the same in whatever way it is sent.
pub fn tell_ways(
    rt: &impl Wait,
    alloc: Global,
    (input, schema): (&Input, &Schema),
    stream: &Stream,
    report: &mut Vec<u8>,
) -> Result<(), AllocError> {
    let each = each_answer(alloc, schema, &stream.lines)?;
    let answers = joined(alloc, &each)?;
    report.extend_from_slice(b"=== ")?;
    report.extend_from_slice(&stream.name)?;
    report.extend_from_slice(b"\n")?;
    report.extend_from_slice(&answers)?;
    let whole = stream_of(alloc, &stream.lines)?;
    let sent = Sent {
        alloc,
        schema,
        stream: &whole,
        answers: &answers,
    };
    tell_each_way(sent, &stream.lines, &each, report)?;
    let marks = marks_of(alloc, &stream.lines, &each)?;
    let locks = Locks::new(rt, sent, input, &marks)?;
    tell_each_failure(rt, sent, &marks, &locks, report)?;
    tell_journals(rt, input, sent, report)
}
