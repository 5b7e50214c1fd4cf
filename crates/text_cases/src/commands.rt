//! The canonical text of the command on each line, or why the line is none. Where that text, read again, is written otherwise,
//! it says so; and where a copy of the command is another command, or the last one before it is the same though its text is not.

use crate::buffers::new_out;
use crate::printed::is_printed;
use command_lines::{CommandFault, read_command};
use command_text::{Command, Out, write_command};
use std::alloc::{AllocError, Global};
use std::io;
use std::io::Write;

/// The canonical text of a command.
pub(crate) fn written(alloc: Global, command: &Command) -> Result<Out, AllocError> {
    let mut text = new_out(alloc)?;
    match write_command(alloc, command, &mut text) {
        Ok(()) => Ok(text),
        Err(_) => Err(AllocError),
    }
}

// Whether this is the canonical text of a command.
fn is_written(alloc: Global, command: &Command, text: &[u8]) -> bool {
    match written(alloc, command) {
        Ok(written) => written.bytes() == text,
        Err(_) => false,
    }
}

// Whether a text is read as a command that is written as this text.
fn stays(alloc: Global, text: &[u8]) -> bool {
    let Ok(command) = read_command(alloc, text) else {
        return false;
    };
    let is_so = is_written(alloc, &command, text);
    drop(command);
    is_so
}

// Whether two commands are the same, whichever is asked.
fn are_same(a: &Command, b: &Command) -> bool {
    a.is_same(b) && b.is_same(a)
}

// Whether a copy of the command is the same command, and written as it is.
fn is_copied(alloc: Global, command: &Command, text: &[u8]) -> bool {
    let Ok(copy) = command.copy() else {
        return false;
    };
    let is_so = are_same(command, &copy) & is_written(alloc, &copy, text);
    drop(copy);
    is_so
}

// Whether a command and the one of another line, if it has one, are the same exactly where their texts are.
fn is_told_apart(alloc: Global, command: &Command, text: &[u8], line: &[u8]) -> bool {
    let Ok(other) = read_command(alloc, line) else {
        return true;
    };
    let is_so = command.is_same(&other) == is_written(alloc, &other, text);
    drop(other);
    is_so
}

/// The fault of a line, in a word.
pub(crate) fn name_of(fault: CommandFault) -> &'static str {
    match fault {
        CommandFault::Json => "json",
        CommandFault::Command => "command",
        CommandFault::Memory => "memory",
    }
}

// Adds the text of a command, and what is told of it.
fn tell_text(
    alloc: Global,
    command: &Command,
    text: &[u8],
    before: &[u8],
    report: &mut Vec<u8>,
) -> Result<(), AllocError> {
    report.extend_from_slice(text)?;
    if !is_printed(alloc, text) {
        report.extend_from_slice(b" is printed otherwise")?;
    }
    if !stays(alloc, text) {
        report.extend_from_slice(b" is written otherwise")?;
    }
    if !is_copied(alloc, command, text) {
        report.extend_from_slice(b" is copied as another")?;
    }
    if !is_told_apart(alloc, command, text, before) {
        report.extend_from_slice(b" is the command before")?;
    }
    Ok(())
}

// Adds what is printed for a command.
fn tell_command(
    alloc: Global,
    command: &Command,
    before: &[u8],
    report: &mut Vec<u8>,
) -> Result<(), AllocError> {
    let text = written(alloc, command)?;
    tell_text(alloc, command, text.bytes(), before, report)
}

// Adds what is printed for a line, and says whether it is a command.
fn tell_line(
    alloc: Global,
    line: &[u8],
    before: &[u8],
    report: &mut Vec<u8>,
) -> Result<bool, AllocError> {
    match read_command(alloc, line) {
        Ok(command) => {
            let told = tell_command(alloc, &command, before, report);
            drop(command);
            told.map(|()| true)
        }
        Err(fault) => report
            .extend_from_slice(name_of(fault).as_bytes())
            .map(|()| false),
    }
}

/// What each line is. (The command before is read again, so that none is kept.)
pub(crate) fn tell(rt: &HostRuntime, lines: &[Vec<u8>]) -> io::Result<()> {
    let alloc = rt.alloc();
    let mut report = Vec::new(alloc);
    let mut before: &[u8] = &[];
    for line in lines {
        if tell_line(alloc, line, before, &mut report)? {
            before = line;
        }
        report.push(b'\n')?;
    }
    io::writer(rt).write_all(&report)
}
