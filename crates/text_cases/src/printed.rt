//! Whether lines stand as `serde_json` prints what it reads of them.

use serde_json::Value;
use std::alloc::Global;
use std::io;
use std::io::Write;

/// Whether `serde_json` prints a text again as it stands.
pub(crate) fn is_printed(alloc: Global, text: &[u8]) -> bool {
    let Ok(value) = Value::from_slice(alloc, text) else {
        return false;
    };
    match value.to_vec(alloc) {
        Ok(printed) => printed.as_slice() == text,
        Err(_) => false,
    }
}

/// The same of a line with its newline.
pub(crate) fn is_line_printed(alloc: Global, line: &[u8]) -> bool {
    match line {
        [text @ .., b'\n'] => is_printed(alloc, text),
        _ => false,
    }
}

/// The lines that `serde_json` prints otherwise than they stand, and how many there are.
pub(crate) fn tell(rt: &HostRuntime, lines: &[Vec<u8>]) -> io::Result<()> {
    let alloc = rt.alloc();
    let mut report = Vec::new(alloc);
    for line in lines {
        if !is_printed(alloc, line) {
            report.extend_from_slice(b"otherwise: ")?;
            report.extend_from_slice(line)?;
            report.push(b'\n')?;
        }
    }
    io::writer(rt).write_all(&report)?;
    let count = lines.len();
    println!(rt; "{count} lines")
}
