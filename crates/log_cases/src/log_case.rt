//! A table with its log over a disk in memory.

use crate::calling::Caller;
use crate::opening::open;
use crate::report::Report;
use crate::words::{add_bytes, first_word, number, table_of};
use std::alloc::{AllocError, Global};
use std::mem::replace;
use table_log::{Mark, MemoryDisk, OpenWhy};
use table_schema::Schema;

// What a case has so far.
#[derive(Drop)]
struct LogCase<'s> {
    alloc: Global,
    schema: &'s Schema,
    bytes: Vec<u8>,
    caller: Caller<MemoryDisk>,
    mark: Option<Mark>,
}

/// Adds the lines of a case, and below each what it tells.
pub fn tell_log(
    alloc: Global,
    schema: &Schema,
    lines: &[Vec<u8>],
    report: &mut Report,
) -> Result<(), AllocError> {
    let mut case = LogCase {
        alloc,
        schema,
        bytes: Vec::new(alloc),
        caller: Caller::new(alloc)?,
        mark: None,
    };
    for line in lines {
        report.texts(&[line, b"\n"])?;
        case.take(line, report)?;
    }
    Ok(())
}

impl LogCase<'_> {
    fn take(&mut self, line: &[u8], report: &mut Report) -> Result<(), AllocError> {
        let (verb, text) = first_word(line);
        if add_bytes(verb, text, &mut self.bytes)? {
            return Ok(());
        }
        match verb {
            b"open" => self.open(text, report),
            b"call" => self.caller.call(text, report),
            b"sync" => self.caller.sync(report),
            b"mark" => {
                self.mark = self.caller.logged.as_ref().map(|logged| logged.mark());
                Ok(())
            }
            b"reached" => self.reached(report),
            _ => self.close(report),
        }
    }

    fn open(&mut self, words: &[u8], report: &mut Report) -> Result<(), AllocError> {
        let (name, room) = first_word(words);
        let Some(spec) = table_of(self.schema, name) else {
            return report.texts(&[b"  no such table\n"]);
        };
        let bytes = replace(&mut self.bytes, Vec::new(self.alloc));
        let mut disk = MemoryDisk::new(bytes, number(room));
        for _ in 0..2 {
            match open(self.alloc, spec, disk) {
                Ok(opened) => {
                    report.texts(&[b"  ", opened.logged.name().as_bytes()])?;
                    report.number(b", ", opened.torn, b" bytes were cut off\n")?;
                    self.caller.logged = Some(opened.logged);
                    return Ok(());
                }
                Err(fault) => {
                    report.unopened(fault.why)?;
                    disk = fault.disk;
                    if fault.why != OpenWhy::Memory {
                        return report.contents(disk.bytes());
                    }
                }
            }
        }
        Ok(())
    }

    fn reached(&self, report: &mut Report) -> Result<(), AllocError> {
        let is_reached = match (&self.caller.logged, self.mark) {
            (Some(logged), Some(mark)) => logged.is_synced(mark),
            _ => false,
        };
        report.texts(&[if is_reached { b"  yes\n" } else { b"  no\n" }])
    }

    fn close(&mut self, report: &mut Report) -> Result<(), AllocError> {
        match self.caller.logged.take() {
            None => report.texts(&[b"  no log\n"]),
            Some(logged) => report.contents(logged.into_disk().bytes()),
        }
    }
}
