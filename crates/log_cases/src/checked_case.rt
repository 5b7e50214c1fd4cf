//! A table with its log over a disk that checks itself.

use crate::calling::Caller;
use crate::report::Report;
use crate::rest::Rest;
use crate::starting::{Checked, Started, Why, files_of, start};
use crate::sweeps::Sweep;
use crate::words::{add_bytes, first_word, number, table_of};
use checked_disk::RecoverWhy;
use checked_log::{Recovered, Refusal};
use std::alloc::{AllocError, Global};
use table_schema::{Schema, TableSpec};

// What a case has so far.
#[derive(Drop)]
struct CheckedCase<'s> {
    alloc: Global,
    spec: &'s TableSpec,
    rest: Rest,
    caller: Caller<Checked>,
}

/// Adds the lines of a case on the schema's table of this name, and below each what it tells.
pub fn tell_checked(
    alloc: Global,
    schema: &Schema,
    name: &[u8],
    lines: &[Vec<u8>],
    report: &mut Report,
) -> Result<(), AllocError> {
    let Some(spec) = table_of(schema, name) else {
        return report.texts(&[b"  no such table\n"]);
    };
    let mut case = CheckedCase {
        alloc,
        spec,
        rest: Rest::new(alloc)?,
        caller: Caller::new(alloc)?,
    };
    for line in lines {
        report.texts(&[line, b"\n"])?;
        case.take(line, report)?;
    }
    Ok(())
}

// Adds why a log is not started.
fn tell_why(why: Why, report: &mut Report) -> Result<(), AllocError> {
    match why {
        Why::Open(why) => report.unopened(why),
        Why::Recover(RecoverWhy::Memory) => report.texts(&[b"  memory\n"]),
        Why::Recover(RecoverWhy::Disk) => report.texts(&[b"  the disk failed\n"]),
        Why::Recover(RecoverWhy::Refused(Refusal::Hurt { whole, durable })) => {
            report.number(b"  hurt: writes ", whole.saturating_add(1), b" to ")?;
            report.number(b"", durable, b"\n")
        }
        Why::Recover(RecoverWhy::Refused(Refusal::Strange { number })) => {
            report.number(b"  the mark of write ", number, b" is of another log\n")
        }
    }
}

// Adds what was found of a log.
fn tell_found(recovered: Recovered, report: &mut Report) -> Result<(), AllocError> {
    report.number(b"  ", recovered.last.number, b" writes, ")?;
    report.number(b"", recovered.durable, b" durable, ")?;
    report.number(b"", recovered.behind.bytes, b" bytes behind with ")?;
    report.number(b"", recovered.behind.lines, b" lines\n")
}

impl CheckedCase<'_> {
    fn take(&mut self, line: &[u8], report: &mut Report) -> Result<(), AllocError> {
        let (verb, text) = first_word(line);
        if add_bytes(verb, text, &mut self.rest.log)? {
            return Ok(());
        }
        match verb {
            b"open" => return self.open(report),
            b"call" => return self.caller.call(text, report),
            b"sync" => return self.caller.sync(report),
            b"begin" => self.caller.begin(),
            b"end" => return self.caller.end(report),
            b"close" => return self.close(report),
            b"ends" | b"holes" | b"flips" | b"lines" => return self.sweep(verb, report),
            b"mark" => self.rest.set_mark(self.alloc, text)?,
            b"syncs" => self.rest.syncs = number(text),
            b"room" => self.rest.room = number(text),
            b"pieces" => self.rest.at_a_time = number(text),
            b"slots" => self.rest.slots = number(text),
            _ => {
                let left = self.rest.log.len().saturating_sub(number(text));
                self.rest.log.truncate(left);
            }
        }
        Ok(())
    }

    // Starts the log, and once more where memory was refused.
    fn open(&mut self, report: &mut Report) -> Result<(), AllocError> {
        for _ in 0..2 {
            let rest = &self.rest;
            let files = rest.files(self.alloc, &rest.log)?;
            match start(self.alloc, self.spec, files) {
                Ok(Started { opened, recovered }) => {
                    self.caller.logged = Some(opened.logged);
                    return tell_found(recovered, report);
                }
                Err(unstarted) => {
                    tell_why(unstarted.why, report)?;
                    if !unstarted.why.is_memory() {
                        self.rest.take_back(unstarted.files);
                        return Ok(());
                    }
                }
            }
        }
        Ok(())
    }

    fn sweep(&mut self, verb: &[u8], report: &mut Report) -> Result<(), AllocError> {
        let mut sweep = Sweep::new(self.alloc, self.spec, &self.rest);
        match verb {
            b"ends" => sweep.ends()?,
            b"holes" => sweep.holes()?,
            b"flips" => sweep.flips()?,
            _ => sweep.lines()?,
        }
        sweep.tell(report)
    }

    // Closes the log, and tells its bytes, and where they were written.
    fn close(&mut self, report: &mut Report) -> Result<(), AllocError> {
        let Some(logged) = self.caller.logged.take() else {
            return report.texts(&[b"  no log\n"]);
        };
        let files = files_of(logged.into_disk());
        let state = &files.log.state;
        report.contents(&state.bytes)?;
        if state.least < state.most {
            report.number(b"  written from ", state.least, b" to ")?;
            report.number(b"", state.most, b"; ")?;
        } else {
            report.text(b"  nothing written; ")?;
        }
        report.number(b"", state.synced, b" bytes are synced, by ")?;
        report.number(b"", state.settles, b" syncs\n")?;
        self.rest.take_back(files);
        Ok(())
    }
}
