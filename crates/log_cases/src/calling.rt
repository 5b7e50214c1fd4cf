//! Commands that are called on a table with its log.

use crate::report::Report;
use command_lines::{CommandFault, read_command};
use std::alloc::{AllocError, Global};
use table_log::{Disk, LoggedTable, Over};
use table_reply::{Fault, Out};
use table_step::{is_change, refuse};

/// A table with its log, where one is open, and a buffer for what is told.
#[derive(Drop)]
pub struct Caller<D: Disk> {
    alloc: Global,
    pub logged: Option<LoggedTable<D>>,
    out: Out,
}

// Whether a line tells that memory was refused.
fn is_memory(answer: &[u8]) -> bool {
    answer == b"{\"err\":\"memory\"}\n".as_slice()
}

// What a line that is no command is told.
fn fault_of(fault: CommandFault) -> Fault {
    match fault {
        CommandFault::Json => Fault::Json,
        CommandFault::Command => Fault::Command,
        CommandFault::Memory => Fault::Memory,
    }
}

impl<D: Disk> Caller<D> {
    /// No log is open.
    pub fn new(alloc: Global) -> Result<Caller<D>, AllocError> {
        Ok(Caller {
            alloc,
            logged: None,
            out: Out::new(alloc).map_err(|_| AllocError)?,
        })
    }

    /// Calls a command, and once more where memory was refused.
    pub fn call(&mut self, line: &[u8], report: &mut Report) -> Result<(), AllocError> {
        for _ in 0..2 {
            if self.answer(line).is_err() {
                return report.texts(&[b"  over\n"]);
            }
            report.text(b"  ")?;
            report.text(self.out.bytes())?;
            if !is_memory(self.out.bytes()) {
                return Ok(());
            }
        }
        Ok(())
    }

    // Leaves in the buffer what a line is answered.
    fn answer(&mut self, line: &[u8]) -> Result<(), Over> {
        let command = read_command(self.alloc, line);
        let Ok(out) = self.out.emptied();
        match (command, &mut self.logged) {
            (Ok(command), None) => {
                drop(command);
                Err(Over)
            }
            (Ok(command), Some(logged)) => {
                let answered = if is_change(&command) {
                    logged.call(&command, out).end()
                } else {
                    logged.read(&command, out).end()
                };
                drop(command);
                answered
            }
            (Err(fault), _) => {
                refuse(fault_of(fault), out).end();
                Ok(())
            }
        }
    }

    /// Syncs the log.
    pub fn sync(&mut self, report: &mut Report) -> Result<(), AllocError> {
        let synced = match &mut self.logged {
            None => Err(Over),
            Some(logged) => logged.sync(),
        };
        tell_synced(synced, report)
    }

    /// Begins a sync beside the calls.
    pub fn begin(&mut self) {
        if let Some(logged) = &mut self.logged {
            logged.begin_sync();
        }
    }

    /// Ends the sync that was begun.
    pub fn end(&mut self, report: &mut Report) -> Result<(), AllocError> {
        let synced = match &mut self.logged {
            None => Err(Over),
            Some(logged) => logged.end_sync(),
        };
        tell_synced(synced, report)
    }
}

// Adds how a sync ended.
fn tell_synced(synced: Result<(), Over>, report: &mut Report) -> Result<(), AllocError> {
    report.texts(&[match synced {
        Ok(()) => b"  synced\n",
        Err(Over) => b"  over\n",
    }])
}
