//! Lines that are served as one stream.

use crate::report::Report;
use crate::sending::Holder;
use crate::told::tell_fault;
use shared_tables::{OpenGate, ServeFault, Shared};
use std::alloc::{AllocError, Global};
use std::sync::Wait;
use table_engine::{Sink, Source};

// The lines, with a newline between them and none behind the last.
fn stream_of(alloc: Global, lines: &[Vec<u8>]) -> Result<Vec<u8>, AllocError> {
    let mut stream = Vec::new(alloc);
    for line in lines {
        if !stream.is_empty() {
            stream.push(b'\n')?;
        }
        stream.extend_from_slice(line)?;
    }
    Ok(stream)
}

/// Serves what was kept for a pass as one stream, whose last line no newline ends.
pub fn serve_kept(
    alloc: Global,
    rt: &impl Wait,
    shared: &Shared<OpenGate>,
    holder: &mut Holder,
    report: &mut Report,
) -> Result<(), AllocError> {
    let stream = stream_of(alloc, &holder.kept)?;
    let mut answers = Vec::new(alloc);
    let mut source = Source::new(stream.as_slice());
    let mut sink = Sink::new(&mut answers);
    let served = shared.serve(rt, &mut holder.pass, &mut source, &mut sink);
    holder.kept.clear();
    report.push(&answers)?;
    match served {
        Ok(()) => Ok(()),
        Err(ServeFault::Call(fault)) => tell_fault(fault, report),
        Err(ServeFault::Read) => report.text("  read\n"),
        Err(ServeFault::Write) => report.text("  write\n"),
        Err(ServeFault::Memory) => report.text("  memory\n"),
    }
}
