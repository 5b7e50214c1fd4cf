//! Connections that are served, and the journals that are kept of them.
ghost use Rattle.std.specs.Prelude.{◌≡◌, ◌≢◌, ◌⊎◌, IfErr, OnOk, option_map};
ghost use Rattle.table_engine.specs.Devices.{AppendsFront};
ghost use Rattle.table_server.specs.Fault.{status_of};
ghost use Rattle.table_server.specs.Keeping.{IsUncompared, Keeps, KeepsAfter, later_of};
ghost use Rattle.table_server.specs.Serving.{IsUntold, Served, announcement};

use crate::fault::Fault;
use crate::journal::{Journal, begin, write};
use crate::opens::{Listens, Makes, Opens};
use crate::program::schema_of;
use program_words::Address;
use shared_tables::{Gate, GatherFault, GatherWhy, OpenGate, Pass, Shared, gather};
use std::alloc::Global;
use std::io::{ErrorKind, Write};
use std::sync::Wait;
use std::thread::Threads;
use table_engine::Sink;
use table_sockets::{Done, End, serve_on};

/// What connections are served by.
#[derive(Clone, Copy)]
pub struct Serving<'a> {
    pub schema: &'a str,
    pub listen: Address<'a>,
    pub workers: u32,
    pub each: u32,
    pub journal: Option<&'a str>,
}

/// Serves connections until all threads have served theirs, and keeps the journals. Schema, address, the journal's path and
/// output come in this order, and the first fault among them ends it. Of the faults that come later the one of the greatest
/// status is answered.
#[tactic(auto, using(crate::proofs::Passes::fresh_count))]
pub fn serve_connections<
    R: AllocGlobal + Opens + Listens + Threads + Wait + Sync,
    M: Makes,
    O: Write,
>(rt: &R, files: &mut M, serving: &Serving<'_>, output: &mut Sink<O>) -> Result<(), Fault>
    ensures done { OnOk result (Served (R.is_at rt.now) R.Opened.remaining M.known M.Made.contents (R.is_listening rt.now) R.Listener.known
        serving.now.schema.now serving.now.listen serving.now.workers serving.now.each (option_map (λ s. s.now) serving.now.journal)
        files.old files.new (O.contents output.old.inner) (O.contents output.new.inner) End.Fine result) }
    ensures ends { IsUntold M.known O.contents serving.now.schema.now (option_map (λ s. s.now) serving.now.journal) files.old files.new output.old output.new result
        ⊎ ((end : End) × Served (R.is_at rt.now) R.Opened.remaining M.known M.Made.contents (R.is_listening rt.now) R.Listener.known
        serving.now.schema.now serving.now.listen serving.now.workers serving.now.each (option_map (λ s. s.now) serving.now.journal)
        files.old files.new (O.contents output.old.inner) (O.contents output.new.inner) end result) }
    ensures announces { AppendsFront (O.contents output.old.inner) (O.contents output.new.inner) announcement }
    ensures fault { IfErr result (λ fault. status_of fault ≢ 2) }
{
    let schema = schema_of(rt, Some(serving.schema))?;
    let (shared, passes, _) = Shared::new(rt.alloc(), schema, serving.workers, OpenGate)?;
    let listening = match rt.listen(serving.listen) {
        Ok(listening) => listening,
        Err(error) if error.kind() == ErrorKind::OutOfMemory => return Err(Fault::Memory),
        Err(_) => return Err(Fault::Listen),
    };
    let journal = begin(files, serving.journal, serving.schema)?;
    if output.write_all(b"listening\n").is_err() {
        return Err(Fault::Write);
    }
    let done = serve_on(rt, listening, shared, passes, serving.each);
    keep_done(rt.alloc(), files, done, journal)
}

/// Keeps the journals, but where a pass and a journal did not fit: there nothing comes of what was begun.
fn keep_done<M: Makes, G: Gate + Drop>(
    alloc: Global,
    files: &mut M,
    done: Done<G>,
    journal: Option<Journal<'_, M::Begun>>,
) -> Result<(), Fault>
    ensures kept { KeepsAfter M.known M.Made.contents (option_map (λ j. record { path = j.path.now; begun = j.begun }) journal.entry)
        done.shared.schema done.shared.workers done.passes.items files.old files.new done.end result }
    ensures fine { OnOk result (done.end ≡ End.Fine) }
    ensures fault { IfErr result (λ fault. (status_of fault ≡ 1) ⊎ (status_of fault ≡ 4)) }
{
    let Done {
        shared,
        passes,
        end,
    } = done;
    match end {
        End::Fine => keep(alloc, files, shared, passes, journal),
        End::Memory => later(Fault::Memory, keep(alloc, files, shared, passes, journal)),
        End::Listen => later(Fault::Listen, keep(alloc, files, shared, passes, journal)),
        End::Mismatch => Err(Fault::Mismatch),
    }
}

/// The fault of the greater status, and of equals the first.
fn later(first: Fault, second: Result<(), Fault>) -> Result<(), Fault>
    ensures { result ≡ later_of first second }
{
    match second {
        Err(second) if second.status() > first.status() => Err(second),
        _ => Err(first),
    }
}

/// Gathers the journals, and writes them to the file of a path, if there is one.
fn keep<M: Makes, G: Gate + Drop>(
    alloc: Global,
    files: &mut M,
    shared: Shared<G>,
    passes: Vec<Pass>,
    journal: Option<Journal<'_, M::Begun>>,
) -> Result<(), Fault>
    ensures { Keeps M.known M.Made.contents (option_map (λ j. record { path = j.path.now; begun = j.begun }) journal.entry)
        shared.schema shared.workers passes.items files.old files.new result }
{
    match gather(alloc, shared, passes) {
        Ok(journals) => match journal {
            None => Ok(()),
            Some(journal) => write(files, &journals, journal),
        },
        Err(fault) => Err(not_gathered(files, fault, journal)),
    }
}

/// The fault of journals that are not gathered. Where memory was refused before they were compared they are written as they
/// stand, as far as that succeeds. Where they can't be taken as they stand, the tables are not those of the schema: that is a mismatch.
fn not_gathered<M: Makes, G: Gate + Drop>(
    files: &mut M,
    fault: GatherFault<G>,
    journal: Option<Journal<'_, M::Begun>>,
) -> Fault
    ensures mismatch { (fault.why ≢ GatherWhy.Memory) → result ≡ Fault.Mismatch }
    ensures memory { result ≡ Fault.Memory → fault.why ≡ GatherWhy.Memory }
    ensures ends { ((result ≡ Fault.Mismatch) × (files.new ≡ files.old))
        ⊎ ((result ≡ Fault.Memory) × IsUncompared M.known M.Made.contents (option_map (λ j. record { path = j.path.now; begun = j.begun }) journal.entry)
        fault.shared.schema fault.shared.workers files.old files.new) }
{
    let Ok(journals) = fault.into_uncompared() else {
        return Fault::Mismatch;
    };
    if let Some(journal) = journal {
        let _ = write(files, &journals, journal);
    }
    Fault::Memory
}
