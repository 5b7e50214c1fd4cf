//! Writes journals.

ghost use Rattle.std.specs.Prelude.{◌≡◌, Err, OnErr, OnOk, map};
ghost use Rattle.std.specs.Io.KnownBytes.{Appends};
ghost use Rattle.table_engine.specs.Devices.{AppendsFront, failures_after_stream};
ghost use Rattle.shared_tables.specs.Text.{entry_line, journal_text, journals_text};

use crate::entry::Entry;
use std::io::Write;
use table_engine::{Sink, StreamFault};

// Writes the line of an entry.
fn write_entry<W: Write>(entry: &Entry, sink: &mut Sink<W>) -> Result<(), StreamFault>
    ensures written { OnOk result (Appends (W.contents sink.old.inner) (W.contents sink.new.inner) (entry_line entry.now)) }
    ensures front { OnErr result (AppendsFront (W.contents sink.old.inner) (W.contents sink.new.inner) (entry_line entry.now)) }
    ensures no_read { result ≡ Err StreamFault.Read → ⊥ }
    ensures write_cause { sink.new.failures ≡ failures_after_stream result sink.old.failures }
    ensures no_memory { result ≡ Err StreamFault.Memory → ⊥ }
{
    if sink.write_all(entry.line()).is_err() {
        return Err(StreamFault::Write);
    }
    Ok(())
}

// Writes the lines of a journal.
fn write_journal<W: Write>(journal: &[Entry], sink: &mut Sink<W>) -> Result<(), StreamFault>
    ensures written { OnOk result (Appends (W.contents sink.old.inner) (W.contents sink.new.inner) (journal_text journal.now)) }
    ensures front { OnErr result (AppendsFront (W.contents sink.old.inner) (W.contents sink.new.inner) (journal_text journal.now)) }
    ensures no_read { result ≡ Err StreamFault.Read → ⊥ }
    ensures write_cause { sink.new.failures ≡ failures_after_stream result sink.old.failures }
    ensures no_memory { result ≡ Err StreamFault.Memory → ⊥ }
{
    for entry in journal {
        match write_entry(entry, sink) {
            Ok(()) => {}
            Err(fault) => return Err(fault),
        }
    }
    Ok(())
}

/// Writes the lines of journals, one journal after the other. It takes no memory.
pub(crate) fn write_journals<W: Write>(
    journals: &[Vec<Entry>],
    sink: &mut Sink<W>,
) -> Result<(), StreamFault>
    ensures written { OnOk result (Appends (W.contents sink.old.inner) (W.contents sink.new.inner) (journals_text (map (λ entries. entries.items) journals.now))) }
    ensures front { OnErr result (AppendsFront (W.contents sink.old.inner) (W.contents sink.new.inner) (journals_text (map (λ entries. entries.items) journals.now))) }
    ensures no_read { result ≡ Err StreamFault.Read → ⊥ }
    ensures write_cause { sink.new.failures ≡ failures_after_stream result sink.old.failures }
    ensures no_memory { result ≡ Err StreamFault.Memory → ⊥ }
{
    for journal in journals {
        match write_journal(journal, sink) {
            Ok(()) => {}
            Err(fault) => return Err(fault),
        }
    }
    Ok(())
}
