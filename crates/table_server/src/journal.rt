//! The file of the journals.
ghost use Rattle.std.specs.Prelude.{◌≡◌, ◌⊎◌, ℕ, List, Err, IfErr, IfOk, OnErr, OnOk, Some, option_map};
ghost use Rattle.std.specs.Io.KnownBytes.{Appends};
ghost use Rattle.shared_tables.specs.Text.{journals_text};
ghost use Rattle.table_engine.specs.Devices.{AppendsFront, failures_after_stream};
ghost use Rattle.table_server.specs.Keeping.{Begins, IsNotBegun, IsRefused, IsWritten};

use crate::fault::Fault;
use crate::opens::Makes;
use shared_tables::{Journals, UncomparedJournals};
use std::io::Write;
use table_engine::{Sink, StreamFault};

/// The journal's path, and what was begun for it.
#[derive(Drop)]
pub(crate) struct Journal<'a, B> {
    pub(crate) path: &'a str,
    pub(crate) begun: B,
}

/// Tries the journal's path, if there is one, which is not that of the schema.
pub(crate) fn begin<'a, M: Makes>(
    files: &mut M,
    path: Option<&'a str>,
    schema: &str,
) -> Result<Option<Journal<'a, M::Begun>>, Fault>
    ensures begun { IfOk result (λ journal. Begins M.known (option_map (λ s. s.now) path.entry) schema.now files.old files.new
        (option_map (λ j. record { path = j.path.now; begun = j.begun }) journal)) }
    ensures refused { OnErr result (IsNotBegun M.known (option_map (λ s. s.now) path.entry) schema.now files.old files.new) }
    ensures fault { IfErr result (λ fault. (fault ≡ Fault.Memory) ⊎ (fault ≡ Fault.Write)) }
{
    let Some(path) = path else {
        return Ok(None);
    };
    let begun = files.begin(path, schema).map_err(Fault::of_write)?;
    Ok(Some(Journal { path, begun }))
}

/// Writes a text to the file for a path, and puts it there.
pub(crate) fn write<M: Makes, T: Text>(
    files: &mut M,
    text: &T,
    journal: Journal<'_, M::Begun>,
) -> Result<(), Fault>
    ensures written { OnOk result (IsWritten M.known M.Made.contents (Some (record { path = journal.entry.path.now; begun = journal.entry.begun })) (T.text text.now) files.old files.new) }
    ensures refused { OnErr result (IsRefused M.known M.Made.contents (Some (record { path = journal.entry.path.now; begun = journal.entry.begun })) (T.text text.now) files.old files.new) }
    ensures fault { IfErr result (λ fault. (fault ≡ Fault.Memory) ⊎ (fault ≡ Fault.Write)) }
{
    let Journal { path, begun } = journal;
    let mut sink = Sink::new(files.make(path, begun).map_err(Fault::of_write)?);
    if text.write(&mut sink).is_err() {
        files.leave(path, sink);
        return Err(Fault::Write);
    }
    files.put(path, sink.into_inner()).map_err(Fault::of_write)?;
    Ok(())
}

/// What has a text, which is written line by line.
pub(crate) trait Text {
    /// The text.
    ghost text: { Self → List ℕ };

    /// Writes the text. It takes no memory. Only a write that fails ends it before.
    fn write<W: Write>(&self, sink: &mut Sink<W>) -> Result<(), StreamFault>
        ensures written { OnOk result (Appends (W.contents sink.old.inner) (W.contents sink.new.inner) (text self.now)) }
        ensures front { OnErr result (AppendsFront (W.contents sink.old.inner) (W.contents sink.new.inner) (text self.now)) }
        ensures cause { IfErr result (λ fault. fault ≡ StreamFault.Write) }
        ensures failures { sink.new.failures ≡ failures_after_stream result sink.old.failures };
}

impl Text for Journals {
    ghost text = { λ journals. journals_text journals.tables };

    fn write<W: Write>(&self, sink: &mut Sink<W>) -> Result<(), StreamFault> {
        Journals::write(self, sink)
    }
}

impl Text for UncomparedJournals {
    ghost text = { λ journals. journals_text journals.tables };

    fn write<W: Write>(&self, sink: &mut Sink<W>) -> Result<(), StreamFault> {
        UncomparedJournals::write(self, sink)
    }
}
