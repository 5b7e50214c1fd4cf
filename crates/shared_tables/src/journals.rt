//! The journals of all tables.

ghost use Rattle.std.specs.Prelude.{◌≡◌, Err, OnErr, OnOk, map};
ghost use Rattle.std.specs.Io.KnownBytes.{Appends};
ghost use Rattle.table_engine.specs.Devices.{AppendsFront, failures_after_stream};
ghost use Rattle.shared_tables.specs.Text.{journals_text};

use crate::entry::Entry;
use crate::write::write_journals;
use std::io::Write;
use std::marker::Model;
use table_engine::{Sink, StreamFault};
use table_schema::Schema;

/// The journal of each table of a schema, once no session calls them any more.
#[derive(Drop)]
pub struct Journals {
    pub(crate) schema: Schema,
    pub(crate) tables: Vec<Vec<Entry>>,
}

impl Model for Journals {
    ghost use Rattle.std.specs.Prelude.{map};
    ghost use Rattle.shared_tables.specs.Journals.{JournalsData};

    ghost Value = { JournalsData };

    ghost view = { λ j. record { schema = j.schema; tables = map (λ entries. entries.items) j.tables.items } };
}

impl Journals {
    /// The tables' schema. O(1).
    pub fn schema(&self) -> &Schema
        ensures { result.now ≡ self.now.schema }
    {
        &self.schema
    }

    /// The journals, in the order of the schema. O(1).
    pub fn tables(&self) -> &[Vec<Entry>]
        ensures { map (λ entries. entries.items) result.now ≡ self.now.tables }
    {
        &self.tables
    }

    /// Writes the canonical text of each entry's command and a newline, table after table in the order of the schema, each
    /// journal in its order. Run on empty tables of the schema, these lines make the tables that the journals tell of.
    ///
    /// Each line is written by itself, and the writer is not flushed. It takes no memory. `Write`: a write failed or took no
    /// byte, and a front of the text is written. `Read` and `Memory` are never answered. O(tables + length of the text).
    pub fn write<W: Write>(&self, sink: &mut Sink<W>) -> Result<(), StreamFault>
        ensures written { OnOk result (Appends (W.contents sink.old.inner) (W.contents sink.new.inner) (journals_text self.now.tables)) }
        ensures front { OnErr result (AppendsFront (W.contents sink.old.inner) (W.contents sink.new.inner) (journals_text self.now.tables)) }
        ensures no_read { result ≡ Err StreamFault.Read → ⊥ }
        ensures no_memory { result ≡ Err StreamFault.Memory → ⊥ }
        ensures write_cause { sink.new.failures ≡ failures_after_stream result sink.old.failures }
    {
        write_journals(&self.tables, sink)
    }
}

/// The journals of tables as they stand, of which nothing was compared with what the passes know.
#[derive(Drop)]
pub struct UncomparedJournals {
    journals: Journals,
}

impl Model for UncomparedJournals {
    ghost use Rattle.shared_tables.specs.Journals.{JournalsData};

    ghost Value = { JournalsData };

    ghost view = { λ u. u.journals };
}

impl UncomparedJournals {
    /// These journals.
    pub(crate) fn new(journals: Journals) -> UncomparedJournals
        ensures { result ≡ journals }
    {
        UncomparedJournals { journals }
    }

    /// The journals, in the order of the schema. O(1).
    pub fn tables(&self) -> &[Vec<Entry>]
        ensures { map (λ entries. entries.items) result.now ≡ self.now.tables }
    {
        self.journals.tables()
    }

    /// Writes them as `Journals::write` does.
    pub fn write<W: Write>(&self, sink: &mut Sink<W>) -> Result<(), StreamFault>
        ensures written { OnOk result (Appends (W.contents sink.old.inner) (W.contents sink.new.inner) (journals_text self.now.tables)) }
        ensures front { OnErr result (AppendsFront (W.contents sink.old.inner) (W.contents sink.new.inner) (journals_text self.now.tables)) }
        ensures no_read { result ≡ Err StreamFault.Read → ⊥ }
        ensures no_memory { result ≡ Err StreamFault.Memory → ⊥ }
        ensures write_cause { sink.new.failures ≡ failures_after_stream result sink.old.failures }
    {
        self.journals.write(sink)
    }
}
