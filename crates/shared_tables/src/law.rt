//! Journals, run again.

ghost use Rattle.std.specs.Prelude.{All, List, ℕ};
ghost use Rattle.table_schema.specs.Shape.{TableShape};
ghost use Rattle.table_schema.specs.Valid.{IsValidSchema};
ghost use Rattle.shared_tables.specs.Again.{CanBeRead, KnowsReadable, RunsAgain};
ghost use Rattle.shared_tables.specs.Journal.{EntryData};
ghost use Rattle.shared_tables.specs.Journals.{AreJournals, Gathered};
ghost use Rattle.shared_tables.specs.Pass.{PassData};
ghost use Rattle.shared_tables.specs.Text.{entries_in};

/// A law of all legal journals of a schema's tables whose commands a line can say, in at most 65,536 bytes: a session that
/// sends their text to empty tables of the schema is told the answers that the journals have, and leaves their replays,
/// with every record, list and handle; unless it is told, after the first of these answers, that memory was refused.
///
/// Of journals that were gathered it is enough that a line can say each write of the passes, as `read_command` promises of
/// what it reads.
pub fn journals_run_again()
    ensures legal { (schema : List TableShape) (workers : ℕ) (journals : List (List EntryData)) → IsValidSchema schema → AreJournals schema workers journals
        → All CanBeRead (entries_in journals) → RunsAgain schema journals }
    ensures gathered { (schema : List TableShape) (workers : ℕ) (journals : List (List EntryData)) (passes : List PassData) → IsValidSchema schema
        → Gathered schema workers journals passes → All KnowsReadable passes → RunsAgain schema journals }
{}
