//! The tables out of their locks, once no session calls them any more.

ghost use Rattle.std.specs.Prelude.{◌≡◌, ◌+◌, ◌≤◌, ◌++◌, All, IfNone, IfOk, IfSome, IsTrue, length, map, vec_len, vec_capacity};
ghost use Rattle.shared_tables.specs.Journals.{AreJournals, FirstMismatch, Gathered, IsLegalCell, Mismatches, cells_of};

use crate::cell::TableCell;
use crate::entry::Entry;
use crate::fault::GatherWhy;
use crate::journals::Journals;
use crate::locks::Opened;
use crate::pass::Pass;
use crate::shared::{Gate, Shared};
use std::alloc::{AllocError, Global};
use table_reply::Out;
use table_schema::{Schema, TableSpec};

/// What sessions shared, with the tables out of their locks.
#[derive(Drop)]
pub(crate) struct Unlocked<G: Gate> {
    pub(crate) alloc: Global,
    pub(crate) schema: Schema,
    pub(crate) workers: u32,
    pub(crate) cells: Opened<TableCell>,
    pub(crate) gate: G,
    pub(crate) journals: Vec<Vec<Entry>>,
    pub(crate) answer: Out,
    ghost each: { length cells ≡ length schema },
    ghost empty: { vec_len journals ≡ 0 },
    ghost wide: { length schema ≤ vec_capacity journals },
}

// Whether these are the tables of the schema, for so many sessions.
fn are_of(cells: &[TableCell], specs: &[TableSpec], workers: u32) -> bool
    requires { length cells.now ≡ length specs.now }
    ensures tables { IsTrue result → cells.now ≡ cells_of specs.now workers (map (λ cell. cell.journal) cells.now) }
    ensures legal { IsTrue result → All IsLegalCell cells.now }
{
    for (place, cell) in cells.iter().enumerate() {
        if !cell.is_of(&specs[place], workers) {
            return false;
        }
    }
    true
}

// The first table, and there the least session, whose journal and pass do not agree.
fn first_mismatch(
    alloc: Global,
    cells: &[TableCell],
    passes: &[Pass],
    answer: &mut Out,
) -> Result<Option<(usize, u32)>, AllocError>
    ensures { IfOk result (λ first. FirstMismatch cells.now passes.now first) }
{
    for (table, cell) in cells.iter().enumerate() {
        if let Some(session) = cell.first_failure(alloc, passes, answer)? {
            return Ok(Some((table, session)));
        }
    }
    Ok(None)
}

// Why the journals of the tables of a schema can't be gathered, if so.
fn fault_of(
    alloc: Global,
    specs: &[TableSpec],
    workers: u32,
    cells: &[TableCell],
    passes: &[Pass],
    answer: &mut Out,
) -> Option<GatherWhy>
    requires { length cells.now ≡ length specs.now }
    ensures none { IfNone result (Gathered specs.now workers (map (λ cell. cell.journal) cells.now) passes.now) }
    ensures some { IfSome result (λ why. Mismatches (record { schema = specs.now; workers = workers }) passes.now why) }
{
    // They always are, but of what a lock held only its type is known.
    if !are_of(cells, specs, workers) {
        return Some(GatherWhy::Memory);
    }
    match first_mismatch(alloc, cells, passes, answer) {
        Ok(Some((table, session))) => Some(GatherWhy::Mismatch { table, session }),
        Ok(None) => None,
        Err(_) => Some(GatherWhy::Memory),
    }
}

// The journals of tables, for which there is room.
fn journals_of(mut cells: Vec<TableCell>, mut journals: Vec<Vec<Entry>>) -> Vec<Vec<Entry>>
    requires { vec_len journals + vec_len cells ≤ vec_capacity journals }
    ensures { map (λ entries. entries.items) result.items ≡ map (λ entries. entries.items) journals.items ++ map (λ cell. cell.journal) cells.items }
{
    cells.reverse();
    while let Some(cell) = cells.pop() {
        journals.push_reserved(cell.into_journal());
    }
    journals
}

impl<G: Gate + Drop> Unlocked<G> {
    /// Puts the tables behind their locks again. Takes no memory. O(tables).
    pub(crate) fn lock(self) -> Shared<G>
        ensures { result ≡ record { schema = self.schema; workers = self.workers } }
    {
        let Unlocked {
            alloc,
            schema,
            workers,
            cells,
            gate,
            journals,
            answer,
        } = self;
        Shared {
            alloc,
            schema,
            workers,
            tables: cells.lock(),
            gate,
            journals,
            answer,
        }
    }

    /// Why the journals can't be gathered with these passes, if so.
    pub(crate) fn fault(&mut self, alloc: Global, passes: &[Pass]) -> Option<GatherWhy>
        ensures same { (self.new.schema ≡ self.old.schema) × (self.new.workers ≡ self.old.workers) × (self.new.cells ≡ self.old.cells) }
        ensures none { IfNone result (Gathered self.old.schema self.old.workers (map (λ cell. cell.journal) self.old.cells) passes.now) }
        ensures some { IfSome result (λ why. Mismatches (record { schema = self.old.schema; workers = self.old.workers }) passes.now why) }
    {
        fault_of(
            alloc,
            self.schema.tables(),
            self.workers,
            self.cells.values(),
            passes,
            &mut self.answer,
        )
    }

    /// Whether these are the tables of the schema. They always are, but of what a lock held only its type is known.
    pub(crate) fn are_of_schema(&self) -> bool
        ensures { IsTrue result → AreJournals self.now.schema self.now.workers (map (λ cell. cell.journal) self.now.cells) }
    {
        are_of(self.cells.values(), self.schema.tables(), self.workers)
    }

    /// The journals alone. Takes no memory. O(tables).
    pub(crate) fn into_journals(self) -> Journals
        ensures { result ≡ record { schema = self.schema; tables = map (λ cell. cell.journal) self.cells } }
    {
        let Unlocked {
            schema,
            cells,
            journals,
            ..
        } = self;
        Journals {
            schema,
            tables: journals_of(cells.into_values(), journals),
        }
    }
}
