//! Tables behind locks of their own.

ghost use Rattle.std.specs.Prelude.{◌≡◌, ◌≤◌, OnErr, OnOk, IfErr, IfOk, Some, length};
ghost use Rattle.table_cmd.specs.Command.{table_in};
ghost use Rattle.table_reply.specs.Ready.{IsBehind};
ghost use Rattle.shared_tables.specs.Hears.{Hears, Refuses, table_at};
ghost use Rattle.shared_tables.specs.Journals.{fresh_cells};
ghost use Rattle.shared_tables.specs.Pass.{fresh_passes};
ghost use Rattle.shared_tables.specs.Requests.{IsEntered};

use crate::cell::TableCell;
use crate::entry::Entry;
use crate::fault::CallFault;
use crate::locks::Locked;
use crate::pass::Pass;
use crate::unlocked::Unlocked;
use std::alloc::{AllocError, Global};
use std::marker::Model;
use std::snapshot::Snapshot;
use std::sync::Wait;
use table_cmd::Command;
use table_reply::{Fault, Out, Ready, Told};
use table_schema::{Schema, TableSpec};
use table_step::{refuse, refuse_memory};

/// What each call passes under its table's lock, before the command is carried out.
pub trait Gate {
    fn enter(&self, table: usize, session: u32);
}

/// A gate that does nothing.
#[derive(Clone, Copy, Debug)]
pub struct OpenGate;

impl Gate for OpenGate {
    fn enter(&self, _table: usize, _session: u32) {}
}

/// The tables of a schema, each behind a lock of its own, which several sessions call.
pub struct Shared<G: Gate> {
    pub(crate) alloc: Global,
    pub(crate) schema: Schema,
    pub(crate) workers: u32,
    pub(crate) tables: Locked<TableCell>,
    pub(crate) gate: G,
    /// Room for what is gathered: of the journals, and of the answers that looks are compared with.
    pub(crate) journals: Vec<Vec<Entry>>,
    pub(crate) answer: Out,
}

// As a function: a derived drop is written out at each exit of each function that owns the tables.
impl<G: Gate + Drop> Drop for Shared<G> {
    fn drop(self) {
        let Shared {
            alloc: _,
            schema: _schema,
            workers: _,
            tables: _tables,
            gate: _gate,
            journals: _journals,
            answer: _answer,
        } = self;
    }
}

impl<G: Gate> Model for Shared<G> {
    ghost use Rattle.std.specs.Prelude.{◌≡◌, ◌≤◌, length, vec_len, vec_capacity};
    ghost use Rattle.shared_tables.specs.Hears.{SharedData};

    ghost Value = { SharedData };

    ghost view = { λ s. record { schema = s.schema; workers = s.workers } };

    ghost invariant = { λ s. (s.tables ≡ length s.schema) × (vec_len s.journals ≡ 0) × (length s.schema ≤ vec_capacity s.journals) };
}

impl<G: Gate + Drop> Shared<G> {
    /// Tables of the schema, a pass for each session, which are numbered from 0, and what went behind the locks, which a clause alone
    /// sees: empty tables with empty journals. O(sessions · tables), and what it costs to make the tables.
    pub fn new(
        alloc: Global,
        schema: Schema,
        workers: u32,
        gate: G,
    ) -> Result<(Shared<G>, Vec<Pass>, Snapshot<Vec<TableCell>>), AllocError>
        ensures shared { IfOk result (λ made. made.0 ≡ record { schema = schema; workers = workers }) }
        ensures passes { IfOk result (λ made. made.1.items ≡ fresh_passes (length schema) workers) }
        ensures begun { IfOk result (λ made. made.2.value.items ≡ fresh_cells schema workers) }
    {
        let cells = fresh_cells(alloc, &schema, workers)?;
        let passes = new_passes(alloc, schema.tables().len(), workers)?;
        let answer = Out::new(alloc).map_err(|_| AllocError)?;
        let journals = Vec::with_capacity(alloc, cells.len())?;
        let (tables, begun) = Locked::new(alloc, cells)?;
        let shared = Shared {
            alloc,
            journals,
            tables,
            schema,
            workers,
            gate,
            answer,
        };
        Ok((shared, passes, begun))
    }

    /// Takes the tables out of their locks. Takes no memory. O(tables).
    pub(crate) fn open(self) -> Unlocked<G>
        ensures schema { result.schema ≡ self.schema }
        ensures workers { result.workers ≡ self.workers }
    {
        let Shared {
            alloc,
            schema,
            workers,
            tables,
            gate,
            journals,
            answer,
        } = self;
        Unlocked {
            alloc,
            schema,
            workers,
            cells: tables.open(),
            gate,
            journals,
            answer,
        }
    }
}

// Empty tables with empty journals.
fn fresh_cells(alloc: Global, schema: &Schema, workers: u32) -> Result<Vec<TableCell>, AllocError>
    ensures { IfOk result (λ cells. cells.items ≡ fresh_cells schema.now workers) }
{
    let specs = schema.tables();
    let mut cells = Vec::with_capacity(alloc, specs.len())?;
    for spec in specs {
        cells.push(TableCell::new(alloc, spec, workers)?)?;
    }
    Ok(cells)
}

// A pass for each session.
fn new_passes(alloc: Global, tables: usize, workers: u32) -> Result<Vec<Pass>, AllocError>
    ensures { IfOk result (λ passes. passes.items ≡ fresh_passes tables workers) }
{
    let mut passes = Vec::new(alloc);
    for session in 0..workers {
        passes.push(Pass::new(alloc, session, tables)?)?;
    }
    Ok(passes)
}

/// The place of the first table of a name.
pub(crate) fn table_at(tables: &[TableSpec], name: &str) -> Option<usize>
    ensures { result ≡ table_at tables.now name.now }
{
    tables.iter().position(|table| table.name() == name)
}

impl<G: Gate> Shared<G> {
    /// Carries out a command under the lock of the table that it names, and appends the line of its answer, or else the
    /// memory line. Where no table has the name, the line says so, and no lock is taken. A pass that does not fit is
    /// refused: then nothing is changed or appended.
    ///
    /// It waits while another session has the table. Apart from that and from what the command costs, O(tables + columns +
    /// indices + length of the command).
    pub fn call<'o>(
        &self,
        rt: &impl Wait,
        pass: &mut Pass,
        command: Command,
        out: Ready<'o>,
    ) -> Told<'o, Result<(), CallFault>>
        ensures refused { IfErr result.what (λ fault. Refuses self.now pass.old command fault) }
        ensures unchanged { OnErr result.what ((pass.new ≡ pass.old) × (result.out.now ≡ out.entry.out.now)) }
        ensures answered { OnOk result.what (Hears self.now pass.old command out.entry.out.now.bytes result.out.now.bytes pass.new) }
        ensures behind { IsBehind out.entry result }
    {
        let tables = self.schema.tables();
        if !pass.is_known(tables.len(), self.workers as usize) {
            drop(command);
            return out.give_back(Err(CallFault::Stranger));
        }
        let Some(place) = table_at(tables, command.table()) else {
            drop(command);
            return refuse(Fault::Table, out).with(Ok(()));
        };
        let mut cell = self.tables.at(place).lock(rt);
        // It always is, but of what a lock holds only its type is known.
        if !cell.is_of(&tables[place], self.workers) {
            drop(command);
            return refuse_memory(out).with(Ok(()));
        }
        self.tell_step(&mut cell, place, pass, command, out)
    }

    /// Carries out a command under the lock of its table.
    pub(crate) fn tell_step<'o>(
        &self,
        cell: &mut TableCell,
        place: usize,
        pass: &mut Pass,
        command: Command,
        out: Ready<'o>,
    ) -> Told<'o, Result<(), CallFault>>
        requires named { table_at self.now.schema (table_in command) ≡ Some place }
        requires entered { IsEntered self.now place cell.old }
        ensures entered { IsEntered self.now place cell.new }
        ensures refused { IfErr result.what (λ fault. Refuses self.now pass.old command fault) }
        ensures unchanged { OnErr result.what ((pass.new ≡ pass.old) × (result.out.now ≡ out.entry.out.now)) }
        ensures answered { OnOk result.what (Hears self.now pass.old command out.entry.out.now.bytes result.out.now.bytes pass.new) }
        ensures behind { IsBehind out.entry result }
    {
        self.gate.enter(place, pass.session);
        cell.call(pass, command, out)
    }
}
