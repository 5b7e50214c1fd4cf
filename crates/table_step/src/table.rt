//! A table and one step of it.

ghost use Rattle.std.specs.Prelude.{◌≡◌, IfErr, IfOk, false};
ghost use Rattle.multi_index.specs.Restored.{IsUnrestorable};
ghost use Rattle.table_changes.specs.Change.{is_change};
ghost use Rattle.table_records.specs.Restored.{restored_table};
ghost use Rattle.table_step.specs.Step.{IsOfSameTable, Steps, new_table, step_at, step_of};
ghost use Rattle.table_terms.specs.Table.{keys_of, row_order, specs_of};
ghost use Rattle.table_terms.specs.Telling.{IsTold};

use key_extract::Row;
use std::alloc::{AllocError, Global};
use std::marker::Model;
use table_changes::{change, is_change};
use table_cmd::Command;
use table_reads::read;
use table_records::{Records, Saved, Unrestorable};
use table_reply::{Fault, Ready, Told};
use table_schema::TableSpec;
use table_terms::{Outcome, refuse};

/// A table: its records under the indices that its schema declares.
#[derive(Drop)]
pub struct Table {
    alloc: Global,
    records: Records,
}

impl Model for Table {
    ghost use Rattle.table_step.specs.Step.{TableState};

    ghost Value = { TableState };

    ghost view = { λ t. t.records };
}

impl Table {
    /// A table of this declaration without records. O(columns² + indices).
    pub fn new(alloc: Global, spec: &TableSpec) -> Result<Table, AllocError>
        ensures { IfOk result (λ table. table ≡ new_table spec.now) }
    {
        let records = Records::new(alloc, spec)?;
        Ok(Table { alloc, records })
    }

    /// The table that was saved, of this declaration, which it takes. What is no table of it is refused. Costs what
    /// `MultiIndex::restore` does.
    pub fn restored(
        alloc: Global,
        spec: TableSpec,
        saved: Saved<Row>,
    ) -> Result<Table, Unrestorable>
        ensures made { IfOk result (λ table. table ≡ restored_table spec saved) }
        ensures why { IfErr result (IsUnrestorable (row_order (keys_of spec)) (specs_of spec) spec.max saved) }
    {
        let records = Records::restored(alloc, spec, saved)?;
        Ok(Table { alloc, records })
    }

    /// Its records with its declaration. O(1).
    pub fn records(&self) -> &Records
        ensures { result.now ≡ self.now }
    {
        &self.records
    }

    /// The table's name. O(1).
    pub fn name(&self) -> &str
        ensures { result.now ≡ self.now.shape.name }
    {
        self.records.spec().name()
    }

    /// Carries a command out, whatever table it names, and appends the line of its answer, or that of a refusal. A refused
    /// command changes nothing. Where memory is refused nothing is changed and the memory line is appended; an accepted write
    /// is always answered. The buffer keeps its memory. The table keeps its name and its columns; its indices may be declared
    /// anew.
    ///
    /// An insertion and a replacement read their row in O(columns · fields), a record is shown in O(columns) and a listing
    /// in O(records · columns), besides what the container's own call costs.
    pub fn carry_out<'o>(&mut self, command: &Command, out: Ready<'o>) -> Told<'o, Outcome>
        ensures answer { Steps result.what out.entry.out.now.bytes result.out.now.bytes self.old self.new
            (step_at self.old command.now) }
        ensures told { IsTold out.entry result }
        ensures declared { IsOfSameTable self.new.shape self.old.shape }
        ensures unchanged { (result.what ≡ Outcome.Write → ⊥) → self.new ≡ self.old }
    {
        if is_change(command) {
            change(self.alloc, &mut self.records, command, out)
        } else {
            read(self.alloc, &self.records, command, out)
        }
    }

    /// Carries out a command that names this table, as `carry_out` does. Any other is refused and changes nothing.
    /// O(what the command costs).
    #[tactic(auto, unfolding(crate::specs::Step::step_of))]
    pub fn step<'o>(&mut self, command: &Command, out: Ready<'o>) -> Told<'o, Outcome>
        ensures answer { Steps result.what out.entry.out.now.bytes result.out.now.bytes self.old self.new
            (step_of self.old command.now) }
        ensures told { IsTold out.entry result }
        ensures declared { IsOfSameTable self.new.shape self.old.shape }
        ensures unchanged { (result.what ≡ Outcome.Write → ⊥) → self.new ≡ self.old }
    {
        if command.table() != self.name() {
            return refuse(Fault::Table, out);
        }
        self.carry_out(command, out)
    }

    /// Carries out a command that changes no table, as `step` does. O(what the read costs).
    #[tactic(auto, unfolding(crate::specs::Step::step_of))]
    pub fn read<'o>(&self, command: &Command, out: Ready<'o>) -> Told<'o, Outcome>
        requires { is_change command.now ≡ false }
        ensures answer { Steps result.what out.entry.out.now.bytes result.out.now.bytes self.now self.now (step_of self.now command.now) }
        ensures told { IsTold out.entry result }
    {
        if command.table() == self.name() {
            read(self.alloc, &self.records, command, out)
        } else {
            refuse(Fault::Table, out)
        }
    }
}
