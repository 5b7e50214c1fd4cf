//! Requests that are carried out under one lock.

ghost use Rattle.std.specs.Prelude.{◌≡◌, ◌≤◌, ◌++◌, ◌∷◌, List, ℕ, IfErr, OnErr, OnOk, Some, length};
ghost use Rattle.table_cmd.specs.Command.{table_in};
ghost use Rattle.table_reply.specs.Answer.{answer_text, fault};
ghost use Rattle.shared_tables.specs.Hears.{Hears, Refuses, table_at};
ghost use Rattle.shared_tables.specs.Requests.{HearsSome, HearsUntil, IsEntered};
ghost use Rattle.shared_tables.specs.declared.request.Request.TheVariants as requests;

use crate::cell::TableCell;
use crate::fault::CallFault;
use crate::pass::Pass;
use crate::request::Request;
use crate::requests::Requests;
use crate::shared::{Gate, Shared, table_at};
use crate::waiting::{has_room, ready_in};
use std::sync::Wait;
use table_cmd::Command;
use table_reply::{Fault, Out, READY_ROOM};
use table_step::refuse;

// Gives a fault as the answer.
fn tell_fault(why: Fault, out: &mut Out)
    requires { READY_ROOM ≤ out.old.room }
    ensures { out.new.bytes ≡ out.old.bytes ++ answer_text (fault why) }
{
    let Ok(ready) = ready_in(out);
    refuse(why, ready).end();
}

impl<G: Gate> Shared<G> {
    // Carries out a command under the lock of its table, and gives its answer.
    fn step(
        &self,
        cell: &mut TableCell,
        place: usize,
        pass: &mut Pass,
        command: Command,
        out: &mut Out,
    ) -> Result<(), CallFault>
        requires room { READY_ROOM ≤ out.old.room }
        requires named { table_at self.now.schema (table_in command) ≡ Some place }
        requires entered { IsEntered self.now place cell.old }
        ensures entered { IsEntered self.now place cell.new }
        ensures answered { OnOk result (Hears self.now pass.old command out.old.bytes out.new.bytes pass.new) }
        ensures refused { IfErr result (λ why. Refuses self.now pass.old command why) }
        ensures unchanged { OnErr result ((pass.new ≡ pass.old) × (out.new.bytes ≡ out.old.bytes)) }
    {
        let Ok(ready) = ready_in(out);
        self.tell_step(cell, place, pass, command, ready).end()
    }

    // Carries out a command under the lock of its table, and then those that come next and are for this table too, as long as
    // there is room for their answers.
    fn step_on(
        &self,
        cell: &mut TableCell,
        place: usize,
        pass: &mut Pass,
        first: Command,
        later: &mut Requests,
        out: &mut Out,
    ) -> Result<(), CallFault>
        requires room { READY_ROOM ≤ out.old.room }
        requires named { table_at self.now.schema (table_in first) ≡ Some place }
        requires entered { IsEntered self.now place cell.old }
        ensures answered { OnOk result ((text : List ℕ) × (out.new.bytes ≡ out.old.bytes ++ text) × HearsSome self.now pass.old (requests.Command first ∷ later.old) later.new text pass.new) }
        ensures refused { IfErr result (λ why. (text : List ℕ) × (out.new.bytes ≡ out.old.bytes ++ text) × HearsUntil self.now pass.old (requests.Command first ∷ later.old) text pass.new why) }
        ensures fewer { length later.new ≤ length later.old }
    {
        match self.step(cell, place, pass, first, out) {
            Ok(()) => {}
            Err(why) => return Err(why),
        }
        let name = self.schema.tables()[place].name();
        while has_room(out) {
            let Some(command) = later.pop_for(name) else {
                return Ok(());
            };
            match self.step(cell, place, pass, command, out) {
                Ok(()) => {}
                Err(why) => return Err(why),
            }
        }
        Ok(())
    }

    // Carries out a command under the lock of its table, and those that come next and are for this table too. Where no table has
    // the name, the line says so, and no lock is taken.
    fn call_on(
        &self,
        rt: &impl Wait,
        pass: &mut Pass,
        first: Command,
        later: &mut Requests,
        out: &mut Out,
    ) -> Result<(), CallFault>
        requires { READY_ROOM ≤ out.old.room }
        ensures answered { OnOk result ((text : List ℕ) × (out.new.bytes ≡ out.old.bytes ++ text) × HearsSome self.now pass.old (requests.Command first ∷ later.old) later.new text pass.new) }
        ensures refused { IfErr result (λ why. (text : List ℕ) × (out.new.bytes ≡ out.old.bytes ++ text) × HearsUntil self.now pass.old (requests.Command first ∷ later.old) text pass.new why) }
        ensures fewer { length later.new ≤ length later.old }
    {
        let tables = self.schema.tables();
        if !pass.is_known(tables.len(), self.workers as usize) {
            drop(first);
            return Err(CallFault::Stranger);
        }
        let Some(place) = table_at(tables, first.table()) else {
            drop(first);
            tell_fault(Fault::Table, out);
            return Ok(());
        };
        let mut cell = self.tables.at(place).lock(rt);
        // It always is, but of what a lock holds only its type is known.
        if !cell.is_of(&tables[place], self.workers) {
            drop(first);
            tell_fault(Fault::Memory, out);
            return Ok(());
        }
        self.step_on(&mut cell, place, pass, first, later, out)
    }

    /// Answers a request, and where it is a command those that come next and are for the same table too, under one lock.
    pub(crate) fn answer_on(
        &self,
        rt: &impl Wait,
        pass: &mut Pass,
        first: Request,
        later: &mut Requests,
        out: &mut Out,
    ) -> Result<(), CallFault>
        requires { READY_ROOM ≤ out.old.room }
        ensures answered { OnOk result ((text : List ℕ) × (out.new.bytes ≡ out.old.bytes ++ text) × HearsSome self.now pass.old (first ∷ later.old) later.new text pass.new) }
        ensures refused { IfErr result (λ why. (text : List ℕ) × (out.new.bytes ≡ out.old.bytes ++ text) × HearsUntil self.now pass.old (first ∷ later.old) text pass.new why) }
        ensures fewer { length later.new ≤ length later.old }
    {
        match first {
            Request::Command(command) => self.call_on(rt, pass, command, later, out),
            Request::Fault(fault) => {
                tell_fault(fault, out);
                Ok(())
            }
        }
    }
}
