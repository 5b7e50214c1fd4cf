//! The last looks of passes, beside a journal.

ghost use Rattle.std.specs.Prelude.{◌≡◌, ◌↔◌, ◌≤◌, IfOk, IsTrue, length, take};
ghost use Rattle.shared_tables.specs.Journal.{replay};
ghost use Rattle.shared_tables.specs.Gathered.{FirstFailure, LookFits};
ghost use Rattle.shared_tables.specs.Looks.{Fits, OfSession, lesser};

use crate::cell::TableCell;
use crate::line::first_bytes;
use crate::look::Answered;
use crate::pass::Pass;
use std::alloc::{AllocError, Global};
use table_reply::Out;
use table_step::{Outcome, Table};

/// The lesser of two numbers, where they are there.
pub(crate) fn lesser(a: Option<u32>, b: Option<u32>) -> Option<u32>
    ensures { result ≡ lesser a b }
{
    match (a, b) {
        (None, other) | (other, None) => other,
        (Some(a), Some(b)) => Some(a.min(b)),
    }
}

impl TableCell {
    // Whether it is the look that the table has of this session.
    fn keeps(&self, session: u32, look: &Answered) -> bool
        ensures { IsTrue result → LookFits self.now.shape self.now.journal look.now }
    {
        match self.looks.get(session as usize) {
            Some(kept) => kept.is(look),
            None => false,
        }
    }

    // The table as so many entries leave it.
    fn replay_to(&self, alloc: Global, count: usize, out: &mut Out) -> Result<Table, AllocError>
        requires { count ≤ length self.now.journal }
        ensures { IfOk result (λ table. table ≡ replay self.now.shape (take count self.now.journal)) }
    {
        let mut table = Table::new(alloc, &self.spec)?;
        for index in 0..count {
            let command = self.journal[index].command();
            let Ok(ready) = out.emptied();
            if let Outcome::Memory = table.step(command, ready).end() {
                return Err(AllocError);
            }
        }
        Ok(table)
    }

    // Whether a look shows how the answer after its number of entries begins, by their replay.
    fn has_replayed(
        &self,
        alloc: Global,
        look: &Answered,
        out: &mut Out,
    ) -> Result<bool, AllocError>
        ensures { IfOk result (λ fits. IsTrue fits ↔ LookFits self.now.shape self.now.journal look.now) }
    {
        if look.number > self.journal.len() as u64 {
            return Ok(false);
        }
        let mut table = self.replay_to(alloc, look.number as usize, out)?;
        let Ok(ready) = out.emptied();
        if let Outcome::Memory = table.step(look.command(), ready).end() {
            return Err(AllocError);
        }
        Ok(first_bytes(out, 0) == look.answer.as_slice())
    }

    // Whether a pass's last look fits. One that the table has takes no replay.
    fn fits(&self, alloc: Global, pass: &Pass, out: &mut Out) -> Result<bool, AllocError>
        ensures { IfOk result (λ fits. IsTrue fits ↔ Fits self.now pass.now) }
    {
        let Some(look) = pass.look(self.spec.place()) else {
            return Ok(true);
        };
        if self.keeps(pass.session, look) {
            return Ok(true);
        }
        self.has_replayed(alloc, look, out)
    }

    /// The least session whose pass's last look does not fit. O(passes · length of a command), and for each look that is not the
    /// table's a replay of the entries before it.
    pub(crate) fn first_unfit(
        &self,
        alloc: Global,
        passes: &[Pass],
        out: &mut Out,
    ) -> Result<Option<u32>, AllocError>
        ensures { IfOk result (λ first. FirstFailure (OfSession (Fits self.now) passes.now) first) }
    {
        let mut least = None;
        for pass in passes {
            if !self.fits(alloc, pass, out)? {
                least = lesser(least, Some(pass.session));
            }
        }
        Ok(least)
    }
}
