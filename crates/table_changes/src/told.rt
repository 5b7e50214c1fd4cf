//! What came of a change, told.

ghost use Rattle.std.specs.Prelude.{Some};
ghost use Rattle.table_changes.specs.Changed.{Makes};
ghost use Rattle.table_reply.specs.Answer.{found};
ghost use Rattle.table_terms.specs.Step.{Step, Steps};
ghost use Rattle.table_terms.specs.Table.{TableState};
ghost use Rattle.table_terms.specs.Telling.{IsTold, Tells};

use crate::changed::{Changed, Refusal};
use container_model::Handle;
use table_records::{Records, tell_refusal};
use table_reply::{Ready, Reply, Told};
use table_terms::{
    Outcome, refuse, refuse_memory, tell_done, tell_erased, tell_lost, tell_next, tell_short,
    tell_why,
};

// Appends the line of an insertion. O(1).
#[tactic(auto, using(table_reply::proofs::Short::found_is_short))]
fn tell_inserted<'o>(at: u64, handle: Handle, out: Ready<'o>) -> Told<'o, Outcome>
    ensures { Tells out.entry result Outcome.Write (found at (Some handle)) }
{
    let found = Reply::Found {
        at,
        handle: Some(handle),
    };
    tell_short(Outcome::Write, &found, out)
}

/// Appends the line of what came of a change that left these records. Takes no memory. O(1).
pub(crate) fn tell<'o>(
    records: &Records,
    changed: Result<Changed, Refusal>,
    out: Ready<'o>,
) -> Told<'o, Outcome>
    ensures answer { (old : TableState) → (step : Step) → Makes changed old records.now step →
        Steps result.what out.entry.out.now.bytes result.out.now.bytes old records.now step }
    ensures told { IsTold out.entry result }
{
    let at = records.container().writes();
    match changed {
        Ok(Changed::Done) => tell_done(at, out),
        Ok(Changed::Inserted(handle)) => tell_inserted(at, handle, out),
        Ok(Changed::Next(next)) => tell_next(at, next, out),
        Ok(Changed::Erased(number)) => tell_erased(at, number, out),
        Ok(Changed::Lost { index, by }) => tell_lost(records.spec(), at, index, by, out),
        Err(Refusal::Fault(why)) => refuse(why, out),
        Err(Refusal::Container(why)) => tell_refusal(records, why, out),
        Err(Refusal::Index { why, spec }) => tell_why(&spec, at, why, out),
        Err(Refusal::Memory) => refuse_memory(out),
    }
}
