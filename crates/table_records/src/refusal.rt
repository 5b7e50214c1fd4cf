//! Why the container refused a call on a table.

ghost use Rattle.std.specs.Prelude.{◌≡◌, Option, unwrap_or};
ghost use Rattle.container_model.specs.State.{State};
ghost use Rattle.container_model.specs.declared.refusal.Why.{Why as WhyValue};
ghost use Rattle.container_model.specs.declared.refusal.Why.TheVariants as whys;
ghost use Rattle.table_reply.specs.Answer.{Answer};
ghost use Rattle.table_terms.specs.Step.{Step, Steps, changed, refused_by};
ghost use Rattle.table_terms.specs.Table.{Cells, Keys, TableState};
ghost use Rattle.table_terms.specs.Telling.{IsTold};

use crate::records::Records;
use container_model::Why;
use table_reply::{Ready, Told};
use table_terms::{Outcome, tell_why};

/// Appends the line that tells why the container refused a call, which left the records. Takes no memory. O(1).
pub fn tell_refusal<'o>(records: &Records, why: Why, out: Ready<'o>) -> Told<'o, Outcome>
    ensures answer { Steps result.what out.entry.out.now.bytes result.out.now.bytes records.now records.now
        (refused_by records.now why) }
    ensures unchanged { (old : TableState) → records.now ≡ old → (refusal : Option WhyValue) →
        (reply : Answer) → (after : State Keys Cells) → why ≡ unwrap_or refusal whys.Memory →
        Steps result.what out.entry.out.now.bytes result.out.now.bytes old records.now (changed old refusal reply after) }
    ensures memory { (old : TableState) → records.now ≡ old → why ≡ whys.Memory → (step : Step) →
        Steps result.what out.entry.out.now.bytes result.out.now.bytes old records.now step }
    ensures told { IsTold out.entry result }
{
    tell_why(records.spec(), records.container().writes(), why, out)
}
