//! Why the container refused a call.

ghost use Rattle.std.specs.Prelude.{◌≡◌};
ghost use Rattle.container_model.specs.declared.refusal.Why.TheVariants as whys;
ghost use Rattle.table_reply.specs.Answer.{erased};
ghost use Rattle.table_terms.specs.Step.{Answers, refusal_answer};
ghost use Rattle.table_terms.specs.Table.{TableState, index_name};
ghost use Rattle.table_terms.specs.Telling.{IsTold, Tells};

use crate::indices::{index_name, last_index_name};
use crate::outcome::Outcome;
use crate::tell::{refuse, refuse_memory, tell_short};
use container_model::{Handle, Why};
use table_reply::{Fault, Ready, Reply, Told};
use table_schema::TableSpec;

/// Appends the line that tells why the container of a table of this declaration refused a call, where its write number is
/// `at`. A clash is told at the last index, the new one. Takes no memory. O(1).
pub fn tell_why<'o>(spec: &TableSpec, at: u64, why: Why, out: Ready<'o>) -> Told<'o, Outcome>
    ensures line { (t : TableState) → t.shape ≡ spec.now → t.records.writes ≡ at →
        Answers result.what out.entry.out.now.bytes result.out.now.bytes Outcome.Refusal (refusal_answer t why) }
    ensures memory { why ≡ whys.Memory → result.what ≡ Outcome.Memory }
    ensures told { IsTold out.entry result }
{
    match why {
        Why::Banned { index, by } => {
            let banned = Reply::Banned {
                at,
                index: index_name(spec, index),
                by,
            };
            tell_short(Outcome::Refusal, &banned, out)
        }
        Why::Clash { first, second } => {
            let clash = Reply::Clash {
                at,
                index: last_index_name(spec),
                first,
                second,
            };
            tell_short(Outcome::Refusal, &clash, out)
        }
        Why::Kind => refuse(Fault::Kind, out),
        Why::Definition => refuse(Fault::Definition, out),
        Why::Stale => refuse(Fault::Handle, out),
        Why::Place => refuse(Fault::Place, out),
        Why::Order => refuse(Fault::Order, out),
        Why::Full => refuse(Fault::Full, out),
        Why::Spent => refuse(Fault::Spent, out),
        Why::Memory => refuse_memory(out),
    }
}

/// Appends the line of a change, the write of number `at` on a table of this declaration, by which a record is lost: in the
/// unique index of a number another record has its new key. Takes no memory. O(1).
pub fn tell_lost<'o>(
    spec: &TableSpec,
    at: u64,
    index: usize,
    by: Handle,
    out: Ready<'o>,
) -> Told<'o, Outcome>
    ensures { (t : TableState) → t.shape ≡ spec.now → Tells out.entry result Outcome.Write (erased at (index_name t index) by) }
{
    let lost = Reply::Erased {
        at,
        index: index_name(spec, index),
        by,
    };
    tell_short(Outcome::Write, &lost, out)
}
