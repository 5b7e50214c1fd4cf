//! Answers that are appended, or the memory line in their place.

ghost use Rattle.std.specs.Prelude.{◌≡◌, ◌≤◌, ◌++◌, length, map};
ghost use Rattle.table_reply.specs.Answer.{answer, answer_text, counted, done, fault, after, listed, listed_of, shown};
ghost use Rattle.table_reply.specs.Ready.{IsBehind};
ghost use Rattle.table_reply.specs.declared.fault.Fault.TheVariants as faults;
ghost use Rattle.table_terms.specs.Step.{Answers};
ghost use Rattle.table_terms.specs.Telling.{IsTold, Tells};

use crate::outcome::Outcome;
use table_reply::{
    Fault, Handle, Heading, READY_ROOM, Ready, Record, Reply, Told, memory_line, write_record,
    write_records, write_reply,
};

// Appends the line of a reply, or else the memory line.
fn tell<'o>(outcome: Outcome, reply: &Reply, out: Ready<'o>) -> Told<'o, Outcome>
    ensures line { Answers result.what out.entry.out.now.bytes result.out.now.bytes outcome (answer reply.now) }
    ensures fits { length (answer_text (answer reply.now)) ≤ READY_ROOM → (result.what ≡ outcome) × (result.out.now.bytes ≡ out.entry.out.now.bytes ++ answer_text (answer reply.now)) }
    ensures behind { IsBehind out.entry result }
{
    let Ready { out } = out;
    if write_reply(reply, out).is_ok() {
        return Told { what: outcome, out };
    }
    out.push(memory_line());
    Told {
        what: Outcome::Memory,
        out,
    }
}

/// Appends the line of a reply that has at most 256 bytes, which takes no memory. O(1).
pub fn tell_short<'o>(outcome: Outcome, reply: &Reply, out: Ready<'o>) -> Told<'o, Outcome>
    requires { length (answer_text (answer reply.now)) ≤ 256 }
    ensures { Tells out.entry result outcome (answer reply.now) }
{
    tell(outcome, reply, out)
}

/// Appends the line of a write that has nothing to tell but its number. O(1).
#[tactic(auto, using(table_reply::proofs::Short::done_is_short))]
pub fn tell_done<'o>(at: u64, out: Ready<'o>) -> Told<'o, Outcome>
    ensures { Tells out.entry result Outcome.Write (done at) }
{
    tell_short(Outcome::Write, &Reply::Done { at }, out)
}

/// Appends the line of an erasure that tells the next record, or the end. O(1).
#[tactic(auto, using(table_reply::proofs::Short::after_is_short))]
pub fn tell_next<'o>(at: u64, next: Option<Handle>, out: Ready<'o>) -> Told<'o, Outcome>
    ensures { Tells out.entry result Outcome.Write (after at next) }
{
    tell_short(Outcome::Write, &Reply::Next { at, next }, out)
}

/// Appends the line of an erasure of so many records. O(1).
#[tactic(auto, using(table_reply::proofs::Short::counted_is_short))]
pub fn tell_erased<'o>(at: u64, number: u64, out: Ready<'o>) -> Told<'o, Outcome>
    ensures { Tells out.entry result Outcome.Write (counted at number) }
{
    tell_short(Outcome::Write, &Reply::Counted { at, number }, out)
}

/// Appends the line that answers a read, or else the memory line. O(length of the line).
pub fn tell_read<'o>(reply: &Reply, out: Ready<'o>) -> Told<'o, Outcome>
    ensures line { Answers result.what out.entry.out.now.bytes result.out.now.bytes Outcome.Read (answer reply.now) }
    ensures told { IsTold out.entry result }
{
    tell(Outcome::Read, reply, out)
}

/// Appends the line that answers a read with a record, or else the memory line. O(length of the line).
pub fn tell_record<'o>(
    at: u64,
    headings: &[Heading],
    record: &Record,
    out: Ready<'o>,
) -> Told<'o, Outcome>
    ensures line { Answers result.what out.entry.out.now.bytes result.out.now.bytes Outcome.Read (shown at (listed_of headings.now record.now)) }
    ensures told { IsTold out.entry result }
{
    let Ready { out } = out;
    if write_record(at, headings, record, out).is_ok() {
        return Told {
            what: Outcome::Read,
            out,
        };
    }
    out.push(memory_line());
    Told {
        what: Outcome::Memory,
        out,
    }
}

/// The same for records. O(length of the line).
pub fn tell_records<'o>(
    at: u64,
    headings: &[Heading],
    records: &[Record],
    out: Ready<'o>,
) -> Told<'o, Outcome>
    ensures line { Answers result.what out.entry.out.now.bytes result.out.now.bytes Outcome.Read (listed at (map (listed_of headings.now) records.now)) }
    ensures told { IsTold out.entry result }
{
    let Ready { out } = out;
    if write_records(at, headings, records, out).is_ok() {
        return Told {
            what: Outcome::Read,
            out,
        };
    }
    out.push(memory_line());
    Told {
        what: Outcome::Memory,
        out,
    }
}

/// Appends the line of a fault, which takes no memory. O(1).
#[tactic(auto, using(table_reply::proofs::Short::fault_is_short))]
pub fn refuse<'o>(why: Fault, out: Ready<'o>) -> Told<'o, Outcome>
    ensures { Tells out.entry result Outcome.Refusal (fault why) }
{
    tell_short(Outcome::Refusal, &Reply::Fault(why), out)
}

/// Appends the memory line, which takes no memory. O(1).
pub fn refuse_memory<'o>(out: Ready<'o>) -> Told<'o, Outcome>
    ensures { Tells out.entry result Outcome.Memory (fault faults.Memory) }
{
    let Ready { out } = out;
    out.push(memory_line());
    Told {
        what: Outcome::Memory,
        out,
    }
}
