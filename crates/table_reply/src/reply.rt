//! What is answered to a command.

ghost use Rattle.std.specs.Prelude.{◌≡◌, ◌≤◌, length};
ghost use Rattle.table_reply.specs.Buffer.{AddsWhole};
ghost use Rattle.table_reply.specs.Answer.{answer, answer_text, fault};
ghost use Rattle.table_reply.specs.declared.fault.Fault.TheVariants as faults;

use crate::fault::Fault;
use crate::out::{Out, OutOfRoom};
use crate::plain::PlainText;
use crate::print::{
    push_after, push_banned, push_clash, push_counted, push_done, push_erased, push_fault,
    push_found,
};
use container_model::Handle;

/// What is answered to a command. `at` is the table's write number after it.
#[derive(Drop)]
pub enum Reply<'a> {
    /// That a write is carried out.
    Done {
        at: u64,
    },
    /// A record, or nothing, which prints as null.
    Found {
        at: u64,
        handle: Option<Handle>,
    },
    /// A number of records, or a place.
    Counted {
        at: u64,
        number: u64,
    },
    /// The record after one that went, or the end, which prints as null.
    Next {
        at: u64,
        next: Option<Handle>,
    },
    /// A unique index has a record with the new key.
    Banned {
        at: u64,
        index: PlainText<'a>,
        by: Handle,
    },
    /// A changed record went, since a unique index has another record with its new key.
    Erased {
        at: u64,
        index: PlainText<'a>,
        by: Handle,
    },
    /// Two records would have one key at a new unique index: the first of them, and the younger one.
    Clash {
        at: u64,
        index: PlainText<'a>,
        first: Handle,
        second: Handle,
    },
    /// Nothing but the name of the fault.
    Fault(Fault),
}

/// The line where memory is refused, with its newline. O(1).
#[tactic(auto, unfolding(crate::specs::Answer::answer_text, json::specs::Print::escape_byte))]
pub fn memory_line() -> &'static [u8]
    ensures text { result.now ≡ answer_text (fault faults.Memory) }
    ensures short { length result.now ≤ 256 }
{
    b"{\"err\":\"memory\"}\n"
}

/// Appends the line of a reply, with its newline. At an `Err` nothing is appended: memory was refused, and the room was
/// less than the line. O(length of the line).
pub fn write_reply(reply: &Reply, out: &mut Out) -> Result<(), OutOfRoom>
    ensures { AddsWhole result out.old out.new (answer_text (answer reply.now)) }
{
    match reply {
        Reply::Done { at } => push_done(out, *at),
        Reply::Found { at, handle } => push_found(out, *at, *handle),
        Reply::Counted { at, number } => push_counted(out, *at, *number),
        Reply::Next { at, next } => push_after(out, *at, *next),
        Reply::Banned { at, index, by } => push_banned(out, *at, index, *by),
        Reply::Erased { at, index, by } => push_erased(out, *at, index, *by),
        Reply::Clash {
            at,
            index,
            first,
            second,
        } => push_clash(out, *at, index, *first, *second),
        Reply::Fault(fault) => push_fault(out, *fault),
    }
}
