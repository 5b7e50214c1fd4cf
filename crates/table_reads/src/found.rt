//! What a read finds, or why it finds nothing.

ghost use Rattle.std.specs.Prelude.{◌≡◌};
ghost use Rattle.container_model.specs.declared.refusal.Why.TheVariants as whys;
ghost use Rattle.table_reads.specs.declared.found.Refusal.TheVariants as refusals;

use container_model::{Handle, Why};
use std::alloc::AllocError;
use table_reply::{Fault, Record};

/// What a read finds.
#[derive(Drop)]
pub(crate) enum Found<'a> {
    /// How many records there are, or a place.
    Number(u64),
    /// A record, or the end.
    Position(Option<Handle>),
    /// A record with its row.
    Record(Record<'a>),
    /// Records, in their order.
    Records(Vec<Handle>),
}

/// Why a read finds nothing.
#[derive(Clone, Copy, Debug, PartialEq, Eq)]
pub(crate) enum Refusal {
    /// A word of the command is at fault.
    Fault(Fault),
    /// The container refuses the call, or memory is refused.
    Why(Why),
}

impl From<Fault> for Refusal {
    ghost from_gives = { λ fault refusal. refusal ≡ refusals.Fault fault };

    fn from(fault: Fault) -> Refusal {
        Refusal::Fault(fault)
    }
}

impl From<Why> for Refusal {
    ghost from_gives = { λ why refusal. refusal ≡ refusals.Why why };

    fn from(why: Why) -> Refusal {
        Refusal::Why(why)
    }
}

impl From<AllocError> for Refusal {
    ghost from_gives = { λ _ refusal. refusal ≡ refusals.Why whys.Memory };

    fn from(_error: AllocError) -> Refusal {
        Refusal::Why(Why::Memory)
    }
}
