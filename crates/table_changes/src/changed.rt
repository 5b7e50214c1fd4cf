//! What came of a change.

ghost use Rattle.std.specs.Prelude.{◌≡◌};
ghost use Rattle.table_changes.specs.Changed.{of_definition, of_index};
ghost use Rattle.table_changes.specs.declared.changed.Refusal.TheVariants as refusals;

use container_model::{Handle, Why};
use std::alloc::AllocError;
use table_records::NotAdded;
use table_reply::Fault;
use table_schema::{DefineFault, TableSpec};

/// What an accepted write is told as, beside its number.
#[derive(Clone, Copy)]
pub(crate) enum Changed {
    /// Nothing.
    Done,
    /// The record that was put in.
    Inserted(Handle),
    /// The record that came after the one that was taken out, or the end.
    Next(Option<Handle>),
    /// How many records were taken out.
    Erased(u64),
    /// The record was lost: in the unique index of a number another has its new key.
    Lost { index: usize, by: Handle },
}

/// Why nothing was changed.
#[derive(Drop)]
pub(crate) enum Refusal {
    /// A fault of the command's words.
    Fault(Fault),
    /// The container refused the change.
    Container(Why),
    /// The container refused an index. The declaration is the table's with that index.
    Index { why: Why, spec: TableSpec },
    /// Memory was refused.
    Memory,
}

impl From<Fault> for Refusal {
    ghost from_gives = { λ why refusal. refusal ≡ refusals.Fault why };

    fn from(why: Fault) -> Refusal {
        Refusal::Fault(why)
    }
}

impl From<Why> for Refusal {
    ghost from_gives = { λ why refusal. refusal ≡ refusals.Container why };

    fn from(why: Why) -> Refusal {
        Refusal::Container(why)
    }
}

impl From<NotAdded> for Refusal {
    ghost from_gives = { λ why refusal. refusal ≡ of_index why };

    fn from(why: NotAdded) -> Refusal {
        match why {
            NotAdded::Refused { why, spec } => Refusal::Index { why, spec },
            NotAdded::Memory => Refusal::Memory,
        }
    }
}

impl From<DefineFault> for Refusal {
    ghost from_gives = { λ why refusal. refusal ≡ of_definition why };

    fn from(why: DefineFault) -> Refusal {
        match why {
            DefineFault::Definition => Refusal::Fault(Fault::Definition),
            DefineFault::Memory => Refusal::Memory,
        }
    }
}

impl From<AllocError> for Refusal {
    ghost from_gives = { λ _ refusal. refusal ≡ refusals.Memory };

    fn from(_error: AllocError) -> Refusal {
        Refusal::Memory
    }
}
