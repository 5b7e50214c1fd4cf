//! Why a table can't have another declaration.

ghost use Rattle.std.specs.Prelude.{◌≡◌};
ghost use Rattle.table_alter.specs.declared.fault.Unalterable.TheVariants.{Memory};

use container_model::Handle;
use std::alloc::{AllocError, AllocFailed};
use thiserror::Error;

/// Why a table can't have another declaration.
#[derive(Clone, Copy, Debug, PartialEq, Eq, Error)]
pub enum Unalterable {
    /// Memory was refused.
    #[error("out of memory")]
    Memory,
    /// There are more records than there may be.
    #[error("there are more records than there may be")]
    Full,
    /// The record of this handle lies in a slot that there would not be.
    #[error("the record {0} lies in a slot that there would not be")]
    Slot(Handle),
    /// The record of this handle has a cell that the column of this place can't hold.
    #[error("the record {handle} has a cell that column {column} can't hold")]
    Cell {
        column: usize,
        handle: Handle,
    },
    /// The index of this place is new and unique, and two records have one key: the second is younger.
    #[error("the index {index} is unique, and the records {first} and {second} have one key")]
    Clash {
        index: usize,
        first: Handle,
        second: Handle,
    },
    /// The records and orders are those of no such table.
    #[error("the records and orders are those of no such table")]
    Unfit,
}

impl From<AllocError> for Unalterable {
    ghost from_gives = { λ _ why. why ≡ Memory };

    fn from(_error: AllocError) -> Unalterable {
        Unalterable::Memory
    }
}

impl<T: Drop> From<AllocFailed<T>> for Unalterable {
    ghost from_gives = { λ _ why. why ≡ Memory };

    fn from(_error: AllocFailed<T>) -> Unalterable {
        Unalterable::Memory
    }
}
