//! Why a state is not written, or not read.

ghost use Rattle.std.specs.Prelude.{◌≡◌};
ghost use Rattle.table_state.specs.declared.fault.StateWhy.TheVariants.{Disk as OfDisk, Memory};

use std::alloc::{AllocError, AllocFailed};
use table_log::DiskFailed;
use table_reply::OutOfRoom;
use thiserror::Error;

/// Why a state is not written, or not read.
#[derive(Clone, Copy, Debug, PartialEq, Eq, Error)]
pub enum StateWhy {
    /// The line of this number, from 1, is not that of a state of the table, or it is missing.
    #[error("line {0} is not that of a state of the table")]
    Line(u64),
    /// The lines are those of a state, but what they tell is no table of the declaration.
    #[error("the lines tell of no such table")]
    Table,
    /// Memory was refused.
    #[error("no memory")]
    Memory,
    /// The disk failed.
    #[error("the disk failed")]
    Disk,
}

impl From<AllocError> for StateWhy {
    ghost from_gives = { λ _ why. why ≡ Memory };

    fn from(_error: AllocError) -> StateWhy {
        StateWhy::Memory
    }
}

impl<T: Drop> From<AllocFailed<T>> for StateWhy {
    ghost from_gives = { λ _ why. why ≡ Memory };

    fn from(_error: AllocFailed<T>) -> StateWhy {
        StateWhy::Memory
    }
}

impl From<OutOfRoom> for StateWhy {
    ghost from_gives = { λ _ why. why ≡ Memory };

    fn from(_error: OutOfRoom) -> StateWhy {
        StateWhy::Memory
    }
}

impl From<DiskFailed> for StateWhy {
    ghost from_gives = { λ _ why. why ≡ OfDisk };

    fn from(_failed: DiskFailed) -> StateWhy {
        StateWhy::Disk
    }
}
