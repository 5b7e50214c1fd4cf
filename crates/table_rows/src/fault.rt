//! Why records are not printed, and why fields are no cells.

ghost use Rattle.std.specs.Prelude.{◌≡◌};
ghost use Rattle.table_rows.specs.declared.fault.CellWhy.TheVariants as cell;
ghost use Rattle.table_rows.specs.declared.fault.Unwritten.TheVariants as unwritten;

use std::alloc::AllocError;
use thiserror::Error;

/// Why records are not printed.
#[derive(Clone, Copy, Debug, PartialEq, Eq, Error)]
pub enum Unwritten {
    /// Memory was refused.
    #[error("out of memory")]
    Memory,
    /// What they are printed to failed.
    #[error("the output failed")]
    Output,
}

/// Why a field is no cell of its column.
#[derive(Clone, Copy, Debug, PartialEq, Eq, Error)]
pub enum CellWhy {
    /// Memory was refused.
    #[error("out of memory")]
    Memory,
    /// It is no whole number of 64 bits with its sign.
    #[error("no whole number of 64 bits")]
    Int,
    /// It is neither `true` nor `false`.
    #[error("neither true nor false")]
    Bool,
    /// It is not UTF-8.
    #[error("not UTF-8")]
    Text,
    /// It is longer than a text may be.
    #[error("longer than 4096 bytes")]
    Long,
}

impl From<AllocError> for Unwritten {
    ghost from_gives = { λ _ why. why ≡ unwritten.Memory };

    fn from(_error: AllocError) -> Unwritten {
        Unwritten::Memory
    }
}

impl From<AllocError> for CellWhy {
    ghost from_gives = { λ _ why. why ≡ cell.Memory };

    fn from(_error: AllocError) -> CellWhy {
        CellWhy::Memory
    }
}
