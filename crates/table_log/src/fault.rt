//! Why a log is not opened, or not written.

ghost use Rattle.std.specs.Prelude.{◌≡◌};
ghost use Rattle.table_log.specs.declared.fault.OpenWhy.TheVariants.{Disk as OfDisk, Memory};

use std::alloc::{AllocError, AllocFailed};
use table_reply::OutOfRoom;
use thiserror::Error;

/// A call of a disk failed.
#[derive(Clone, Copy, Debug, PartialEq, Eq, Error)]
#[error("the disk failed")]
pub struct DiskFailed;

/// The log could not be written or synced, now or before. Nothing more is answered.
#[derive(Clone, Copy, Debug, PartialEq, Eq, Error)]
#[error("the log cannot be written")]
pub struct Over;

/// Why a log is not opened.
#[derive(Clone, Copy, Debug, PartialEq, Eq, Error)]
pub enum OpenWhy {
    /// The line of this number, from 1, is no accepted write.
    #[error("line {0} is no accepted write")]
    Line(u64),
    /// Memory was refused.
    #[error("no memory")]
    Memory,
    /// The disk failed.
    #[error("the disk failed")]
    Disk,
}

/// The disk, handed back.
#[derive(Drop)]
pub struct OpenFault<D> {
    pub disk: D,
    pub why: OpenWhy,
}

impl From<AllocError> for OpenWhy {
    ghost from_gives = { λ _ why. why ≡ Memory };

    fn from(_error: AllocError) -> OpenWhy {
        OpenWhy::Memory
    }
}

impl<T: Drop> From<AllocFailed<T>> for OpenWhy {
    ghost from_gives = { λ _ why. why ≡ Memory };

    fn from(_error: AllocFailed<T>) -> OpenWhy {
        OpenWhy::Memory
    }
}

impl From<OutOfRoom> for OpenWhy {
    ghost from_gives = { λ _ why. why ≡ Memory };

    fn from(_error: OutOfRoom) -> OpenWhy {
        OpenWhy::Memory
    }
}

impl From<DiskFailed> for OpenWhy {
    ghost from_gives = { λ _ why. why ≡ OfDisk };

    fn from(_failed: DiskFailed) -> OpenWhy {
        OpenWhy::Disk
    }
}
