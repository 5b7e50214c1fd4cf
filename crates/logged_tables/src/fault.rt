//! Why no more is answered.

use thiserror::Error;

/// The log of the table of this number could not be written or synced, now or before. Nothing more is answered of it.
#[derive(Clone, Copy, Debug, PartialEq, Eq, Error)]
#[error("the log of table {table} cannot be written")]
pub struct OverAt {
    pub table: usize,
}

/// Marks stand still: the log of a table is over, or what stands behind its lock is not that table, which never is so.
#[derive(Clone, Copy, Debug, PartialEq, Eq)]
pub(crate) struct Unsettled {
    pub(crate) over: Option<OverAt>,
}

/// Why a stream was not served to its end.
#[derive(Clone, Copy, Debug, PartialEq, Eq, Error)]
pub enum ServeFault {
    /// A read failed, or 4,294,967,295 reads were made.
    #[error("a read failed")]
    Read,
    /// A write failed, or took no byte.
    #[error("a write failed")]
    Write,
    /// Memory was refused before anything was read.
    #[error("no memory")]
    Memory,
    /// A log could not be written or synced.
    #[error("{0}")]
    Over(OverAt),
}
