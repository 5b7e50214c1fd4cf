//! Why a call is refused.

use thiserror::Error;

/// Why a call is refused before its command is carried out.
#[derive(Clone, Copy, Debug, PartialEq, Eq, Error)]
pub enum CallFault {
    /// The pass is of another number of tables, or of no session here.
    #[error("the pass is of other tables, or of no session here")]
    Stranger,
    /// The pass and the journal of the table do not fit: by the pass this is the number of the session's last write, or
    /// else of the writes that there were, and the journal tells another.
    #[error("the pass and the journal of the table do not fit")]
    Regressed { expected: u64, found: u64 },
}

/// Why a stream was not served to its end.
#[derive(Clone, Copy, Debug, PartialEq, Eq, Error)]
pub enum ServeFault {
    /// A read failed, or 4,294,967,295 reads were made.
    #[error("a read failed")]
    Read,
    /// A write failed, or took no byte.
    #[error("a write failed")]
    Write,
    /// Memory was refused before anything was read.
    #[error("no memory")]
    Memory,
    /// The call of a command was refused.
    #[error("{0}")]
    Call(CallFault),
}

/// Why no journals were gathered.
#[derive(Clone, Copy, Debug, PartialEq, Eq, Error)]
pub enum GatherWhy {
    /// Memory was refused.
    #[error("no memory")]
    Memory,
    /// The session's entries in this table are not its pass's writes, or the pass's last look does not fit. It is the
    /// first such table, and the first such session there. A session with two passes and a pass of other tables or of no
    /// session here fit no table.
    #[error("a pass and the journal of a table do not agree")]
    Mismatch { table: usize, session: u32 },
}
