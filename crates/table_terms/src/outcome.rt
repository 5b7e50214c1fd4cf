//! What a command was.

/// What a command was for a table.
#[derive(Clone, Copy, Debug, PartialEq, Eq)]
pub enum Outcome {
    /// It was accepted as a write.
    Write,
    /// It was a read.
    Read,
    /// It was refused, and changed nothing.
    Refusal,
    /// Memory was refused, and nothing was changed.
    Memory,
}
