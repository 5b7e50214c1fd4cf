//! The names of a table's files in a folder.

/// A file of a table, by what it is for.
#[derive(Clone, Copy, Debug, PartialEq, Eq)]
pub enum FileName {
    /// How the table is declared.
    Declaration,
    /// A declaration while it is written.
    DeclarationDraft,
    /// The state of the table.
    State,
    /// A state while it is written.
    StateDraft,
    /// The log behind the state of this write number, or the one that begins with the empty table.
    Log(Option<u64>),
    /// A log while a journal is taken into it.
    LogDraft,
    /// Which write is known to be on the disk.
    Mark,
    /// A log of an older program: the text of each write, a line each, without digests. It goes on from the state of this write number, or from the empty table.
    PlainLog(Option<u64>),
    /// The name that such a log gets where it can't be removed. No program reads it.
    PlainLogLeft(Option<u64>),
}
