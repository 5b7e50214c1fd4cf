//! Why a line is refused.

ghost use Rattle.std.specs.Prelude.{◌≡◌};
ghost use Rattle.table_reply.specs.Answer.{fault_name};

use thiserror::Error;

/// Why a line is answered by nothing but a name. A banned insertion and a clash of two records under a new index have answers
/// of their own, `Reply::Banned` and `Reply::Clash`.
#[derive(Clone, Copy, Debug, PartialEq, Eq, Error)]
pub enum Fault {
    /// The line is too long.
    #[error("the line is too long")]
    Line,
    /// The line is not JSON.
    #[error("the line is not JSON")]
    Json,
    /// The line is JSON, and no command.
    #[error("the line is no command")]
    Command,
    /// No table has the name.
    #[error("no table has the name")]
    Table,
    /// No index of the table has the name.
    #[error("no index of the table has the name")]
    Index,
    /// The index is of a kind that has no such operation.
    #[error("the index is of a kind that has no such operation")]
    Kind,
    /// A row does not have the table's columns with cells of their types.
    #[error("the row does not have the table's columns with cells of their types")]
    Row,
    /// A key does not fit the index.
    #[error("the key does not fit the index")]
    Key,
    /// The table may have no such index, or not lose its only one.
    #[error("the table may have no such index, or not lose its only one")]
    Definition,
    /// A text is no handle, or the handle is stale.
    #[error("the text is no handle, or the handle is stale")]
    Handle,
    /// A place is past the end.
    #[error("the place is past the end")]
    Place,
    /// A list of handles does not hold each live record once.
    #[error("the handles do not name each record once")]
    Order,
    /// A sum leaves the range of 64 bits.
    #[error("a sum leaves the range of 64 bits")]
    Overflow,
    /// The table holds as many records as it may.
    #[error("the table has as many records as it may")]
    Full,
    /// The table's write number has no successor.
    #[error("the last write has the greatest number")]
    Spent,
    /// A growth was refused.
    #[error("out of memory")]
    Memory,
}

impl Fault {
    /// The name that the answer line gives. O(1).
    pub fn name(self) -> &'static str
        ensures { result.now ≡ fault_name self }
    {
        match self {
            Fault::Line => "line",
            Fault::Json => "json",
            Fault::Command => "command",
            Fault::Table => "table",
            Fault::Index => "index",
            Fault::Kind => "kind",
            Fault::Row => "row",
            Fault::Key => "key",
            Fault::Definition => "definition",
            Fault::Handle => "handle",
            Fault::Place => "place",
            Fault::Order => "order",
            Fault::Overflow => "overflow",
            Fault::Full => "full",
            Fault::Spent => "spent",
            Fault::Memory => "memory",
        }
    }
}
