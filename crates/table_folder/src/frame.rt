//! The first and the last line of a state's file: the types of the table's columns with the digest of its last write, and the digest of all that stands before.

ghost use Rattle.std.specs.Prelude.{◌≡◌, IfOk, string_bytes};
ghost use Rattle.table_folder.specs.StateFile as spec;

use std::alloc::{AllocError, Global};

/// How the types begin, which a state's first line begins with.
pub const FRONT: &str = "{\"cells\":[";

/// What stands between the types and the digest of the last write.
pub(crate) const DIGEST: &str = ",\"e\":\"";

/// How many bytes the last line has.
pub const LAST_LINE: usize = 25;

/// The first line: the types, and the digest of the last write.
#[tactic(auto, unfolding(crate::specs::StateFile::first_line))]
pub fn first_line(alloc: Global, types: &str, digest: u64) -> Result<String, AllocError>
    ensures { IfOk result (λ line. string_bytes line ≡ spec.first_line types.now digest) }
{
    format!(in alloc; "{types},\"e\":\"{digest:016x}\"}}\n")
}

/// The last line: the digest of all bytes before it.
#[tactic(auto, unfolding(crate::specs::StateFile::last_line))]
pub fn last_line(alloc: Global, digest: u64) -> Result<String, AllocError>
    ensures { IfOk result (λ line. string_bytes line ≡ spec.last_line digest) }
{
    format!(in alloc; "{{\"c\":\"{digest:016x}\"}}\n")
}

/// The first line of a state of an older program: the types.
pub(crate) fn plain_line(alloc: Global, types: &str) -> Result<String, AllocError> {
    format!(in alloc; "{types}}}\n")
}
