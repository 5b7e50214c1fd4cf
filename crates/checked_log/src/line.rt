//! A line of the log.

ghost use Rattle.std.specs.Prelude.{◌≡◌, IfSome, MatchOption, option_map, ℕ, List, ◌<◌, ◌≢◌};
ghost use Rattle.checked_log.specs.Line.{Entry, Fits, IsWellFormed, covered, entry_of, line_digest, is_plain as spec_is_plain};
ghost use Rattle.checked_log.specs.Read.{said};

use crate::fields::{ahead_of, behind, hex_behind, number_behind};
use crate::signed::signed_rest;

/// What a well-formed line says.
#[derive(Clone, Copy)]
pub struct Line<'a> {
    /// The digest of the rest.
    pub digest: u64,
    /// How many writes were known to be durable when the line was made.
    pub durable: u64,
    /// The number of the write.
    pub number: u64,
    /// The digest of the line before, or of what the log begins with.
    pub before: u64,
    /// The write's text.
    pub write: &'a [u8],
}

// Whether no byte is a control character.
fn is_plain(write: &[u8]) -> bool
    ensures { result ≡ spec_is_plain write.now }
{
    write.iter().all(|byte| *byte >= 32)
}

// What stands in the part of a line that its digest covers.
fn read_covered(digest: u64, text: &[u8]) -> Option<Line<'_>>
    ensures { MatchOption result
        ((e : Entry) → Fits e → text.now ≢ covered e)
        (λ line. Fits (said line) × (text.now ≡ covered (said line)) × (line.digest ≡ digest)) }
{
    let (durable, rest) = number_behind(text, b"\"d\":")?;
    let (number, rest) = number_behind(rest, b"\"n\":")?;
    let (before, rest) = hex_behind(rest, b"\"p\":\"")?;
    let rest = behind(rest, b"\",\"w\":")?;
    let write = ahead_of(rest, b"}")?;
    if durable < number && is_plain(write) {
        Some(Line {
            digest,
            durable,
            number,
            before,
            write,
        })
    } else {
        None
    }
}

/// What a line says, without its newline, if it is well formed. O(bytes).
pub fn read_line(text: &[u8]) -> Option<Line<'_>>
    ensures entry { option_map said result ≡ entry_of text.now }
    ensures digest { IfSome result (λ line. line.digest ≡ line_digest (said line)) }
{
    let (digest, covered) = signed_rest(text)?;
    read_covered(digest, covered)
}
