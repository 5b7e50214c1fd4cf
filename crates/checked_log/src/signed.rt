//! Texts that begin with the digest of the rest.

ghost use Rattle.std.specs.Prelude.{◌≡◌, ◌≢◌, ℕ, List, MatchOption};
ghost use Rattle.checked_log.specs.Digest.{digest};
ghost use Rattle.checked_log.specs.Line.{with_digest};

use crate::digest::digest_of;
use crate::fields::{behind, hex_behind};

/// The digest that a text begins with, and what it covers, where it is the digest of that.
pub(crate) fn signed_rest(text: &[u8]) -> Option<(u64, &[u8])>
    ensures { MatchOption result
        ((rest : List ℕ) → text.now ≢ with_digest (digest rest) rest)
        (λ p. (p.0 ≡ digest p.1.now) × (text.now ≡ with_digest p.0 p.1.now)) }
{
    let (digest, rest) = hex_behind(text, b"{\"c\":\"")?;
    let covered = behind(rest, b"\",")?;
    if digest_of(covered) == digest {
        Some((digest, covered))
    } else {
        None
    }
}
