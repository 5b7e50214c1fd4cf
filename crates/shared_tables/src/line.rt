//! How an answer begins.

ghost use Rattle.std.specs.Prelude.{◌≡◌, ◌≤◌, length, take, drop};

use arrayvec::ArrayVec;
use table_reply::Out;

/// The most bytes that are kept of an answer.
pub(crate) const KEPT: usize = 256;

/// The first 256 bytes of what stands in a buffer after its first ones.
pub(crate) fn first_bytes(out: &Out, start: usize) -> &[u8]
    requires { start ≤ length out.now.bytes }
    ensures bytes { result.now ≡ take 256 (drop start out.now.bytes) }
    ensures few { length result.now ≤ 256 }
{
    let (_, line) = out.bytes().split_at(start);
    let (first, _) = line.split_at(KEPT.min(line.len()));
    first
}

/// These bytes, kept.
pub(crate) fn kept(line: &[u8]) -> ArrayVec<u8, 256>
    requires { length line.now ≤ 256 }
    ensures { result.items ≡ line.now }
{
    let mut kept = ArrayVec::new();
    kept.try_extend_from_slice(line).unwrap();
    kept
}
