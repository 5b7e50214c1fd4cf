//! Writes lines.

ghost use Rattle.std.specs.Prelude.{◌≡◌, ◌+◌, ◌-◌, ◌≤◌, ◌++◌, ℕ, IfOk, OnErr, OnOk, drop, length, take};
ghost use Rattle.checked_log.specs.Digest.{digest};
ghost use Rattle.checked_log.specs.Hex.{hex_text};
ghost use Rattle.checked_log.specs.Line.{entry, line_digest};
ghost use Rattle.checked_log.specs.Write.{together, whole_line};

use crate::digest::digest_of;
use crate::hex_digits::hex_of;
use crate::put::put;
use itoa::Buffer;
use std::alloc::AllocError;

/// Appends pieces, all or none.
pub(crate) fn push_all(text: &mut Vec<u8>, pieces: &[&[u8]]) -> Result<(), AllocError>
    ensures all { OnOk result (text.new.items ≡ text.old.items ++ together pieces.now) }
    ensures none { OnErr result (text.new.items ≡ text.old.items) }
{
    let start = text.len();
    for piece in pieces {
        if let Err(error) = text.extend_from_slice(piece) {
            text.truncate(start);
            return Err(error);
        }
    }
    Ok(())
}

/// Writes the digest of a line that begins at a place, and ends with the bytes, over its zeros.
pub(crate) fn sign(bytes: &mut [u8], start: usize) -> u64
    requires { start + 25 ≤ length bytes.old }
    ensures digest { result ≡ digest (take (length bytes.old - 1 - (start + 24)) (drop (start + 24) bytes.old)) }
    ensures bytes { bytes.new ≡ take (start + 6) bytes.old ++ (hex_text result ++ drop (start + 6 + 16) bytes.old) }
{
    let digest = digest_of(&bytes[start + 24..bytes.len() - 1]);
    put(bytes, start + 6, &hex_of(digest));
    digest
}

/// Appends a line with its newline, whole or not at all, and tells its digest. It is well formed where the write's text has no control character, and
/// `durable` is below `number`. O(length of the write).
pub fn push_line(
    text: &mut Vec<u8>,
    durable: u64,
    number: u64,
    before: u64,
    write: &[u8],
) -> Result<u64, AllocError>
    ensures all { IfOk result (λ digest. let e = entry durable number before write.now in
        (digest ≡ line_digest e) × (text.new.items ≡ text.old.items ++ whole_line e)) }
    ensures none { OnErr result (text.new.items ≡ text.old.items) }
{
    let start = text.len();
    let mut durable_digits = Buffer::new();
    let mut number_digits = Buffer::new();
    let before_digits = hex_of(before);
    push_all(
        text,
        &[
            b"{\"c\":\"0000000000000000\",\"d\":",
            durable_digits.format(durable).as_bytes(),
            b",\"n\":",
            number_digits.format(number).as_bytes(),
            b",\"p\":\"",
            &before_digits,
            b"\",\"w\":",
            write,
            b"}\n",
        ],
    )?;
    Ok(sign(text, start))
}
