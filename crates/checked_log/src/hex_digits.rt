//! Numbers of 64 bits as 16 digits.

ghost use Rattle.std.specs.Prelude.{◌≡◌, ◌≢◌, ◌<◌, ◌^◌, ℕ, MatchOption};
ghost use Rattle.checked_log.specs.Hex.{hex_text};

use hex::{decode_to_slice, encode_to_slice};

/// How many digits a number has.
pub(crate) const DIGITS: usize = 16;

/// The digits of a number, lower case, the highest first.
pub(crate) fn hex_of(number: u64) -> [u8; 16]
    ensures { result ≡ hex_text number }
{
    let mut digits = [0; DIGITS];
    let _ = encode_to_slice(&number.to_be_bytes(), &mut digits);
    digits
}

/// The number that has these digits.
pub(crate) fn read_hex(digits: &[u8; 16]) -> Option<u64>
    ensures { MatchOption result ((n : ℕ) → n < 2 ^ 64 → digits.now ≢ hex_text n) (λ n. (n < 2 ^ 64) × (digits.now ≡ hex_text n)) }
{
    let mut bytes = [0; 8];
    if decode_to_slice(digits, &mut bytes).is_err() {
        return None;
    }
    let number = u64::from_be_bytes(bytes);
    if hex_of(number) == *digits {
        Some(number)
    } else {
        None
    }
}
