//! Numbers in a line's text.

ghost use Rattle.std.specs.Prelude.{◌≡◌, ◌≢◌, ◌<◌, ◌^◌, ◌++◌, ◌∷◌, ℕ, List, MatchOption, decimal};
ghost use Rattle.checked_log.specs.Cuts.{Lacks};
ghost use Rattle.checked_log.specs.Hex.{hex_text};

use crate::hex_digits::read_hex;
use itoa::Buffer;
use memchr::memchr;

/// What stands before the first such byte, and behind it.
pub(crate) fn cut_at(text: &[u8], byte: u8) -> Option<(&[u8], &[u8])>
    ensures { MatchOption result (Lacks byte text.now) (λ p. Lacks byte p.0.now × (text.now ≡ p.0.now ++ (byte ∷ p.1.now))) }
{
    let place = memchr(byte, text)?;
    Some((&text[..place], &text[place + 1..]))
}

/// What stands behind a front.
pub(crate) fn behind<'a>(text: &'a [u8], front: &[u8]) -> Option<&'a [u8]>
    ensures { MatchOption result ((rest : List ℕ) → text.now ≢ front.now ++ rest) (λ rest. text.now ≡ front.now ++ rest.now) }
{
    text.strip_prefix(front)
}

/// What stands ahead of a back.
pub(crate) fn ahead_of<'a>(text: &'a [u8], back: &[u8]) -> Option<&'a [u8]>
    ensures { MatchOption result ((front : List ℕ) → text.now ≢ front ++ back.now) (λ front. text.now ≡ front.now ++ back.now) }
{
    text.strip_suffix(back)
}

/// The number that has these digits.
pub(crate) fn read_number(digits: &[u8]) -> Option<u64>
    ensures { MatchOption result ((n : ℕ) → n < 2 ^ 64 → digits.now ≢ decimal n) (λ n. (n < 2 ^ 64) × (digits.now ≡ decimal n)) }
{
    let Ok(text) = std::str::from_utf8(digits) else {
        return None;
    };
    let Ok(number) = text.parse::<u64>() else {
        return None;
    };
    let mut buffer = Buffer::new();
    if buffer.format(number).as_bytes() == digits {
        Some(number)
    } else {
        None
    }
}

/// The number whose digits stand between a key and a comma, and what stands behind the comma.
pub(crate) fn number_behind<'a>(text: &'a [u8], key: &[u8]) -> Option<(u64, &'a [u8])>
    ensures { MatchOption result
        ((n : ℕ) (rest : List ℕ) → n < 2 ^ 64 → text.now ≢ key.now ++ (decimal n ++ (44 ∷ rest)))
        (λ p. (p.0 < 2 ^ 64) × (text.now ≡ key.now ++ (decimal p.0 ++ (44 ∷ p.1.now)))) }
{
    let left = behind(text, key)?;
    let (digits, rest) = cut_at(left, b',')?;
    let number = read_number(digits)?;
    Some((number, rest))
}

/// The number whose 16 digits stand behind a key, and what stands behind them.
pub(crate) fn hex_behind<'a>(text: &'a [u8], key: &[u8]) -> Option<(u64, &'a [u8])>
    ensures { MatchOption result
        ((n : ℕ) (rest : List ℕ) → n < 2 ^ 64 → text.now ≢ key.now ++ (hex_text n ++ rest))
        (λ p. (p.0 < 2 ^ 64) × (text.now ≡ key.now ++ (hex_text p.0 ++ p.1.now))) }
{
    let left = behind(text, key)?;
    let (digits, rest) = left.split_first_chunk::<16>()?;
    let number = read_hex(digits)?;
    Some((number, rest))
}
