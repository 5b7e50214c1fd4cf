//! Texts that are cut in two.

ghost use Rattle.std.specs.Prelude.{◌≡◌, ◌++◌, ◌∷◌, [], true, IfSome, MatchOption};
ghost use Rattle.checked_log.specs.Cuts.{Lacks};
ghost use Rattle.checked_log.specs.Line.{is_plain};

use memchr::memchr;

/// What stands before the first newline, and behind it.
pub(crate) fn cut_at_newline(text: &[u8]) -> Option<(&[u8], &[u8])>
    ensures { MatchOption result (Lacks 10 text.now) (λ p. Lacks 10 p.0.now × (text.now ≡ p.0.now ++ (10 ∷ p.1.now))) }
{
    let place = memchr(b'\n', text)?;
    Some((&text[..place], &text[place + 1..]))
}

// Whether no byte is a control character.
fn has_no_control(text: &[u8]) -> bool
    ensures { result ≡ is_plain text.now }
{
    text.iter().all(|byte| *byte >= 32)
}

/// What stands before the newline of one plain line: it has no other control character.
pub(crate) fn plain_write(line: &[u8]) -> Option<&[u8]>
    ensures { IfSome result (λ write. (line.now ≡ write.now ++ (10 ∷ [])) × (is_plain write.now ≡ true)) }
{
    let (last, write) = line.split_last()?;
    if *last == b'\n' && has_no_control(write) {
        Some(write)
    } else {
        None
    }
}
