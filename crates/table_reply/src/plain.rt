//! Texts that stand in a line as they are.

ghost use Rattle.std.specs.Prelude.{◌≡◌, ◌↔◌, IfSome, IsSome, IsTrue};
ghost use Rattle.std.specs.List.{list_all};
ghost use Rattle.table_reply.specs.Plain.{is_plain};

use std::marker::Model;

/// A text that JSON has between its quotes as it is: without a quote, a backslash and a control character.
#[derive(Drop)]
pub struct PlainText<'a> {
    text: &'a str,
}

impl<'a> Model for PlainText<'a> {
    ghost use Rattle.std.specs.Prelude.{ℕ, List, IsTrue};
    ghost use Rattle.std.specs.List.{list_all};
    ghost use Rattle.table_reply.specs.Plain.{is_plain};

    ghost Value = { List ℕ };

    ghost view = { λ p. p.text.now };

    ghost invariant = { λ p. IsTrue (list_all is_plain p.text.now) };
}

impl<'a> PlainText<'a> {
    /// The text, where it is plain. O(length).
    pub fn new(text: &'a str) -> Option<PlainText<'a>>
        ensures text { IfSome result (λ plain. plain ≡ text.now) }
        ensures plain { IsSome result ↔ IsTrue (list_all is_plain text.now) }
    {
        if are_plain(text.as_bytes()) {
            Some(PlainText { text })
        } else {
            None
        }
    }

    /// The text. O(1).
    pub fn as_str(&self) -> &str
        ensures text { result.now ≡ self.now }
        ensures plain { IsTrue (list_all is_plain self.now) }
    {
        self.text
    }
}

fn are_plain(bytes: &[u8]) -> bool
    ensures { result ≡ list_all is_plain bytes.now }
{
    bytes.iter().all(|byte| is_plain(*byte))
}

fn is_plain(byte: u8) -> bool
    ensures { result ≡ is_plain byte }
{
    byte != b'"' && byte != b'\\' && byte >= b' '
}
