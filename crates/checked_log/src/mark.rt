//! The mark of a log: which write is known to be durable.

ghost use Rattle.std.specs.Prelude.{◌≡◌, ◌≢◌, ◌++◌, ◌∷◌, [], IfOk, MatchOption, OnErr, OnOk};
ghost use Rattle.checked_log.specs.Mark.{LinkFits, later as spec_later, mark_covered, mark_of as spec_mark_of, mark_text, marks_of, slot_mark as spec_slot_mark};
ghost use Rattle.checked_log.specs.declared.recovery.Link.{Link as SaidLink};

use crate::fields::{ahead_of, behind, cut_at, hex_behind, read_number};
use crate::hex_digits::hex_of;
use crate::recovery::Link;
use crate::signed::signed_rest;
use crate::write::{push_all, sign};
use itoa::Buffer;
use std::alloc::AllocError;

/// How many bytes a mark has: two slots of half as many.
pub const MARK_BYTES: usize = 1024;

const SLOT_BYTES: usize = 512;

/// What a mark says.
#[derive(Clone, Copy, Debug, PartialEq, Eq)]
pub struct Marks {
    /// The later of the two slots' marks.
    pub mark: Option<Link>,
    /// Where the slot begins that is written next: the one that has not that mark.
    pub next: usize,
}

// What stands in the part of a slot that its digest covers.
fn read_link(text: &[u8]) -> Option<Link>
    ensures { MatchOption result ((m : SaidLink) → LinkFits m → text.now ≢ mark_covered m) (λ m. LinkFits m × (text.now ≡ mark_covered m)) }
{
    let (digest, rest) = hex_behind(text, b"\"e\":\"")?;
    let rest = behind(rest, b"\",\"n\":")?;
    let digits = ahead_of(rest, b"}")?;
    let number = read_number(digits)?;
    Some(Link { number, digest })
}

// What a line of a slot says.
fn mark_of(text: &[u8]) -> Option<Link>
    ensures { result ≡ spec_mark_of text.now }
{
    let (_, covered) = signed_rest(text)?;
    read_link(covered)
}

// What a slot says.
fn slot_mark(slot: &[u8]) -> Option<Link>
    ensures { result ≡ spec_slot_mark slot.now }
{
    let (line, _) = cut_at(slot, b'\n')?;
    mark_of(line)
}

// The later of two marks, and the other one's place.
fn later(first: Option<Link>, second: Option<Link>) -> Marks
    ensures { result ≡ spec_later first second }
{
    let (mark, next) = match (first, second) {
        (Some(first), Some(second)) if first.number < second.number => (Some(second), 0),
        (Some(first), _) => (Some(first), SLOT_BYTES),
        (None, second) => (second, 0),
    };
    Marks { mark, next }
}

/// What the bytes of a mark say, also where they are broken. O(bytes).
pub fn read_marks(bytes: &[u8]) -> Marks
    ensures { result ≡ marks_of bytes.now }
{
    let (first, second) = bytes.split_at(bytes.len().min(SLOT_BYTES));
    later(slot_mark(first), slot_mark(second))
}

/// Appends the text of a slot with its newline, whole or not at all. It is as long as 73 bytes at most, and the rest of a slot may have any bytes. O(1).
pub fn push_mark(text: &mut Vec<u8>, link: Link) -> Result<(), AllocError>
    ensures all { OnOk result (text.new.items ≡ text.old.items ++ (mark_text link ++ (10 ∷ []))) }
    ensures none { OnErr result (text.new.items ≡ text.old.items) }
{
    let start = text.len();
    let mut digits = Buffer::new();
    let digest = hex_of(link.digest);
    push_all(
        text,
        &[
            b"{\"c\":\"0000000000000000\",\"e\":\"",
            &digest,
            b"\",\"n\":",
            digits.format(link.number).as_bytes(),
            b"}\n",
        ],
    )?;
    let _ = sign(text, start);
    Ok(())
}
