//! What stands around the lines of a state in its file.

ghost use Rattle.std.specs.Prelude.{◌≡◌, ◌≢◌, ◌≤◌, ◌<◌, ◌^◌, ◌++◌, ◌↔◌, ℕ, List, Some, IfOk, IfSome, MatchOption, codes, take, true};
ghost use Rattle.table_folder.specs.StateFile.{signed, first_line as spec_first_line};
ghost use Rattle.table_folder.specs.StateIn.{IsFramed};

use crate::digesting::digest_of_front;
use crate::frame::{LAST_LINE, first_line, last_line};
use crate::parts::read_part;
use std::alloc::{AllocError, Global};
use table_log::Disk;
use table_state::StateWhy;

/// The first bytes of a state's file, and how many stand before its last line.
#[derive(Drop)]
pub(crate) struct Framed {
    pub(crate) line: Vec<u8>,
    pub(crate) before: u64,
}

// Whether behind so many bytes stands a last line with their digest, and nothing else.
fn is_signed<D: Disk>(alloc: Global, disk: &mut D, before: u64) -> Result<bool, StateWhy>
    requires { before ≤ D.size disk.old }
    ensures signed { IfOk result (λ is. (bytes : List ℕ) → D.contents disk.old ≡ Some bytes → (is ≡ true) ↔ (bytes ≡ signed (take before bytes))) }
    ensures contents { D.contents disk.new ≡ D.contents disk.old }
    ensures size { D.size disk.new ≡ D.size disk.old }
{
    let line = last_line(alloc, digest_of_front(alloc, disk, before)?)?;
    let end = disk.size();
    let found = read_part(alloc, disk, before, end)?;
    Ok(line.as_bytes() == found.as_slice())
}

/// Reads the first bytes of a state's file, so many, where it ends with the digest of all before its last line.
pub(crate) fn frame_of<D: Disk>(
    alloc: Global,
    disk: &mut D,
    first: u64,
) -> Result<Option<Framed>, StateWhy>
    ensures framed { IfOk result (λ framed. (bytes : List ℕ) → D.contents disk.old ≡ Some bytes → IsFramed first bytes framed) }
    ensures room { IfOk result (λ framed. IfSome framed (λ framed. first ≤ framed.before)) }
    ensures contents { D.contents disk.new ≡ D.contents disk.old }
    ensures size { D.size disk.new ≡ D.size disk.old }
{
    let Some(before) = disk.size().checked_sub(LAST_LINE as u64) else {
        return Ok(None);
    };
    if before < first {
        return Ok(None);
    }
    if !is_signed(alloc, disk, before)? {
        return Ok(None);
    }
    let line = read_part(alloc, disk, 0, first)?;
    Ok(Some(Framed { line, before }))
}

// What stands behind a front.
fn behind<'a>(text: &'a [u8], front: &[u8]) -> Option<&'a [u8]>
    ensures { MatchOption result ((rest : List ℕ) → text.now ≢ front.now ++ rest) (λ rest. text.now ≡ front.now ++ rest.now) }
{
    text.strip_prefix(front)
}

// What stands ahead of a back.
fn ahead_of<'a>(text: &'a [u8], back: &[u8]) -> Option<&'a [u8]>
    ensures { MatchOption result ((front : List ℕ) → text.now ≢ front ++ back.now) (λ front. text.now ≡ front.now ++ back.now) }
{
    text.strip_suffix(back)
}

// What stands between the types and the end of a first line.
fn digits_in<'a>(line: &'a [u8], types: &str) -> Option<&'a [u8]>
    ensures { MatchOption result
        ((digits : List ℕ) → line.now ≢ types.now ++ (codes ",\"e\":\"" ++ (digits ++ codes "\"}\n")))
        (λ digits. line.now ≡ types.now ++ (codes ",\"e\":\"" ++ (digits.now ++ codes "\"}\n"))) }
{
    let digest = behind(line, types.as_bytes())?;
    let digits = behind(digest, b",\"e\":\"")?;
    ahead_of(digits, b"\"}\n")
}

/// The digest in a first line of these types.
pub(crate) fn digest_in(alloc: Global, line: &[u8], types: &str) -> Result<Option<u64>, AllocError>
    ensures { IfOk result (λ found. MatchOption found ((e : ℕ) → e < 2 ^ 64 → line.now ≢ spec_first_line types.now e) (λ e. line.now ≡ spec_first_line types.now e)) }
{
    let Some(digits) = digits_in(line, types) else {
        return Ok(None);
    };
    let Ok(text) = std::str::from_utf8(digits) else {
        return Ok(None);
    };
    let Ok(digest) = u64::from_str_radix(text, 16) else {
        return Ok(None);
    };
    if first_line(alloc, types, digest)?.as_bytes() == line {
        Ok(Some(digest))
    } else {
        Ok(None)
    }
}
