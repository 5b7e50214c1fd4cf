//! The digest of what stands on a disk.

ghost use Rattle.std.specs.Prelude.{◌≡◌, ◌+◌, ◌<◌, ◌≤◌, ℕ, List, Some, IfOk, drop, length, take};
ghost use Rattle.checked_log.specs.Digest.{digest, finished};

use crate::parts::read_some;
use checked_log::Digesting;
use std::alloc::Global;
use table_log::Disk;
use table_state::StateWhy;

/// How many bytes are read at a time.
pub(crate) const PIECE: usize = 65_536;

// Takes further bytes from a place on, before the end of a front, and counts them.
fn take_piece<D: Disk>(
    disk: &mut D,
    at: u64,
    end: u64,
    piece: &mut [u8],
    digesting: &mut Digesting,
) -> Result<usize, StateWhy>
    requires before { at < end }
    requires within { end ≤ D.size disk.old }
    requires room { 0 < length piece.old }
    ensures within { IfOk result (λ count. (0 < count) × (at + count ≤ end)) }
    ensures rest { IfOk result (λ count. (bytes : List ℕ) → D.contents disk.old ≡ Some bytes
        → finished digesting.new (drop (at + count) (take end bytes)) ≡ finished digesting.old (drop at (take end bytes))) }
    ensures contents { D.contents disk.new ≡ D.contents disk.old }
    ensures size { D.size disk.new ≡ D.size disk.old }
    ensures length { length piece.new ≡ length piece.old }
{
    let count = read_some(disk, at, end - at, piece)?;
    digesting.take(&piece[..count]);
    Ok(count)
}

// The digest of so many bytes at the front of a disk, which are read into this piece.
fn digest_through<D: Disk>(disk: &mut D, end: u64, piece: &mut [u8]) -> Result<u64, StateWhy>
    requires within { end ≤ D.size disk.old }
    requires room { 0 < length piece.old }
    ensures digest { IfOk result (λ found. (bytes : List ℕ) → D.contents disk.old ≡ Some bytes → found ≡ digest (take end bytes)) }
    ensures contents { D.contents disk.new ≡ D.contents disk.old }
    ensures size { D.size disk.new ≡ D.size disk.old }
{
    let mut digesting = Digesting::new(end as usize);
    let mut at = 0u64;
    while at < end {
        at += take_piece(disk, at, end, piece, &mut digesting)? as u64;
    }
    Ok(digesting.finish())
}

/// Room for so many bytes.
pub(crate) fn room_for(alloc: Global, count: usize) -> Result<Vec<u8>, StateWhy>
    ensures { IfOk result (λ piece. length piece.items ≡ count) }
{
    Ok(vec![in alloc; 0u8; count]?)
}

/// The digest of so many bytes at the front of a disk. O(bytes).
pub(crate) fn digest_of_front<D: Disk>(
    alloc: Global,
    disk: &mut D,
    end: u64,
) -> Result<u64, StateWhy>
    requires { end ≤ D.size disk.old }
    ensures digest { IfOk result (λ found. (bytes : List ℕ) → D.contents disk.old ≡ Some bytes → found ≡ digest (take end bytes)) }
    ensures contents { D.contents disk.new ≡ D.contents disk.old }
    ensures size { D.size disk.new ≡ D.size disk.old }
{
    let mut piece = room_for(alloc, PIECE)?;
    digest_through(disk, end, &mut piece)
}

/// The digest of all bytes of a disk. O(bytes).
pub(crate) fn digest_of_disk<D: Disk>(alloc: Global, disk: &mut D) -> Result<u64, StateWhy>
    ensures digest { IfOk result (λ found. (bytes : List ℕ) → D.contents disk.old ≡ Some bytes → found ≡ digest bytes) }
    ensures contents { D.contents disk.new ≡ D.contents disk.old }
    ensures size { D.size disk.new ≡ D.size disk.old }
{
    let end = disk.size();
    digest_of_front(alloc, disk, end)
}
