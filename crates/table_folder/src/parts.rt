//! Parts of what stands on a disk.

ghost use Rattle.std.specs.Prelude.{◌≡◌, ◌+◌, ◌-◌, ◌<◌, ◌≤◌, ℕ, List, Some, IfOk, drop, length, take};

use crate::digesting::{PIECE, room_for};
use std::alloc::Global;
use table_log::Disk;
use table_state::StateWhy;

/// Reads bytes from a place on, one or more, but no more than so many, and counts them.
pub(crate) fn read_some<D: Disk>(
    disk: &mut D,
    at: u64,
    most: u64,
    piece: &mut [u8],
) -> Result<usize, StateWhy>
    requires some { 0 < most }
    requires within { at + most ≤ D.size disk.old }
    requires room { 0 < length piece.old }
    ensures within { IfOk result (λ count. (0 < count) × (count ≤ most) × (count ≤ length piece.new)) }
    ensures read { IfOk result (λ count. (bytes : List ℕ) → D.contents disk.old ≡ Some bytes → take count piece.new ≡ take count (drop at bytes)) }
    ensures contents { D.contents disk.new ≡ D.contents disk.old }
    ensures size { D.size disk.new ≡ D.size disk.old }
    ensures length { length piece.new ≡ length piece.old }
{
    let room = if most < piece.len() as u64 {
        most as usize
    } else {
        piece.len()
    };
    let count = disk.read(at, &mut piece[..room])?;
    Ok(count)
}

// What stands from one place to another, which is read into this piece.
fn read_through<D: Disk>(
    alloc: Global,
    disk: &mut D,
    first: u64,
    end: u64,
    piece: &mut [u8],
) -> Result<Vec<u8>, StateWhy>
    requires from { first ≤ end }
    requires within { end ≤ D.size disk.old }
    requires room { 0 < length piece.old }
    ensures read { IfOk result (λ part. (bytes : List ℕ) → D.contents disk.old ≡ Some bytes → part.items ≡ take (end - first) (drop first bytes)) }
    ensures contents { D.contents disk.new ≡ D.contents disk.old }
    ensures size { D.size disk.new ≡ D.size disk.old }
{
    let mut part = Vec::new(alloc);
    let mut at = first;
    while at < end {
        let more = read_some(disk, at, end - at, piece)?;
        part.extend_from_slice(&piece[..more])?;
        at += more as u64;
    }
    Ok(part)
}

/// What stands from one place to another. O(bytes).
pub(crate) fn read_part<D: Disk>(
    alloc: Global,
    disk: &mut D,
    first: u64,
    end: u64,
) -> Result<Vec<u8>, StateWhy>
    requires from { first ≤ end }
    requires within { end ≤ D.size disk.old }
    ensures read { IfOk result (λ part. (bytes : List ℕ) → D.contents disk.old ≡ Some bytes → part.items ≡ take (end - first) (drop first bytes)) }
    ensures contents { D.contents disk.new ≡ D.contents disk.old }
    ensures size { D.size disk.new ≡ D.size disk.old }
{
    let mut piece = room_for(alloc, PIECE)?;
    read_through(alloc, disk, first, end, &mut piece)
}
