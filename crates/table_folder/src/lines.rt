//! How many lines stand on a disk.

ghost use Rattle.std.specs.Prelude.{◌≡◌, ◌+◌, ◌<◌, ◌≤◌, ℕ, List, Some, IfOk, drop, length};
ghost use Rattle.std.specs.List.{fold};
ghost use Rattle.table_folder.specs.Lines.{lines_of, no_lines, with_byte};

use crate::digesting::{PIECE, room_for};
use std::alloc::Global;
use table_log::Disk;
use table_state::StateWhy;

/// How many lines are ended by a newline, and whether bytes stand behind the last of them.
#[derive(Clone, Copy, Debug, PartialEq, Eq)]
pub(crate) struct Lines {
    pub(crate) count: u64,
    pub(crate) is_torn: bool,
}

impl Lines {
    // No byte came yet.
    fn none() -> Lines
        ensures { result ≡ no_lines }
    {
        Lines {
            count: 0,
            is_torn: false,
        }
    }

    // Takes a byte more.
    fn take_byte(&mut self, byte: u8)
        ensures { self.new ≡ with_byte self.old byte }
    {
        if byte == b'\n' {
            self.count = self.count.saturating_add(1);
            self.is_torn = false;
        } else {
            self.is_torn = true;
        }
    }

    // Takes further bytes.
    fn take(&mut self, piece: &[u8])
        ensures { self.new ≡ fold with_byte self.old piece.now }
    {
        for byte in piece {
            self.take_byte(*byte);
        }
    }
}

// Takes further bytes from a place on, and counts them.
fn take_piece<D: Disk>(
    disk: &mut D,
    at: u64,
    piece: &mut [u8],
    lines: &mut Lines,
) -> Result<usize, StateWhy>
    requires before { at < D.size disk.old }
    requires room { 0 < length piece.old }
    ensures within { IfOk result (λ count. (0 < count) × (at + count ≤ D.size disk.old)) }
    ensures rest { IfOk result (λ count. (bytes : List ℕ) → D.contents disk.old ≡ Some bytes
        → fold with_byte lines.old (drop at bytes) ≡ fold with_byte lines.new (drop (at + count) bytes)) }
    ensures contents { D.contents disk.new ≡ D.contents disk.old }
    ensures size { D.size disk.new ≡ D.size disk.old }
    ensures length { length piece.new ≡ length piece.old }
{
    let count = disk.read(at, piece)?;
    lines.take(&piece[..count]);
    Ok(count)
}

// How many lines stand on a disk, whose bytes are read into this piece.
fn count_through<D: Disk>(disk: &mut D, piece: &mut [u8]) -> Result<Lines, StateWhy>
    requires room { 0 < length piece.old }
    ensures { IfOk result (λ lines. (bytes : List ℕ) → D.contents disk.old ≡ Some bytes → lines ≡ lines_of bytes) }
{
    let size = disk.size();
    let mut lines = Lines::none();
    let mut at = 0u64;
    while at < size {
        at += take_piece(disk, at, piece, &mut lines)? as u64;
    }
    Ok(lines)
}

/// How many lines stand on a disk. O(bytes).
pub(crate) fn count_lines<D: Disk>(alloc: Global, disk: &mut D) -> Result<Lines, StateWhy>
    ensures { IfOk result (λ lines. (bytes : List ℕ) → D.contents disk.old ≡ Some bytes → lines ≡ lines_of bytes) }
{
    let mut piece = room_for(alloc, PIECE)?;
    count_through(disk, &mut piece)
}
