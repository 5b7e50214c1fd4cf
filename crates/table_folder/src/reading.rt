//! What stands in a log whose bytes come in pieces.

ghost use Rattle.std.specs.Prelude.{◌≡◌, ◌+◌, ◌<◌, ◌≤◌, ◌++◌, ◌∷◌, ℕ, List, [], Some, IfOk, MatchOption, OnOk, drop, length};
ghost use Rattle.checked_log.specs.Cuts.{Lacks};
ghost use Rattle.table_folder.specs.Ended.{ended_of};

use crate::digesting::{PIECE, room_for};
use crate::ended::Ended;
use memchr::memchr;
use std::alloc::{AllocError, Global};
use table_log::Disk;
use table_state::StateWhy;

// What stands before the first newline, and behind it.
fn cut_at_newline(text: &[u8]) -> Option<(&[u8], &[u8])>
    ensures { MatchOption result (Lacks 10 text.now) (λ p. Lacks 10 p.0.now × (text.now ≡ p.0.now ++ (10 ∷ p.1.now))) }
{
    let place = memchr(b'\n', text)?;
    Some((&text[..place], &text[place + 1..]))
}

/// What the bytes so far say, and what stands behind the last newline.
#[derive(Drop)]
pub(crate) struct LogReader {
    ended: Ended,
    line: Vec<u8>,
}

impl LogReader {
    ghost use Rattle.table_folder.specs.Ended.{with_line};
    ghost use Rattle.table_folder.specs.Reading.{Takes};

    /// Nothing was taken yet.
    pub(crate) fn new(alloc: Global, begun: Ended) -> LogReader
        ensures { (result.ended ≡ begun) × (result.line.items ≡ []) }
    {
        LogReader {
            ended: begun,
            line: Vec::new(alloc),
        }
    }

    // Takes the line that a newline ends now.
    fn end_line(&mut self)
        ensures { (self.new.ended ≡ with_line self.old.ended self.old.line.items) × (self.new.line.items ≡ []) }
    {
        self.ended.take(&self.line);
        self.line.clear();
    }

    /// Takes further bytes.
    pub(crate) fn take(&mut self, piece: &[u8]) -> Result<(), AllocError>
        requires { Lacks 10 self.old.line.items }
        ensures { OnOk result (Takes self.old piece.now [] self.new) }
    {
        let mut left = piece;
        while let Some((front, rest)) = cut_at_newline(left) {
            self.line.extend_from_slice(front)?;
            self.end_line();
            left = rest;
        }
        self.line.extend_from_slice(left)?;
        Ok(())
    }

    /// What all bytes say.
    #[tactic(auto, using(crate::proofs::Pieces::end_empty, crate::proofs::Pieces::end_rest))]
    pub(crate) fn finish(mut self) -> Ended
        requires { Lacks 10 self.line.items }
        ensures { result ≡ ended_of self.ended self.line.items }
    {
        if !self.line.is_empty() {
            self.ended.take_rest();
        }
        self.ended
    }
}

// Takes further bytes from a place on, and counts them.
fn take_piece<D: Disk>(
    disk: &mut D,
    at: u64,
    piece: &mut [u8],
    reader: &mut LogReader,
) -> Result<usize, StateWhy>
    requires before { at < D.size disk.old }
    requires room { 0 < length piece.old }
    requires lacks { Lacks 10 reader.old.line.items }
    ensures within { IfOk result (λ count. (0 < count) × (at + count ≤ D.size disk.old)) }
    ensures lacks { OnOk result (Lacks 10 reader.new.line.items) }
    ensures rest { IfOk result (λ count. (bytes : List ℕ) → D.contents disk.old ≡ Some bytes
        → ended_of reader.old.ended (reader.old.line.items ++ drop at bytes) ≡ ended_of reader.new.ended (reader.new.line.items ++ drop (at + count) bytes)) }
    ensures contents { D.contents disk.new ≡ D.contents disk.old }
    ensures size { D.size disk.new ≡ D.size disk.old }
    ensures length { length piece.new ≡ length piece.old }
{
    let count = disk.read(at, piece)?;
    reader.take(&piece[..count])?;
    Ok(count)
}

// What stands in all bytes of a disk, which are read into this piece.
fn read_through<D: Disk>(
    disk: &mut D,
    piece: &mut [u8],
    mut reader: LogReader,
) -> Result<Ended, StateWhy>
    requires room { 0 < length piece.old }
    requires none { reader.line.items ≡ [] }
    ensures { IfOk result (λ ended. (bytes : List ℕ) → D.contents disk.old ≡ Some bytes → ended ≡ ended_of reader.ended bytes) }
{
    let size = disk.size();
    let mut at = 0u64;
    while at < size {
        at += take_piece(disk, at, piece, &mut reader)? as u64;
    }
    Ok(reader.finish())
}

/// What stands in a log, of which no line came yet. O(bytes).
pub(crate) fn read_log<D: Disk>(
    alloc: Global,
    disk: &mut D,
    begun: Ended,
) -> Result<Ended, StateWhy>
    ensures { IfOk result (λ ended. (bytes : List ℕ) → D.contents disk.old ≡ Some bytes → ended ≡ ended_of begun bytes) }
{
    let mut piece = room_for(alloc, PIECE)?;
    read_through(disk, &mut piece, LogReader::new(alloc, begun))
}
