//! The plain lines of a log's bytes, which come in pieces.

ghost use Rattle.std.specs.Prelude.{◌≡◌, ℕ, ◌+◌, ◌^◌, ◌<◌, ◌≤◌, ◌++◌, ◌∷◌, [], OnOk, length};

use crate::cut::cut_at_newline;
use checked_log::{Link, Walk};
use std::alloc::{AllocError, Global};

/// What the bytes so far say.
#[derive(Drop)]
pub(crate) struct Reader {
    mark: Option<Link>,
    pub(crate) walk: Walk,
    /// How many bytes were taken.
    pub(crate) place: u64,
    /// What stands behind the last newline.
    line: Vec<u8>,
    /// The writes that were found since this was emptied last, each with a newline.
    pub(crate) plain: Vec<u8>,
    /// All writes up to this number are durable, and where the line of the last of them ends that was taken.
    pub(crate) durable: u64,
    pub(crate) tail: u64,
}

// Where the durable lines end, as far as they were taken, behind the line of a number, which ends at a place.
fn tail_behind(tail: u64, durable: u64, number: u64, end: u64) -> u64
    ensures grows { tail ≤ result }
    ensures within { (most : ℕ) → (number ≤ durable → end ≤ most) → tail ≤ most → result ≤ most }
{
    if number <= durable {
        tail.max(end)
    } else {
        tail
    }
}

impl Reader {
    ghost use Rattle.checked_log.specs.Recover.{walk_from};
    ghost use Rattle.checked_disk.specs.Reading.{EndsLine, IsSound, Takes};

    /// Nothing was taken yet.
    pub(crate) fn new(alloc: Global, base: Link, mark: Option<Link>) -> Reader
        ensures walk { result.walk ≡ walk_from base mark }
        ensures mark { result.mark ≡ mark }
        ensures none { (result.place ≡ 0) × (result.line.items ≡ []) × (result.plain.items ≡ []) }
        ensures durable { result.durable ≡ 0 }
        ensures sound { IsSound result }
    {
        Reader {
            mark,
            walk: Walk::new(base, mark),
            place: 0,
            line: Vec::new(alloc),
            plain: Vec::new(alloc),
            durable: 0,
            tail: 0,
        }
    }

    /// Begins anew.
    pub(crate) fn reset(&mut self, base: Link)
        ensures walk { self.new.walk ≡ walk_from base self.old.mark }
        ensures mark { self.new.mark ≡ self.old.mark }
        ensures none { (self.new.place ≡ 0) × (self.new.line.items ≡ []) × (self.new.plain.items ≡ []) }
        ensures durable { self.new.durable ≡ self.old.durable }
        ensures tail { self.new.tail ≡ self.old.tail }
        ensures sound { IsSound self.new }
    {
        self.line.clear();
        self.plain.clear();
        self.walk = Walk::new(base, self.mark);
        self.place = 0;
    }

    /// Takes the memory that reading needs once more, where no piece has more bytes.
    pub(crate) fn reserve(&mut self, piece: usize) -> Result<(), AllocError>
        ensures kept { self.new ≡ record self.old { plain = self.new.plain } }
        ensures plain { self.new.plain.items ≡ self.old.plain.items }
    {
        self.plain
            .reserve(self.line.capacity().saturating_add(piece))
    }

    // Takes the line that a newline ends now.
    fn end_line(&mut self) -> Result<(), AllocError>
        requires { self.old.walk.so_far.end + self.old.walk.so_far.behind.lines + length self.old.line.items < self.old.place }
        ensures ends { OnOk result (EndsLine self.old self.new) }
        ensures durable { self.new.durable ≡ self.old.durable }
    {
        let place = self.place;
        let Some(said) = self.walk.take(self.mark, &self.line) else {
            self.line.clear();
            return Ok(());
        };
        self.plain.extend_from_slice(said.write)?;
        self.plain.push(b'\n')?;
        let end = place.min(self.walk.so_far.end as u64);
        self.tail = tail_behind(self.tail, self.durable, said.number, end);
        self.line.clear();
        Ok(())
    }

    /// Takes further bytes.
    pub(crate) fn take(&mut self, piece: &[u8]) -> Result<(), AllocError>
        requires few { self.old.place + length piece.now < 2 ^ 64 }
        requires sound { IsSound self.old }
        ensures takes { OnOk result (Takes self.old piece.now [] self.new) }
        ensures durable { self.new.durable ≡ self.old.durable }
    {
        let mut left = piece;
        while let Some((front, rest)) = cut_at_newline(left) {
            self.line.extend_from_slice(front)?;
            self.place += front.len() as u64 + 1;
            self.end_line()?;
            left = rest;
        }
        self.line.extend_from_slice(left)?;
        self.place += left.len() as u64;
        Ok(())
    }
}
