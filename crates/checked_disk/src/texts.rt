//! The plain lines of a log's file, read from the front on.

ghost use Rattle.std.specs.Prelude.{◌≡◌, ◌+◌, ◌^◌, ◌<◌, ◌≤◌, ℕ, List, Option, Some, IfOk, OnOk, drop, length, min, take, true};
ghost use Rattle.checked_disk.specs.Plain.{plain_contents};
ghost use Rattle.checked_disk.specs.Files.{IsQuiet};
ghost use Rattle.checked_disk.specs.Reading.{IsReading, KeepsTail};

use crate::files::LogFiles;
use crate::held::Held;
use crate::reader::Reader;
use checked_log::Link;
use table_log::DiskFailed;

/// What was read of a log behind `base`, and handed out.
#[derive(Drop)]
pub(crate) struct Texts {
    pub(crate) base: Link,
    pub(crate) reader: Reader,
    /// How many bytes of the plain lines were handed out, and how many of them the reader still has at its front.
    pub(crate) read_at: u64,
    pub(crate) handed: usize,
    pub(crate) piece: Vec<u8>,
}

impl Texts {
    /// Begins at the front again.
    pub(crate) fn rewind(&mut self)
        ensures base { self.new.base ≡ self.old.base }
        ensures read_at { self.new.read_at ≡ 0 }
        ensures tail { self.new.reader.tail ≡ self.old.reader.tail }
        ensures durable { self.new.reader.durable ≡ self.old.reader.durable }
        ensures reading { (contents : Option (List ℕ)) → IsReading contents self.new }
    {
        self.reader.reset(self.base);
        self.read_at = 0;
        self.handed = 0;
    }

    // Whether it can read on from this place: from the front, or where it ended.
    fn begin_at(&mut self, at: u64) -> bool
        ensures base { self.new.base ≡ self.old.base }
        ensures place { result ≡ true → self.new.read_at ≡ at }
        ensures tail { self.new.reader.tail ≡ self.old.reader.tail }
        ensures durable { self.new.reader.durable ≡ self.old.reader.durable }
        ensures reading { (contents : Option (List ℕ)) → IsReading contents self.old → IsReading contents self.new }
    {
        if at == 0 {
            self.rewind();
            return true;
        }
        at == self.read_at
    }

    // Reads a piece of the file, where all that was found was handed out.
    fn read_piece<F: LogFiles>(&mut self, disk: &mut Held<F>) -> Result<(), DiskFailed>
        requires used { self.old.handed ≡ length self.old.reader.plain.items }
        requires reading { IsReading (F.contents disk.old.files) self.old }
        ensures base { self.new.base ≡ self.old.base }
        ensures contents { F.contents disk.new.files ≡ F.contents disk.old.files }
        ensures size { disk.new.size ≡ disk.old.size }
        ensures quiet { IsQuiet F.written F.may_leave F.moment F.left_since disk.old.files disk.new.files }
        ensures tail { KeepsTail (F.contents disk.old.files) self.old self.new }
        ensures further { OnOk result ((self.old.reader.place < self.new.reader.place) × (self.new.reader.place ≤ disk.old.size)) }
        ensures read_at { OnOk result (self.new.read_at ≡ self.old.read_at) }
        ensures reading { IsReading (F.contents disk.old.files) self.new }
    {
        let place = self.reader.place;
        if place >= disk.size {
            return Err(DiskFailed);
        }
        let piece: &mut [u8] = &mut self.piece;
        let count = disk.read(place, piece)?;
        if count == 0 {
            return Err(DiskFailed);
        }
        let (front, _) = piece.split_at(count);
        let tail = self.reader.tail;
        self.reader.plain.clear();
        self.handed = 0;
        match self.reader.take(front) {
            Ok(()) => Ok(()),
            Err(_) => {
                self.reader.tail = tail;
                self.rewind();
                Err(DiskFailed)
            }
        }
    }

    // Reads on until there are bytes to hand out.
    fn read_some<F: LogFiles>(&mut self, disk: &mut Held<F>) -> Result<(), DiskFailed>
        requires reading { IsReading (F.contents disk.old.files) self.old }
        ensures base { self.new.base ≡ self.old.base }
        ensures contents { F.contents disk.new.files ≡ F.contents disk.old.files }
        ensures size { disk.new.size ≡ disk.old.size }
        ensures quiet { IsQuiet F.written F.may_leave F.moment F.left_since disk.old.files disk.new.files }
        ensures tail { KeepsTail (F.contents disk.old.files) self.old self.new }
        ensures some { OnOk result (self.new.handed < length self.new.reader.plain.items) }
        ensures read_at { OnOk result (self.new.read_at ≡ self.old.read_at) }
        ensures reading { IsReading (F.contents disk.old.files) self.new }
    {
        while self.handed >= self.reader.plain.len() {
            self.read_piece(disk)?;
        }
        Ok(())
    }

    // Hands out as many bytes as there are, and as there is room for.
    fn hand_out(&mut self, room: &mut [u8]) -> usize
        requires some { self.old.handed ≤ length self.old.reader.plain.items }
        requires few { self.old.read_at + length room.old < 2 ^ 64 }
        ensures count { result ≡ min (length room.old) (length (drop self.old.handed self.old.reader.plain.items)) }
        ensures room { length room.new ≡ length room.old }
        ensures bytes { take result room.new ≡ take result (drop self.old.handed self.old.reader.plain.items) }
        ensures base { self.new.base ≡ self.old.base }
        ensures read_at { self.new.read_at ≡ self.old.read_at + result }
        ensures tail { self.new.reader.tail ≡ self.old.reader.tail }
        ensures durable { self.new.reader.durable ≡ self.old.reader.durable }
        ensures reading { (contents : Option (List ℕ)) → IsReading contents self.old → IsReading contents self.new }
    {
        let found = &self.reader.plain[self.handed..];
        let count = room.len().min(found.len());
        room[..count].copy_from_slice(&found[..count]);
        self.handed += count;
        self.read_at += count as u64;
        count
    }

    /// Reads plain lines from a place on: the front, or where it ended. One byte or more.
    pub(crate) fn read_on<F: LogFiles>(
        &mut self,
        disk: &mut Held<F>,
        at: u64,
        room: &mut [u8],
    ) -> Result<usize, DiskFailed>
        requires some { 0 < length room.old }
        requires few { at + length room.old < 2 ^ 64 }
        requires reading { IsReading (F.contents disk.old.files) self.old }
        ensures count { IfOk result (λ count. (0 < count) × (count ≤ length room.old)) }
        ensures room { length room.new ≡ length room.old }
        ensures bytes { IfOk result (λ count. (known : List ℕ) → plain_contents self.old.base (F.contents disk.old.files) ≡ Some known → take count room.new ≡ take count (drop at known)) }
        ensures base { self.new.base ≡ self.old.base }
        ensures contents { F.contents disk.new.files ≡ F.contents disk.old.files }
        ensures size { disk.new.size ≡ disk.old.size }
        ensures quiet { IsQuiet F.written F.may_leave F.moment F.left_since disk.old.files disk.new.files }
        ensures tail { KeepsTail (F.contents disk.old.files) self.old self.new }
        ensures reading { IsReading (F.contents disk.old.files) self.new }
    {
        if !self.begin_at(at) {
            return Err(DiskFailed);
        }
        self.read_some(disk)?;
        Ok(self.hand_out(room))
    }
}
