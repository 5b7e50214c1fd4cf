//! The files of a log that is kept, and how many bytes it has.

ghost use Rattle.std.specs.Prelude.{◌≡◌, ◌+◌, ◌<◌, ◌≤◌, ◌^◌, ◌++◌, ◌∷◌, [], true, ℕ, List, max, Some, IfOk, OnErr, OnOk, length, take, option_map};
ghost use Rattle.std.specs.Io.{WritesAtMost};
ghost use Rattle.table_engine.specs.Devices.{raised};
ghost use Rattle.table_log.specs.Disk.{Reads};
ghost use Rattle.file_disk.specs.File.{over, written_at};
ghost use Rattle.checked_log.specs.Mark.{LinkFits, mark_text};
ghost use Rattle.checked_log.specs.declared.recovery.Link.{Link};
ghost use Rattle.checked_disk.specs.Files.{Elapses, Follows, IsQuiet, IsSettled, IsSettledTo, IsSlot, LeavesLess, Marked, Shortened, Writes, WritesNone, taken};
ghost use Rattle.checked_disk.specs.Stands.{WriteLasts};

use crate::again::{read_again, write_again};
use crate::files::LogFiles;
use std::io;
use table_log::DiskFailed;

/// The files of a log, and how many bytes it has.
#[derive(Drop)]
pub(crate) struct Held<F: LogFiles> {
    pub(crate) files: F,
    pub(crate) size: u64,
    ghost counted: { (bytes : List ℕ) → F.contents files ≡ Some bytes → size ≡ length bytes },
}

impl<F: LogFiles> Held<F> {
    /// Reads bytes from a place on, one or more where there are any.
    pub(crate) fn read(&mut self, at: u64, piece: &mut [u8]) -> Result<usize, DiskFailed>
        requires { at ≤ self.old.size }
        ensures bytes { IfOk result (λ count. Reads (F.contents self.old.files) self.old.size at (length piece.old) piece.new count) }
        ensures contents { F.contents self.new.files ≡ F.contents self.old.files }
        ensures size { self.new.size ≡ self.old.size }
        ensures mark { F.mark self.new.files ≡ F.mark self.old.files }
        ensures settles { F.settles self.new.files ≡ F.settles self.old.files }
        ensures puts { F.puts self.new.files ≡ F.puts self.old.files }
        ensures quiet { IsQuiet F.written F.may_leave F.moment F.left_since self.old.files self.new.files }
    {
        let left = self.size - at;
        let room = if left < piece.len() as u64 {
            left as usize
        } else {
            piece.len()
        };
        if room == 0 {
            return Ok(0);
        }
        match read_again(&mut self.files, at, &mut piece[..room]) {
            Ok(0) | Err(_) => Err(DiskFailed),
            Ok(count) => Ok(count),
        }
    }

    // Writes as many bytes from a place on as one call takes.
    fn put(&mut self, at: u64, bytes: &[u8]) -> io::Result<usize>
        requires within { at ≤ self.old.size }
        requires room { at + length bytes.now < 2 ^ 64 }
        ensures bound { WritesAtMost result bytes.now }
        ensures bytes { F.contents self.new.files ≡ written_at result at bytes.now (F.contents self.old.files) }
        ensures size { self.new.size ≡ max self.old.size (at + taken result) }
        ensures mark { F.mark self.new.files ≡ F.mark self.old.files }
        ensures settles { F.settles self.new.files ≡ F.settles self.old.files }
        ensures puts { F.puts self.new.files ≡ F.puts self.old.files }
        ensures places { Writes (F.written self.old.files) (F.written self.new.files) at (taken result) }
        ensures lasts { WriteLasts F.may_leave F.moment F.left_since at bytes.now self.old.files self.new.files }
    {
        let put = write_again(&mut self.files, at, bytes);
        if let Ok(count) = &put {
            self.size = self.size.max(at + *count as u64);
        }
        put
    }

    /// Writes bytes from a place on, over what stands there and behind it. At an `Err` a front of them is there. O(bytes).
    pub(crate) fn write(&mut self, at: u64, bytes: &[u8]) -> Result<(), DiskFailed>
        requires { at ≤ self.old.size }
        ensures ok { OnOk result ((F.contents self.new.files ≡ option_map (over at bytes.now) (F.contents self.old.files)) × (self.new.size ≡ max self.old.size (at + length bytes.now))) }
        ensures front { OnErr result ((n : ℕ) × (n < length bytes.now)
            × (F.contents self.new.files ≡ option_map (over at (take n bytes.now)) (F.contents self.old.files)) × (self.new.size ≡ max self.old.size (at + n))) }
        ensures mark { F.mark self.new.files ≡ F.mark self.old.files }
        ensures settles { F.settles self.new.files ≡ F.settles self.old.files }
        ensures puts { F.puts self.new.files ≡ F.puts self.old.files }
        ensures places { OnOk result (Writes (F.written self.old.files) (F.written self.new.files) at (length bytes.now)) }
        ensures some { Writes (F.written self.old.files) (F.written self.new.files) at 0 }
        ensures lasts { WriteLasts F.may_leave F.moment F.left_since at bytes.now self.old.files self.new.files }
    {
        let Some(_end) = at.checked_add(bytes.len() as u64) else {
            return Err(DiskFailed);
        };
        let mut place = at;
        let mut rest = bytes;
        while !rest.is_empty() {
            match self.put(place, rest) {
                Ok(0) | Err(_) => return Err(DiskFailed),
                Ok(count) => {
                    let (_, behind) = rest.split_at(count);
                    place += count as u64;
                    rest = behind;
                }
            }
        }
        Ok(())
    }

    /// Takes away what stands behind the first bytes, and leaves it to a sync to make sure of that. O(1).
    pub(crate) fn shorten(&mut self, count: u64) -> Result<(), DiskFailed>
        requires { count ≤ self.old.size }
        ensures cut { OnOk result ((F.contents self.new.files ≡ option_map (take count) (F.contents self.old.files)) × (self.new.size ≡ count)) }
        ensures kept { OnErr result ((F.contents self.new.files ≡ F.contents self.old.files) × (self.new.size ≡ self.old.size)) }
        ensures mark { F.mark self.new.files ≡ F.mark self.old.files }
        ensures settles { F.settles self.new.files ≡ F.settles self.old.files }
        ensures puts { F.puts self.new.files ≡ F.puts self.old.files }
        ensures places { WritesNone (F.written self.old.files) (F.written self.new.files) }
        ensures crash { Follows (Shortened count) (F.may_leave self.old.files) (F.may_leave self.new.files) }
        ensures time { Elapses (F.moment self.old.files) (F.moment self.new.files) (F.left_since self.old.files) (F.left_since self.new.files) (F.may_leave self.new.files) }
    {
        match self.files.shorten(count) {
            Ok(()) => {
                self.size = count;
                Ok(())
            }
            Err(_) => Err(DiskFailed),
        }
    }

    /// Makes sure of what was written. O(1).
    pub(crate) fn settle(&mut self) -> Result<(), DiskFailed>
        ensures contents { F.contents self.new.files ≡ F.contents self.old.files }
        ensures size { self.new.size ≡ self.old.size }
        ensures mark { F.mark self.new.files ≡ F.mark self.old.files }
        ensures settles { OnOk result (F.settles self.new.files ≡ raised (F.settles self.old.files)) }
        ensures puts { F.puts self.new.files ≡ F.puts self.old.files }
        ensures places { OnOk result (WritesNone (F.written self.old.files) (F.written self.new.files)) }
        ensures forgotten { OnErr result ((p : ℕ) → F.written self.new.files p ≡ true → F.written self.old.files p ≡ true) }
        ensures durable { OnOk result (IsSettled (F.contents self.old.files) (F.written self.old.files) (F.may_leave self.new.files)) }
        ensures crash { LeavesLess (F.may_leave self.old.files) (F.may_leave self.new.files) }
        ensures time { Elapses (F.moment self.old.files) (F.moment self.new.files) (F.left_since self.old.files) (F.left_since self.new.files) (F.may_leave self.new.files) }
    {
        match self.files.settle() {
            Ok(()) => Ok(()),
            Err(_) => Err(DiskFailed),
        }
    }

    /// Begins to make sure of what was written, beside the calls. O(1).
    pub(crate) fn begin_settle(&mut self)
        ensures contents { F.contents self.new.files ≡ F.contents self.old.files }
        ensures size { self.new.size ≡ self.old.size }
        ensures mark { F.mark self.new.files ≡ F.mark self.old.files }
        ensures settles { F.settles self.new.files ≡ F.settles self.old.files }
        ensures puts { F.puts self.new.files ≡ F.puts self.old.files }
        ensures places { WritesNone (F.written self.old.files) (F.written self.new.files) }
        ensures crash { LeavesLess (F.may_leave self.old.files) (F.may_leave self.new.files) }
        ensures time { Elapses (F.moment self.old.files) (F.moment self.new.files) (F.left_since self.old.files) (F.left_since self.new.files) (F.may_leave self.new.files) }
    {
        self.files.begin_settle();
    }

    /// How many of the first bytes were made sure of beside the calls. O(1).
    pub(crate) fn end_settle(&mut self) -> Result<u64, DiskFailed>
        ensures contents { F.contents self.new.files ≡ F.contents self.old.files }
        ensures size { self.new.size ≡ self.old.size }
        ensures mark { F.mark self.new.files ≡ F.mark self.old.files }
        ensures puts { F.puts self.new.files ≡ F.puts self.old.files }
        ensures places { IfOk result (λ _. WritesNone (F.written self.old.files) (F.written self.new.files)) }
        ensures durable { IfOk result (λ count. IsSettledTo count (F.contents self.old.files) (F.written self.old.files) (F.may_leave self.new.files)) }
        ensures crash { LeavesLess (F.may_leave self.old.files) (F.may_leave self.new.files) }
        ensures time { Elapses (F.moment self.old.files) (F.moment self.new.files) (F.left_since self.old.files) (F.left_since self.new.files) (F.may_leave self.new.files) }
    {
        match self.files.end_settle() {
            Ok(count) => Ok(count),
            Err(_) => Err(DiskFailed),
        }
    }

    /// Puts a slot of the mark. O(1).
    pub(crate) fn put_mark(&mut self, at: u64, slot: &[u8]) -> Result<(), DiskFailed>
        ensures bytes { OnOk result (F.mark self.new.files ≡ option_map (over at slot.now) (F.mark self.old.files)) }
        ensures contents { F.contents self.new.files ≡ F.contents self.old.files }
        ensures size { self.new.size ≡ self.old.size }
        ensures settles { F.settles self.new.files ≡ F.settles self.old.files }
        ensures puts { OnOk result (F.puts self.new.files ≡ raised (F.puts self.old.files)) }
        ensures places { WritesNone (F.written self.old.files) (F.written self.new.files) }
        ensures crash { (link : Link) → IsSlot at → LinkFits link → slot.now ≡ mark_text link ++ (10 ∷ []) → Follows (Marked at slot.now) (F.may_leave self.old.files) (F.may_leave self.new.files) }
        ensures time { Elapses (F.moment self.old.files) (F.moment self.new.files) (F.left_since self.old.files) (F.left_since self.new.files) (F.may_leave self.new.files) }
    {
        match self.files.put_mark(at, slot) {
            Ok(()) => Ok(()),
            Err(_) => Err(DiskFailed),
        }
    }
}
