//! A disk that checks itself.

ghost use Rattle.std.specs.Prelude.{◌≡◌, ◌⊎◌, ◌+◌, ◌<◌, ◌≤◌, ◌++◌, ◌∷◌, [], true, false, ℕ, List, Some, IfOk, IsTrue, OnErr, OnOk, length, option_map, take};
ghost use Rattle.table_engine.specs.Devices.{failures_after, raised};
ghost use Rattle.table_log.specs.Disk.{AppendsAll, Cuts, Reads, synced_after};
ghost use Rattle.file_disk.specs.File.{over};
ghost use Rattle.checked_log.specs.Line.{is_plain};
ghost use Rattle.checked_log.specs.Mark.{LinkFits};
ghost use Rattle.checked_disk.specs.Begun.{CountsBegun, HasLines, IsBegun};
ghost use Rattle.checked_disk.specs.Files.{LeavesOnly, WritesNone, other_slot};
ghost use Rattle.checked_disk.specs.Kept.{AppendsFront, AppendsLine, IsKept, Renews, link_at, log_after, slot_of};
ghost use Rattle.checked_disk.specs.Plain.{plain_contents};
ghost use Rattle.checked_disk.specs.Reading.{IsReading, IsTail};
ghost use Rattle.checked_disk.specs.Synced.{SyncedAreDurable};

use crate::cut::plain_write;
use crate::files::LogFiles;
use crate::held::Held;
use crate::tail::rewrite_from;
use crate::texts::Texts;
use checked_log::{Link, MARK_BYTES, push_line, push_mark};
use std::alloc::AllocError;
use table_log::{Disk, DiskFailed};

/// At least as many bytes as a line has beside its write's text, and as a slot of the mark has.
pub(crate) const LINE_ROOM: usize = 128;

const SLOT: usize = MARK_BYTES / 2;

// The place of the other slot.
fn other(at: usize) -> usize
    ensures { result ≡ other_slot at }
{
    if at == 0 { SLOT } else { 0 }
}

// A write's number, with the digest of its line.
fn link(number: u64, digest: u64) -> Link
    ensures is { result ≡ link_at number digest }
    ensures fits { LinkFits result }
{
    Link { number, digest }
}

// Whether more of a log is sure of which the first so many bytes are, and which was this before.
fn is_more(log: Log, was: Log, count: u64) -> bool
    ensures { IsTrue result → (log.is_settled ≡ true) × (was.end ≤ count) × (log.durable < was.last.number) × (was.last.number ≤ log.last.number) × (log.synced ≤ was.size) }
{
    log.is_settled
        && was.end <= count
        && log.durable < was.last.number
        && was.last.number <= log.last.number
        && log.synced <= was.size
}

/// What is known of a log.
#[derive(Clone, Copy)]
pub(crate) struct Log {
    /// Its last write.
    pub(crate) last: Link,
    /// All writes up to this number are known to be durable.
    pub(crate) durable: u64,
    /// Where its whole lines end, and whether they were made sure of: what stood behind them is cut off, and the tail is written again.
    pub(crate) end: u64,
    pub(crate) is_settled: bool,
    /// How many bytes the plain lines have, and how many of the first of them are synced.
    pub(crate) size: u64,
    pub(crate) synced: u64,
}

/// The plain lines of a log, whose file has them as lines with digests, and the mark beside it. After a sync that failed it makes sure of nothing any more.
///
/// What another program did to a file, recovery finds, but a copy of older files with their mark.
pub struct CheckedDisk<F: LogFiles> {
    pub(crate) disk: Held<F>,
    // The place of the mark's slot that is written next: the one that has not the greater number.
    pub(crate) next: usize,
    pub(crate) log: Log,
    pub(crate) texts: Texts,
    // A line or a slot that is written.
    pub(crate) line: Vec<u8>,
    pub(crate) failures: u64,
    // Whether a sync failed.
    pub(crate) is_over: bool,
    // What the log was when a sync was begun that goes on beside the calls.
    pub(crate) begun: Option<Log>,
    ghost kept: { (bytes : List ℕ) → F.contents disk.files ≡ Some bytes → IsKept texts.base bytes log.last log.end log.size },
    ghost reading: { IsReading (F.contents disk.files) texts },
    ghost within: { log.end ≤ disk.size },
    ghost told: { log.durable ≤ log.last.number },
    ghost tail: { IsTail (F.contents disk.files) texts },
    ghost durable: { texts.reader.durable ≤ log.durable },
    ghost sure: { SyncedAreDurable texts.base (F.contents disk.files) log },
    ghost had: { IsBegun texts.base (F.contents disk.files) begun },
    ghost written: { is_over ≡ false → log.is_settled ≡ true → (p : ℕ) → texts.reader.tail ≤ p → p < log.end → F.written disk.files p ≡ true },
}

// As a function: a derived drop is written out at each exit of each function that owns a disk.
impl<F: LogFiles> Drop for CheckedDisk<F> {
    fn drop(self) {
        let CheckedDisk {
            disk: _disk,
            next: _,
            log: _,
            texts: _texts,
            line: _line,
            failures: _,
            is_over: _,
            begun: _,
        } = self;
    }
}

impl<F: LogFiles> CheckedDisk<F> {
    ghost use Rattle.checked_disk.specs.Safe.{IsSafe, KeepsSure, MakesSure, entries_of};
    ghost use Rattle.checked_disk.specs.Stands.{StandsFrom};

    /// The last write's number, with the digest of its line. A state tells these. O(1).
    pub fn last(&self) -> Link
        ensures { result ≡ self.now.log.last }
    {
        self.log.last
    }

    /// The files of the log and its mark, which are lent. O(1).
    pub fn files(&self) -> &F
        ensures { result.now ≡ self.now.disk.files }
    {
        &self.disk.files
    }

    /// The files of the log and its mark. O(1).
    pub fn into_files(self) -> F
        ensures { result ≡ self.disk.files }
    {
        let CheckedDisk {
            disk,
            next: _,
            log: _,
            texts: _,
            line: _,
            failures: _,
            is_over: _,
            begun: _,
        } = self;
        let Held { files, size: _ } = disk;
        files
    }

    // Writes the line of a write behind the others, with which the plain lines have so many bytes.
    fn put_write(&mut self, write: &[u8], size: u64) -> Result<(), DiskFailed>
        requires plain { is_plain write.now ≡ true }
        requires size { size ≡ self.old.log.size + length (write.now ++ (10 ∷ [])) }
        ensures contents { AppendsAll result (plain_contents self.old.texts.base (F.contents self.old.disk.files)) (plain_contents self.new.texts.base (F.contents self.new.disk.files)) (write.now ++ (10 ∷ [])) }
        ensures line { OnOk result (AppendsLine (F.contents self.old.disk.files) (F.contents self.new.disk.files) self.old.log self.new.log (write.now ++ (10 ∷ []))) }
        ensures front { OnErr result (AppendsFront (F.contents self.old.disk.files) (F.contents self.new.disk.files) self.old.log self.new.log (write.now ++ (10 ∷ []))) }
        ensures failures { self.new.failures ≡ self.old.failures }
        ensures sure { KeepsSure self.old self.new }
    {
        let durable = self.log.durable;
        let before = self.log.last.digest;
        let Some(number) = self.log.last.number.checked_add(1) else {
            return Err(DiskFailed);
        };
        let end = self.log.end;
        if self.disk.size != end {
            return Err(DiskFailed);
        }
        self.line.clear();
        let Ok(digest) = push_line(&mut self.line, durable, number, before, write) else {
            return Err(DiskFailed);
        };
        self.texts.rewind();
        match self.disk.write(end, &self.line) {
            Ok(()) => {
                self.log = Log {
                    last: Link { number, digest },
                    end: self.disk.size,
                    size,
                    ..self.log
                };
                Ok(())
            }
            Err(failed) => Err(failed),
        }
    }

    // Writes a plain line, as the line of its write, behind the others.
    fn put_line(&mut self, bytes: &[u8]) -> Result<(), DiskFailed>
        ensures contents { AppendsAll result (plain_contents self.old.texts.base (F.contents self.old.disk.files)) (plain_contents self.new.texts.base (F.contents self.new.disk.files)) bytes.now }
        ensures line { OnOk result (AppendsLine (F.contents self.old.disk.files) (F.contents self.new.disk.files) self.old.log self.new.log bytes.now) }
        ensures front { OnErr result (AppendsFront (F.contents self.old.disk.files) (F.contents self.new.disk.files) self.old.log self.new.log bytes.now) }
        ensures failures { self.new.failures ≡ self.old.failures }
        ensures sure { KeepsSure self.old self.new }
    {
        let Some(write) = plain_write(bytes) else {
            return Err(DiskFailed);
        };
        let Some(size) = self.log.size.checked_add(bytes.len() as u64) else {
            return Err(DiskFailed);
        };
        self.put_write(write, size)
    }

    // Before the first sync since recovery: cuts off what stands behind the whole lines, and writes the tail again, the same bytes at the same places.
    fn renew(&mut self) -> Result<(), DiskFailed>
        requires { self.old.is_over ≡ false }
        ensures contents { plain_contents self.new.texts.base (F.contents self.new.disk.files) ≡ plain_contents self.old.texts.base (F.contents self.old.disk.files) }
        ensures log { self.new.log ≡ self.old.log }
        ensures base { self.new.texts.base ≡ self.old.texts.base }
        ensures entries { entries_of self.new.texts.base (F.contents self.new.disk.files) ≡ entries_of self.old.texts.base (F.contents self.old.disk.files) }
        ensures next { self.new.next ≡ self.old.next }
        ensures failures { self.new.failures ≡ self.old.failures }
        ensures is_over { self.new.is_over ≡ false }
        ensures tail { self.new.texts.reader.tail ≡ self.old.texts.reader.tail }
        ensures file { Renews result self.old.log (F.contents self.old.disk.files) (F.contents self.new.disk.files) }
        ensures mark { F.mark self.new.disk.files ≡ F.mark self.old.disk.files }
        ensures settles { F.settles self.new.disk.files ≡ F.settles self.old.disk.files }
        ensures puts { F.puts self.new.disk.files ≡ F.puts self.old.disk.files }
        ensures written { OnOk result ((p : ℕ) → self.old.texts.reader.tail ≤ p → p < self.old.log.end → F.written self.new.disk.files p ≡ true) }
        ensures below { (p : ℕ) → F.written self.new.disk.files p ≡ true → (F.written self.old.disk.files p ≡ true) ⊎ (self.old.texts.reader.tail ≤ p) }
        ensures sure { KeepsSure self.old self.new }
    {
        if self.log.is_settled {
            return Ok(());
        }
        self.begun = None;
        self.texts.rewind();
        self.disk.shorten(self.log.end)?;
        rewrite_from(
            &mut self.disk,
            self.texts.reader.tail,
            &mut self.texts.piece,
        )?;
        Ok(())
    }

    // Puts the mark of a write that the log has.
    fn put_mark(&mut self, last: Link) -> Result<(), DiskFailed>
        requires fits { LinkFits last }
        requires lines { (bytes : List ℕ) → F.contents self.old.disk.files ≡ Some bytes → HasLines self.old.texts.base bytes last }
        ensures contents { F.contents self.new.disk.files ≡ F.contents self.old.disk.files }
        ensures log { self.new.log ≡ self.old.log }
        ensures base { self.new.texts ≡ self.old.texts }
        ensures begun { self.new.begun ≡ self.old.begun }
        ensures is_over { self.new.is_over ≡ self.old.is_over }
        ensures failures { self.new.failures ≡ self.old.failures }
        ensures settles { F.settles self.new.disk.files ≡ F.settles self.old.disk.files }
        ensures mark { OnOk result (F.mark self.new.disk.files ≡ option_map (over self.old.next (slot_of last)) (F.mark self.old.disk.files)) }
        ensures puts { OnOk result (F.puts self.new.disk.files ≡ raised (F.puts self.old.disk.files)) }
        ensures next { OnOk result (self.new.next ≡ other_slot self.old.next) }
        ensures next_err { OnErr result (self.new.next ≡ self.old.next) }
        ensures places { WritesNone (F.written self.old.disk.files) (F.written self.new.disk.files) }
        ensures sure { (synced : ℕ) → IsSafe self.old.texts.base (F.contents self.old.disk.files) self.old.next last.number synced (F.may_leave self.old.disk.files)
            → LeavesOnly F.moment F.left_since self.old.disk.files self.new.disk.files (StandsFrom self.old.texts.base (entries_of self.old.texts.base (F.contents self.old.disk.files)) synced)
            × IsSafe self.old.texts.base (F.contents self.new.disk.files) self.new.next last.number synced (F.may_leave self.new.disk.files) }
    {
        self.line.clear();
        let Ok(()) = push_mark(&mut self.line, last) else {
            return Err(DiskFailed);
        };
        self.disk.put_mark(self.next as u64, &self.line)?;
        let next = other(self.next);
        self.next = next;
        Ok(())
    }

    // Makes sure of the whole lines, and marks the last write behind that.
    fn make_sure(&mut self) -> Result<(), DiskFailed>
        ensures contents { plain_contents self.new.texts.base (F.contents self.new.disk.files) ≡ plain_contents self.old.texts.base (F.contents self.old.disk.files) }
        ensures failures { self.new.failures ≡ self.old.failures }
        ensures log { self.new.log ≡ log_after result self.old.log }
        ensures file { Renews result self.old.log (F.contents self.old.disk.files) (F.contents self.new.disk.files) }
        ensures settles { OnOk result (F.settles self.new.disk.files ≡ raised (F.settles self.old.disk.files)) }
        ensures mark { OnOk result (F.mark self.new.disk.files ≡ option_map (over self.old.next (slot_of self.old.log.last)) (F.mark self.old.disk.files)) }
        ensures puts { OnOk result (F.puts self.new.disk.files ≡ raised (F.puts self.old.disk.files)) }
        ensures next { OnOk result (self.new.next ≡ other_slot self.old.next) }
        ensures below { (p : ℕ) → F.written self.new.disk.files p ≡ true → (F.written self.old.disk.files p ≡ true) ⊎ (self.old.texts.reader.tail ≤ p) }
        ensures sure { KeepsSure self.old self.new }
        ensures base { self.new.texts.base ≡ self.old.texts.base }
        ensures durable { OnOk result (MakesSure self.old self.new) }
        ensures over { OnOk result (self.old.is_over ≡ false) }
    {
        if self.is_over {
            return Err(DiskFailed);
        }
        self.renew()?;
        self.is_over = true;
        self.disk.settle()?;
        let last = link(self.log.last.number, self.log.last.digest);
        self.put_mark(last)?;
        self.log = Log {
            durable: self.log.last.number,
            is_settled: true,
            synced: self.log.size,
            ..self.log
        };
        self.is_over = false;
        Ok(())
    }

    // Makes sure of the lines that the log had when a sync was begun, as far as that made sure of the log's first bytes, and marks the last of them behind that.
    fn count_begun(&mut self, was: Log) -> Result<(), DiskFailed>
        requires { self.old.begun ≡ Some was }
        ensures contents { plain_contents self.new.texts.base (F.contents self.new.disk.files) ≡ plain_contents self.old.texts.base (F.contents self.old.disk.files) }
        ensures failures { self.new.failures ≡ self.old.failures }
        ensures log { CountsBegun result self.old.begun self.old.log self.new.log }
        ensures synced { OnOk result (self.old.log.synced ≤ self.new.log.synced) }
        ensures file { F.contents self.new.disk.files ≡ F.contents self.old.disk.files }
        ensures base { self.new.texts.base ≡ self.old.texts.base }
        ensures sure { KeepsSure self.old self.new }
    {
        if self.is_over {
            return Err(DiskFailed);
        }
        self.is_over = true;
        let count = self.disk.end_settle()?;
        if !is_more(self.log, was, count) {
            self.is_over = false;
            return Ok(());
        }
        let last = link(was.last.number, was.last.digest);
        self.put_mark(last)?;
        self.log = Log {
            durable: was.last.number,
            synced: was.size,
            ..self.log
        };
        self.is_over = false;
        Ok(())
    }
}

impl<F: LogFiles> Disk for CheckedDisk<F> {
    ghost use Rattle.checked_disk.specs.Safe.{KeepsSure, MakesSure};
    ghost use Rattle.checked_disk.specs.Same.{IsSame, same_goes_on, same_stays};

    ghost contents = { λ d. plain_contents d.texts.base (F.contents d.disk.files) };

    ghost size = { λ d. d.log.size };

    ghost synced = { λ d. d.log.synced };

    ghost failures = { λ d. d.failures };

    ghost same = { λ a b. IsSame a b };

    ghost stays = { λ d. same_stays d };

    ghost goes_on = { λ a b c first second. same_goes_on a b c first second };

    fn size(&self) -> u64 {
        self.log.size
    }

    fn synced(&self) -> u64 {
        self.log.synced
    }

    fn read(&mut self, at: u64, piece: &mut [u8]) -> Result<usize, DiskFailed>
        requires { at ≤ self.old.log.size }
        ensures bytes { IfOk result (λ count. Reads (plain_contents self.old.texts.base (F.contents self.old.disk.files)) self.old.log.size at (length piece.old) piece.new count) }
        ensures contents { plain_contents self.new.texts.base (F.contents self.new.disk.files) ≡ plain_contents self.old.texts.base (F.contents self.old.disk.files) }
        ensures size { self.new.log.size ≡ self.old.log.size }
        ensures synced { self.new.log.synced ≡ self.old.log.synced }
        ensures failures { self.new.failures ≡ failures_after result self.old.failures }
        ensures same { IsSame self.old self.new }
        ensures sure { KeepsSure self.old self.new }
    {
        let left = self.log.size - at;
        let room = if left < piece.len() as u64 {
            left as usize
        } else {
            piece.len()
        };
        if room == 0 {
            return Ok(0);
        }
        match self.texts.read_on(&mut self.disk, at, &mut piece[..room]) {
            Ok(count) => Ok(count),
            Err(failed) => {
                self.failures = self.failures.saturating_add(1);
                Err(failed)
            }
        }
    }

    fn reserve(&mut self, count: usize) -> Result<(), AllocError>
        ensures contents { plain_contents self.new.texts.base (F.contents self.new.disk.files) ≡ plain_contents self.old.texts.base (F.contents self.old.disk.files) }
        ensures size { self.new.log.size ≡ self.old.log.size }
        ensures synced { self.new.log.synced ≡ self.old.log.synced }
        ensures failures { self.new.failures ≡ self.old.failures }
        ensures sure { KeepsSure self.old self.new }
    {
        self.line.clear();
        self.line.reserve(count.saturating_add(LINE_ROOM))
    }

    fn append(&mut self, bytes: &[u8]) -> Result<(), DiskFailed>
        ensures contents { AppendsAll result (plain_contents self.old.texts.base (F.contents self.old.disk.files)) (plain_contents self.new.texts.base (F.contents self.new.disk.files)) bytes.now }
        ensures size { OnOk result (self.new.log.size ≡ self.old.log.size + length bytes.now) }
        ensures synced { self.new.log.synced ≡ self.old.log.synced }
        ensures failures { self.new.failures ≡ failures_after result self.old.failures }
        ensures line { OnOk result (AppendsLine (F.contents self.old.disk.files) (F.contents self.new.disk.files) self.old.log self.new.log bytes.now) }
        ensures front { OnErr result (AppendsFront (F.contents self.old.disk.files) (F.contents self.new.disk.files) self.old.log self.new.log bytes.now) }
        ensures sure { KeepsSure self.old self.new }
    {
        match self.put_line(bytes) {
            Ok(()) => Ok(()),
            Err(failed) => {
                self.failures = self.failures.saturating_add(1);
                Err(failed)
            }
        }
    }

    fn sync(&mut self) -> Result<(), DiskFailed>
        ensures contents { plain_contents self.new.texts.base (F.contents self.new.disk.files) ≡ plain_contents self.old.texts.base (F.contents self.old.disk.files) }
        ensures size { self.new.log.size ≡ self.old.log.size }
        ensures synced { self.new.log.synced ≡ synced_after result self.old.log.size self.old.log.synced }
        ensures failures { self.new.failures ≡ failures_after result self.old.failures }
        ensures log { self.new.log ≡ log_after result self.old.log }
        ensures file { Renews result self.old.log (F.contents self.old.disk.files) (F.contents self.new.disk.files) }
        ensures settles { OnOk result (F.settles self.new.disk.files ≡ raised (F.settles self.old.disk.files)) }
        ensures mark { OnOk result (F.mark self.new.disk.files ≡ option_map (over self.old.next (slot_of self.old.log.last)) (F.mark self.old.disk.files)) }
        ensures puts { OnOk result (F.puts self.new.disk.files ≡ raised (F.puts self.old.disk.files)) }
        ensures next { OnOk result (self.new.next ≡ other_slot self.old.next) }
        ensures below { (p : ℕ) → F.written self.new.disk.files p ≡ true → (F.written self.old.disk.files p ≡ true) ⊎ (self.old.texts.reader.tail ≤ p) }
        ensures sure { KeepsSure self.old self.new }
        ensures base { self.new.texts.base ≡ self.old.texts.base }
        ensures durable { OnOk result (MakesSure self.old self.new) }
        ensures over { OnOk result (self.old.is_over ≡ false) }
    {
        match self.make_sure() {
            Ok(()) => Ok(()),
            Err(failed) => {
                self.failures = self.failures.saturating_add(1);
                Err(failed)
            }
        }
    }

    fn begin_sync(&mut self)
        ensures contents { F.contents self.new.disk.files ≡ F.contents self.old.disk.files }
        ensures log { self.new.log ≡ self.old.log }
        ensures base { self.new.texts.base ≡ self.old.texts.base }
        ensures failures { self.new.failures ≡ self.old.failures }
        ensures begun { self.new.begun ≡ Some self.old.log }
        ensures sure { KeepsSure self.old self.new }
    {
        self.disk.begin_settle();
        self.begun = Some(self.log);
    }

    fn end_sync(&mut self) -> Result<(), DiskFailed>
        ensures contents { plain_contents self.new.texts.base (F.contents self.new.disk.files) ≡ plain_contents self.old.texts.base (F.contents self.old.disk.files) }
        ensures size { self.new.log.size ≡ self.old.log.size }
        ensures synced { OnOk result (self.old.log.synced ≤ self.new.log.synced) }
        ensures kept { OnErr result (self.new.log.synced ≡ self.old.log.synced) }
        ensures failures { self.new.failures ≡ failures_after result self.old.failures }
        ensures log { CountsBegun result self.old.begun self.old.log self.new.log }
        ensures file { F.contents self.new.disk.files ≡ F.contents self.old.disk.files }
        ensures base { self.new.texts.base ≡ self.old.texts.base }
        ensures sure { KeepsSure self.old self.new }
    {
        let Some(was) = self.begun else {
            return Ok(());
        };
        match self.count_begun(was) {
            Ok(()) => Ok(()),
            Err(failed) => {
                self.failures = self.failures.saturating_add(1);
                Err(failed)
            }
        }
    }

    fn cut(&mut self, count: u64) -> Result<(), DiskFailed>
        requires { count ≤ self.old.log.size }
        ensures contents { Cuts result count (plain_contents self.old.texts.base (F.contents self.old.disk.files)) (plain_contents self.new.texts.base (F.contents self.new.disk.files)) self.new.log.size self.new.log.synced }
        ensures failures { self.new.failures ≡ failures_after result self.old.failures }
        ensures log { self.new.log ≡ log_after result self.old.log }
        ensures file { Renews result self.old.log (F.contents self.old.disk.files) (F.contents self.new.disk.files) }
        ensures settles { OnOk result (F.settles self.new.disk.files ≡ raised (F.settles self.old.disk.files)) }
        ensures mark { OnOk result (F.mark self.new.disk.files ≡ option_map (over self.old.next (slot_of self.old.log.last)) (F.mark self.old.disk.files)) }
        ensures puts { OnOk result (F.puts self.new.disk.files ≡ raised (F.puts self.old.disk.files)) }
        ensures next { OnOk result (self.new.next ≡ other_slot self.old.next) }
        ensures below { (p : ℕ) → F.written self.new.disk.files p ≡ true → (F.written self.old.disk.files p ≡ true) ⊎ (self.old.texts.reader.tail ≤ p) }
        ensures sure { KeepsSure self.old self.new }
        ensures base { self.new.texts.base ≡ self.old.texts.base }
        ensures durable { OnOk result (MakesSure self.old self.new) }
        ensures over { OnOk result (self.old.is_over ≡ false) }
    {
        if count < self.log.size {
            self.failures = self.failures.saturating_add(1);
            return Err(DiskFailed);
        }
        self.sync()
    }

    ghost use Rattle.checked_disk.specs.Kept.{plain_size};

    ghost counted = { λ d bytes e. plain_size d.texts.base (F.contents d.disk.files) d.log.size bytes (λ known is. (d.kept known is).is_size) e };
}
