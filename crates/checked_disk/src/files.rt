//! The files of a log and of its mark, and what a crash leaves of them.

ghost use Rattle.std.specs.Prelude.{◌≡◌, ◌≤◌, ◌++◌, ◌∷◌, [], Bool, true, ℕ, List, Option, Some, IfOk, OnErr, OnOk, option_map, take, length};
ghost use Rattle.std.specs.Io.{ReadsAtMost, WritesAtMost};
ghost use Rattle.table_engine.specs.Devices.{raised};
ghost use Rattle.file_disk.specs.File.{ReadsFrom, over, written_at};
ghost use Rattle.checked_log.specs.Mark.{LinkFits, mark_text};
ghost use Rattle.checked_log.specs.declared.recovery.Link.{Link};
ghost use Rattle.checked_disk.specs.Files.{Elapses, Follows, IsSettled, IsSettledTo, IsSlot, Left, LeavesLess, Marked, Shortened, Writes, WritesNone, Wrote, taken};

use std::io;

/// The log's file, which is read and written at any place, and beside it the mark's, which has two slots. The log's must not be open for appending, where a system writes behind the
/// other bytes whatever the place.
///
/// Its clauses say what a crash may leave at each moment. They are assumed of real files: a write over the same bytes leaves them, also where the power goes; a sync that succeeds makes
/// sure of each place that was written since the files were opened, or since a sync failed; a torn slot says nothing; and nobody else writes to them.
pub trait LogFiles: Drop {
    /// The log's bytes, where they are known.
    ghost contents: { Self → Option (List ℕ) };

    /// The mark's bytes, where they are known.
    ghost mark: { Self → Option (List ℕ) };

    /// How often the log was settled.
    ghost settles: { Self → ℕ };

    /// How often a slot was put.
    ghost puts: { Self → ℕ };

    /// The places of the log that were written since the files were opened, or since a sync failed.
    ghost written: { Self → ℕ → Bool };

    /// What a crash at this moment may leave.
    ghost may_leave: { Self → Left → Type 0 };

    /// The moment, as a number that does not fall.
    ghost moment: { Self → ℕ };

    /// What a crash at some moment from that one on might have left, during a call or between two.
    ghost left_since: { Self → ℕ → Left → Type 0 };

    /// Reads bytes of the log from a place on, in one call. None where it ends there.
    fn read_from(&mut self, at: u64, piece: &mut [u8]) -> io::Result<usize>
        ensures bound { ReadsAtMost result piece.new }
        ensures room { length piece.new ≡ length piece.old }
        ensures bytes { IfOk result (λ count. ReadsFrom (contents self.old) at piece.new count) }
        ensures kept { contents self.new ≡ contents self.old }
        ensures mark { mark self.new ≡ mark self.old }
        ensures settles { settles self.new ≡ settles self.old }
        ensures puts { puts self.new ≡ puts self.old }
        ensures places { WritesNone (written self.old) (written self.new) }
        ensures crash { LeavesLess (may_leave self.old) (may_leave self.new) }
        ensures time { Elapses (moment self.old) (moment self.new) (left_since self.old) (left_since self.new) (may_leave self.new) };

    /// Writes bytes of the log from a place on, over what stands there and behind it, in one call, as many as it likes.
    fn write_at(&mut self, at: u64, bytes: &[u8]) -> io::Result<usize>
        requires { (known : List ℕ) → contents self.old ≡ Some known → at ≤ length known }
        ensures bound { WritesAtMost result bytes.now }
        ensures bytes { contents self.new ≡ written_at result at bytes.now (contents self.old) }
        ensures mark { mark self.new ≡ mark self.old }
        ensures settles { settles self.new ≡ settles self.old }
        ensures puts { puts self.new ≡ puts self.old }
        ensures places { Writes (written self.old) (written self.new) at (taken result) }
        ensures crash { Follows (Wrote at bytes.now) (may_leave self.old) (may_leave self.new) }
        ensures time { Elapses (moment self.old) (moment self.new) (left_since self.old) (left_since self.new) (may_leave self.new) };

    /// Takes away what stands behind the first bytes of the log.
    fn shorten(&mut self, count: u64) -> io::Result<()>
        ensures cut { OnOk result (contents self.new ≡ option_map (take count) (contents self.old)) }
        ensures kept { OnErr result (contents self.new ≡ contents self.old) }
        ensures mark { mark self.new ≡ mark self.old }
        ensures settles { settles self.new ≡ settles self.old }
        ensures puts { puts self.new ≡ puts self.old }
        ensures places { WritesNone (written self.old) (written self.new) }
        ensures crash { Follows (Shortened count) (may_leave self.old) (may_leave self.new) }
        ensures time { Elapses (moment self.old) (moment self.new) (left_since self.old) (left_since self.new) (may_leave self.new) };

    /// Waits until the system has the log's bytes where a crash leaves them. One that fails makes sure of nothing, and one after it of nothing that was written before.
    fn settle(&mut self) -> io::Result<()>
        ensures kept { contents self.new ≡ contents self.old }
        ensures mark { mark self.new ≡ mark self.old }
        ensures settles { OnOk result (settles self.new ≡ raised (settles self.old)) }
        ensures puts { puts self.new ≡ puts self.old }
        ensures places { OnOk result (WritesNone (written self.old) (written self.new)) }
        ensures forgotten { OnErr result ((p : ℕ) → written self.new p ≡ true → written self.old p ≡ true) }
        ensures durable { OnOk result (IsSettled (contents self.old) (written self.old) (may_leave self.new)) }
        ensures crash { LeavesLess (may_leave self.old) (may_leave self.new) }
        ensures time { Elapses (moment self.old) (moment self.new) (left_since self.old) (left_since self.new) (may_leave self.new) };

    /// Begins a settle that goes on beside the calls of these files. It waits for nothing.
    fn begin_settle(&mut self)
        ensures kept { contents self.new ≡ contents self.old }
        ensures mark { mark self.new ≡ mark self.old }
        ensures settles { settles self.new ≡ settles self.old }
        ensures puts { puts self.new ≡ puts self.old }
        ensures places { WritesNone (written self.old) (written self.new) }
        ensures crash { LeavesLess (may_leave self.old) (may_leave self.new) }
        ensures time { Elapses (moment self.old) (moment self.new) (left_since self.old) (left_since self.new) (may_leave self.new) };

    /// How many of the log's first bytes the settle made sure of that was begun last: those that were there, as far as none of them was written again. None where it did not
    /// come to its end. It fails where that failed, with all that a failed settle means.
    fn end_settle(&mut self) -> io::Result<u64>
        ensures kept { contents self.new ≡ contents self.old }
        ensures mark { mark self.new ≡ mark self.old }
        ensures puts { puts self.new ≡ puts self.old }
        ensures places { IfOk result (λ _. WritesNone (written self.old) (written self.new)) }
        ensures durable { IfOk result (λ count. IsSettledTo count (contents self.old) (written self.old) (may_leave self.new)) }
        ensures crash { LeavesLess (may_leave self.old) (may_leave self.new) }
        ensures time { Elapses (moment self.old) (moment self.new) (left_since self.old) (left_since self.new) (may_leave self.new) };

    /// Writes a slot of the mark, over what stands there, whole. It need not wait until the system has it where a crash leaves it.
    fn put_mark(&mut self, at: u64, slot: &[u8]) -> io::Result<()>
        ensures bytes { OnOk result (mark self.new ≡ option_map (over at slot.now) (mark self.old)) }
        ensures kept { contents self.new ≡ contents self.old }
        ensures settles { settles self.new ≡ settles self.old }
        ensures puts { OnOk result (puts self.new ≡ raised (puts self.old)) }
        ensures places { WritesNone (written self.old) (written self.new) }
        ensures crash { (link : Link) → IsSlot at → LinkFits link → slot.now ≡ mark_text link ++ (10 ∷ []) → Follows (Marked at slot.now) (may_leave self.old) (may_leave self.new) }
        ensures time { Elapses (moment self.old) (moment self.new) (left_since self.old) (left_since self.new) (may_leave self.new) };

    /// This moment is one of those since an earlier one.
    ghost counts_now: { (files : Self) (t : ℕ) (c : Left) → t ≤ moment files → may_leave files c → left_since files t c };

    /// Since this moment there is no other.
    ghost only_now: { (files : Self) (c : Left) → left_since files (moment files) c → may_leave files c };
}
