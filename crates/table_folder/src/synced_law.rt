//! What a start finds of the bytes that a disk has synced.

ghost use Rattle.std.specs.Prelude.{◌≡◌, ◌≤◌, ◌++◌, ℕ, List, Some};
ghost use Rattle.checked_disk.specs.Files.{Left};
ghost use Rattle.checked_disk.specs.Plain.{plain_lines};
ghost use Rattle.checked_disk.specs.Safe.{IsSafeAt, KeepsSure, entries_of};
ghost use Rattle.checked_log.specs.Line.{Entry};
ghost use Rattle.checked_log.specs.Whole.{ended};
ghost use Rattle.table_folder.specs.Disk.{Image};
ghost use Rattle.table_folder.specs.Found.{Beginning, Declared};
ghost use Rattle.table_folder.specs.Joined.{AreAccepted, GoesFrom, HasNoOther, IsJoined, MayFollow};
ghost use Rattle.table_folder.specs.Synced.{FindsSynced};
ghost use Rattle.table_terms.specs.Table.{TableState};

use checked_disk::{CheckedDisk, LogFiles};
use table_log::{Disk, LoggedTable, Mark};

/// A law of all logs that are open. Whatever a crash leaves now, a start finds the table after a front of the disk's bytes, with as many of them as the disk says are synced.
pub fn what_is_synced_is_found<F: LogFiles>(disk: &CheckedDisk<F>)
    ensures { (d : Declared) (from : Beginning) (files image : Image) (bytes : List ℕ) (t : TableState) (sure : ℕ) (c : Left)
        → let es = entries_of from.link (F.contents disk.now.disk.files) in
        GoesFrom d from files → AreAccepted from.table es t → disk.now.texts.base ≡ from.link → ⟦<CheckedDisk<F> as Disk>⟧.contents disk.now ≡ Some bytes
        → IsSafeAt sure disk.now → F.may_leave disk.now.disk.files c
        → HasNoOther from.link es sure (ended c.log) → IsJoined files from.state c image → FindsSynced d from bytes (⟦<CheckedDisk<F> as Disk>⟧.synced disk.now) image }
{}

/// A law of all calls of a log that is open. A crash at any moment of one leaves what was synced before it: a start finds the table after a front of the bytes that the disk had and
/// of those that were being appended, with as many of them.
pub fn what_was_synced_is_found<F: LogFiles>(old: &CheckedDisk<F>, new: &CheckedDisk<F>)
    ensures { (d : Declared) (from : Beginning) (files image : Image) (bytes : List ℕ) (more : List Entry) (t : TableState) (sure : ℕ) (c : Left)
        → let es = entries_of from.link (F.contents old.now.disk.files) in
        GoesFrom d from files → AreAccepted from.table (es ++ more) t → old.now.texts.base ≡ from.link → ⟦<CheckedDisk<F> as Disk>⟧.contents old.now ≡ Some bytes
        → IsSafeAt sure old.now → KeepsSure old.now new.now → F.left_since new.now.disk.files (F.moment old.now.disk.files) c → MayFollow from.link es more sure
        → HasNoOther from.link (es ++ more) sure (ended c.log) → IsJoined files from.state c image
        → FindsSynced d from (bytes ++ plain_lines more) (⟦<CheckedDisk<F> as Disk>⟧.synced old.now) image }
{}

/// A law of all tables with their logs. `LoggedTable::disk` hands out the disk of one, and `is_synced` says of a mark that what was answered rests on synced bytes. Whatever a crash
/// leaves then, a start finds the table after a front of the log, which has all bytes up to the mark.
pub fn what_was_answered_is_found<F: LogFiles>(
    logged: &LoggedTable<CheckedDisk<F>>,
    disk: &CheckedDisk<F>,
    mark: Mark,
)
    ensures { (d : Declared) (from : Beginning) (files image : Image) (bytes : List ℕ) (sure : ℕ) (c : Left)
        → let es = entries_of from.link (F.contents disk.now.disk.files) in
        GoesFrom d from files → AreAccepted from.table es logged.now.table → disk.now.texts.base ≡ from.link
        → ⟦<CheckedDisk<F> as Disk>⟧.contents disk.now ≡ logged.now.bytes → ⟦<CheckedDisk<F> as Disk>⟧.synced disk.now ≡ logged.now.synced
        → logged.now.bytes ≡ Some bytes → mark.bytes ≤ logged.now.synced → IsSafeAt sure disk.now → F.may_leave disk.now.disk.files c
        → HasNoOther from.link es sure (ended c.log) → IsJoined files from.state c image → FindsSynced d from bytes mark.bytes image }
{}
