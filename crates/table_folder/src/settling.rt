//! Makes a table's log ready to be written.

ghost use Rattle.std.specs.Prelude.{◌≡◌, ◌⊎◌, ◌+◌, ◌≤◌, ℕ, List, Option, Some, None, cond, IfOk, OnErr, OnOk, length, option_map, take};
ghost use Rattle.checked_disk.specs.Files.{other_slot};
ghost use Rattle.checked_disk.specs.Kept.{slot_of};
ghost use Rattle.checked_disk.specs.Plain.{plain_contents, plain_text};
ghost use Rattle.checked_disk.specs.Resumed.{IsKeptOf, unsettled};
ghost use Rattle.checked_disk.specs.Safe.{IsSafeAt, KeepsSure, MakesSure, entries_of};
ghost use Rattle.checked_disk.specs.Stands.{StandsFrom, WasSafe};
ghost use Rattle.checked_log.specs.Line.{Entry};
ghost use Rattle.checked_log.specs.declared.mark.Marks.{Marks};
ghost use Rattle.file_disk.specs.File.{over};
ghost use Rattle.table_folder.specs.declared.name.FileName.{FileName};
ghost use Rattle.table_folder.specs.declared.name.FileName.TheVariants.{Log as LogName, Mark as MarkName};
ghost use Rattle.table_folder.specs.Base.{state_in};
ghost use Rattle.table_folder.specs.Disk.{KeepsOthers, one, two};
ghost use Rattle.table_folder.specs.Opened.{IsOpened, bytes_in};
ghost use Rattle.table_folder.specs.Settled.{Runs};
ghost use Rattle.table_folder.specs.Settling.{AsBefore, ClosedBound, IsThere, LeavesLines, LeavesOpened, MadeBound, MayOpen, SeesSame, WasReady, any_left, put_unseen, synced_log};

use crate::about::About;
use crate::fault::FolderFault;
use crate::folder::Folder;
use crate::name::FileName;
use checked_disk::{CheckedDisk, Kept, RecoverFault, RecoverWhy};
use std::alloc::Global;
use table_log::Disk;

/// Waits until the system has the names.
pub(crate) fn settle_names<F: Folder>(folder: &mut F) -> Result<(), FolderFault>
    ensures runs { Runs F.was F.has F.moment F.left_since folder.old folder.new (AsBefore (F.was folder.old) (F.has folder.old)) }
    ensures seen { (n : FileName) → F.seen folder.new n ≡ F.seen folder.old n }
    ensures left { (n : FileName) (c : Option (List ℕ)) → F.has folder.new n c → F.has folder.old n c }
    ensures no_older { OnOk result ((n : FileName) (c : Option (List ℕ)) → F.was folder.new n c → ⊥) }
{
    match folder.settle_names() {
        Ok(()) => Ok(()),
        Err(error) => Err(FolderFault::of_names(&error)),
    }
}

// Makes an empty file at a name, where it is absent.
fn make_absent<F: Folder>(folder: &mut F, name: FileName) -> Result<(), FolderFault>
    ensures runs { Runs F.was F.has F.moment F.left_since folder.old folder.new (λ n c. AsBefore (F.was folder.old) (F.has folder.old) n c ⊎ put_unseen (F.seen folder.old) name n c) }
    ensures others { KeepsOthers (one name) (F.seen folder.old) (F.seen folder.new) }
    ensures same { OnOk result (SeesSame (F.seen folder.old name) (F.seen folder.new name)) }
    ensures there { OnOk result (IsThere (F.seen folder.old) (F.has folder.old) (F.has folder.new) name) }
    ensures left { (n : FileName) (c : Option (List ℕ)) → F.has folder.new n c → F.has folder.old n c ⊎ put_unseen (F.seen folder.old) name n c }
{
    match folder.look(name) {
        Ok(Some(_)) => return Ok(()),
        Ok(None) => {}
        Err(error) => return Err(FolderFault::of_file(&error, name)),
    }
    match folder.make(name) {
        Ok(()) => Ok(()),
        Err(error) => Err(FolderFault::of_file(&error, name)),
    }
}

// Makes the log that begins so and the mark, where they are absent, and waits until the system has the names.
fn make_files<F: Folder>(folder: &mut F, begin: Option<u64>) -> Result<(), FolderFault>
    ensures runs { Runs F.was F.has F.moment F.left_since folder.old folder.new (MadeBound (F.seen folder.old) begin (AsBefore (F.was folder.old) (F.has folder.old))) }
    ensures others { KeepsOthers (two (LogName begin) MarkName) (F.seen folder.old) (F.seen folder.new) }
    ensures same { OnOk result ((n : FileName) → two (LogName begin) MarkName n → SeesSame (F.seen folder.old n) (F.seen folder.new n)) }
    ensures there { OnOk result ((n : FileName) → two (LogName begin) MarkName n → IsThere (F.seen folder.old) (F.has folder.old) (F.has folder.new) n) }
    ensures no_older { OnOk result ((n : FileName) (c : Option (List ℕ)) → F.was folder.new n c → ⊥) }
{
    settle_names(folder)?;
    make_absent(folder, FileName::Log(begin))?;
    make_absent(folder, FileName::Mark)?;
    settle_names(folder)
}

// The fault of a log that is gone on with.
fn of_resuming(why: RecoverWhy, name: FileName) -> FolderFault {
    match why {
        RecoverWhy::Memory => FolderFault::Memory,
        _ => FolderFault::File(name),
    }
}

// Opens a log that was kept, with its mark. Where it can't be gone on with, it is closed.
fn open_kept<F: Folder>(
    alloc: Global,
    folder: &mut F,
    begin: Option<u64>,
    kept: Kept,
) -> Result<CheckedDisk<F::Log>, FolderFault>
    requires { (x : Option (List ℕ)) → F.seen folder.old (LogName begin) ≡ Some x → IsKeptOf (bytes_in x) kept }
    ensures same { OnOk result (folder.new ≡ folder.old) }
    ensures opened { IfOk result (λ disk. (size : ℕ) × IsOpened F.Log.contents F.Log.mark F.Log.may_leave (F.seen folder.old) (F.was folder.old) (F.has folder.old) begin (disk.disk.files, size)) }
    ensures base { IfOk result (λ disk. disk.texts.base ≡ kept.base) }
    ensures log { IfOk result (λ disk. disk.log ≡ unsettled kept.log) }
    ensures next { IfOk result (λ disk. disk.next ≡ kept.next) }
    ensures failures { IfOk result (λ disk. disk.failures ≡ 0) }
    ensures start { IfOk result (λ disk. (marks : Marks) (es : List Entry) → marks.next ≡ kept.next → kept.log.durable ≤ kept.base.number + length es
        → WasSafe kept.base marks es (F.Log.contents disk.disk.files) (F.Log.may_leave disk.disk.files) → IsSafeAt (kept.base.number + length es) disk) }
    ensures closed { OnErr result (Runs F.was F.has F.moment F.left_since folder.old folder.new
        (ClosedBound (MayOpen (F.was folder.old) (F.has folder.old) begin) begin (AsBefore (F.was folder.old) (F.has folder.old)))) }
{
    let name = FileName::Log(begin);
    let (log, size) = match folder.open_log(begin) {
        Ok(found) => found,
        Err(error) => return Err(FolderFault::of_file(&error, name)),
    };
    match CheckedDisk::resume(alloc, log, size, kept) {
        Ok(disk) => Ok(disk),
        Err(RecoverFault { files, why }) => {
            folder.close_log(begin, files);
            Err(of_resuming(why, name))
        }
    }
}

// Makes sure of a log that was opened. Where that fails it is closed.
fn sync_log<F: Folder>(
    folder: &mut F,
    begin: Option<u64>,
    disk: CheckedDisk<F::Log>,
) -> Result<CheckedDisk<F::Log>, FolderFault>
    ensures same { OnOk result (folder.new ≡ folder.old) }
    ensures base { IfOk result (λ after. after.texts.base ≡ disk.texts.base) }
    ensures log { IfOk result (λ after. after.log ≡ synced_log disk.log) }
    ensures next { IfOk result (λ after. after.next ≡ other_slot disk.next) }
    ensures failures { IfOk result (λ after. after.failures ≡ disk.failures) }
    ensures plain { IfOk result (λ after. plain_contents after.texts.base (F.Log.contents after.disk.files) ≡ plain_contents disk.texts.base (F.Log.contents disk.disk.files)) }
    ensures bytes { IfOk result (λ after. F.Log.contents after.disk.files ≡ cond disk.log.is_settled (F.Log.contents disk.disk.files) (option_map (take disk.log.end) (F.Log.contents disk.disk.files))) }
    ensures mark { IfOk result (λ after. F.Log.mark after.disk.files ≡ option_map (over disk.next (slot_of disk.log.last)) (F.Log.mark disk.disk.files)) }
    ensures sure { IfOk result (λ after. KeepsSure disk after) }
    ensures durable { IfOk result (λ after. MakesSure disk after) }
    ensures closed { OnErr result ((synced : ℕ) → IsSafeAt synced disk → Runs F.was F.has F.moment F.left_since folder.old folder.new
        (ClosedBound (StandsFrom disk.texts.base (entries_of disk.texts.base (F.Log.contents disk.disk.files)) synced) begin (AsBefore (F.was folder.old) (F.has folder.old)))) }
    ensures closed_so { OnErr result (Runs F.was F.has F.moment F.left_since folder.old folder.new (ClosedBound any_left begin (AsBefore (F.was folder.old) (F.has folder.old)))) }
{
    let mut disk = disk;
    match disk.sync() {
        Ok(()) => Ok(disk),
        Err(_) => {
            folder.close_log(begin, disk.into_files());
            Err(FolderFault::File(FileName::Log(begin)))
        }
    }
}

/// Makes the log of a table ready to be written. A log or a mark that is absent is made, and the system has their names before the log is opened. What stands behind its whole
/// lines is cut off, the lines that are not known to be durable are written again, and the mark tells the last. Where that fails the log is closed.
pub fn settle<F: Folder>(
    alloc: Global,
    folder: &mut F,
    about: &About,
) -> Result<CheckedDisk<F::Log>, FolderFault>
    requires { (x : Option (List ℕ)) → F.seen folder.old (LogName (state_in about.now.base)) ≡ Some x → IsKeptOf (bytes_in x) about.now.kept }
    ensures runs { OnOk result (Runs F.was F.has F.moment F.left_since folder.old folder.new
        (MadeBound (F.seen folder.old) (state_in about.now.base) (AsBefore (F.was folder.old) (F.has folder.old)))) }
    ensures runs_err { OnErr result (Runs F.was F.has F.moment F.left_since folder.old folder.new
        (ClosedBound any_left (state_in about.now.base) (MadeBound (F.seen folder.old) (state_in about.now.base) (AsBefore (F.was folder.old) (F.has folder.old))))) }
    ensures closed { OnErr result ((es : List Entry) (ready : WasReady about.now es (F.seen folder.old) (F.was folder.old) (F.has folder.old)) → Runs F.was F.has F.moment F.left_since folder.old folder.new
        (ClosedBound (LeavesLines about.now es ready.log) (state_in about.now.base) (MadeBound (F.seen folder.old) (state_in about.now.base) (AsBefore (F.was folder.old) (F.has folder.old))))) }
    ensures no_older { OnOk result ((n : FileName) (c : Option (List ℕ)) → F.was folder.new n c → ⊥) }
    ensures there { OnOk result ((n : FileName) → two (LogName (state_in about.now.base)) MarkName n → IsThere (F.seen folder.old) (F.has folder.old) (F.has folder.new) n) }
    ensures seen { OnOk result ((n : FileName) → two (LogName (state_in about.now.base)) MarkName n → SeesSame (F.seen folder.old n) (F.seen folder.new n)) }
    ensures others { OnOk result (KeepsOthers (two (LogName (state_in about.now.base)) MarkName) (F.seen folder.old) (F.seen folder.new)) }
    ensures base { IfOk result (λ disk. disk.texts.base ≡ about.now.kept.base) }
    ensures log { IfOk result (λ disk. disk.log ≡ synced_log about.now.kept.log) }
    ensures next { IfOk result (λ disk. disk.next ≡ other_slot about.now.kept.next) }
    ensures failures { IfOk result (λ disk. disk.failures ≡ 0) }
    ensures bytes { IfOk result (λ disk. (x : Option (List ℕ)) → F.seen folder.old (LogName (state_in about.now.base)) ≡ Some x
        → F.Log.contents disk.disk.files ≡ Some (take about.now.kept.log.end (bytes_in x))) }
    ensures plain { IfOk result (λ disk. (x : Option (List ℕ)) → F.seen folder.old (LogName (state_in about.now.base)) ≡ Some x
        → plain_contents disk.texts.base (F.Log.contents disk.disk.files) ≡ Some (plain_text about.now.kept.base (bytes_in x))) }
    ensures mark { IfOk result (λ disk. (x : Option (List ℕ)) → F.seen folder.old MarkName ≡ Some x
        → F.Log.mark disk.disk.files ≡ Some (over about.now.kept.next (slot_of about.now.kept.log.last) (bytes_in x))) }
    ensures safe { IfOk result (λ disk. (es : List Entry) → WasReady about.now es (F.seen folder.old) (F.was folder.old) (F.has folder.old) → IsSafeAt about.now.recovered.last.number disk) }
    ensures lines { IfOk result (λ disk. (es : List Entry) (ready : WasReady about.now es (F.seen folder.old) (F.was folder.old) (F.has folder.old))
        → LeavesOpened F.Log.contents F.Log.mark F.Log.may_leave F.Log.moment F.Log.left_since (F.seen folder.new) (F.was folder.new) (F.has folder.new) (state_in about.now.base) disk.disk.files (LeavesLines about.now es ready.log)) }
{
    let begin = about.base.state();
    make_files(folder, begin)?;
    let disk = open_kept(alloc, folder, begin, about.kept)?;
    sync_log(folder, begin, disk)
}
