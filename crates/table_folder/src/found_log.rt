//! The log that a table goes on from, as a start finds it.

ghost use Rattle.std.specs.Prelude.{◌≡◌, ◌≢◌, ◌↔◌, ℕ, List, Ok, Option, Some, None, IfErr, IfOk, OnOk, true};
ghost use Rattle.checked_disk.specs.Kept.{IsRecovered};
ghost use Rattle.checked_disk.specs.Resumed.{IsKeptOf};
ghost use Rattle.checked_log.specs.Recover.{recovered_of};
ghost use Rattle.checked_log.specs.declared.recovery.Link.{Link};
ghost use Rattle.checked_log.specs.declared.recovery.Recovered.{Recovered};
ghost use Rattle.table_folder.specs.Base.{state_in};
ghost use Rattle.table_folder.specs.Compacting.{AreEarlier, AreSpent};
ghost use Rattle.table_folder.specs.Deciding.{IsFoundIn, IsThereWhereDeclared};
ghost use Rattle.table_folder.specs.Disk.{Image};
ghost use Rattle.table_folder.specs.Found.{Beginning, BeginsWith, Finds, declared_as};
ghost use Rattle.table_folder.specs.Opened.{bytes_in};
ghost use Rattle.table_folder.specs.Seen.{IsInterruption, IsSeen};
ghost use Rattle.table_folder.specs.StateIn.{beginning_of};
ghost use Rattle.table_folder.specs.declared.name.FileName.TheVariants.{Log as LogName, State as StateName};
ghost use Rattle.table_terms.specs.Table.{TableState};

use crate::about::About;
use crate::base::Base;
use crate::fault::FolderFault;
use crate::files::read_mark;
use crate::folder::Folder;
use crate::name::FileName;
use crate::spent::spent_logs;
use crate::state_in::{Begin, read_begin};
use checked_disk::{CheckedDisk, Found as Recovery, LogFiles};
use checked_log::Marks;
use std::alloc::Global;
use table_schema::TableSpec;
use table_step::Table;

/// The log of a table as a start finds it, which is open.
#[derive(Drop)]
pub struct FoundLog<L: LogFiles> {
    pub disk: CheckedDisk<L>,
    pub about: About,
    /// The table of the state that the log is behind, where there is one.
    pub table: Option<Table>,
}

/// Whether a file is there.
pub fn is_there<F: Folder>(folder: &F, name: FileName) -> Result<bool, FolderFault>
    ensures there { IfOk result (λ is. (x : Option (List ℕ)) → F.seen folder.now name ≡ Some x → (is ≡ true) ↔ (x ≢ None)) }
    ensures refused { IfErr result IsInterruption }
{
    match folder.look(name) {
        Ok(Some(_)) => Ok(true),
        Ok(None) => Ok(false),
        Err(error) => Err(FolderFault::of_file(&error, name)),
    }
}

// Refuses a declared table that has neither a state nor a log.
fn refuse_missing<F: Folder>(folder: &F, base: Base) -> Result<(), FolderFault>
    ensures there { OnOk result ((files : Image) → IsSeen (F.seen folder.now) files → IsThereWhereDeclared (state_in base) files) }
    ensures refused { IfErr result (λ fault. (files : Image) → IsSeen (F.seen folder.now) files → IsThereWhereDeclared (state_in base) files → IsInterruption fault) }
{
    if base.is_state {
        return Ok(());
    }
    let name = FileName::Log(None);
    if is_there(folder, name)? {
        return Ok(());
    }
    if is_there(folder, FileName::Declaration)? {
        return Err(FolderFault::Missing(name));
    }
    Ok(())
}

// Recovers the log behind a base, beside what the mark says.
fn recover_log<F: Folder>(
    alloc: Global,
    folder: &F,
    base: Base,
    marks: Marks,
) -> Result<Recovery<F::Log>, FolderFault>
    ensures recovered { IfOk result (λ found. (x : Option (List ℕ)) → F.seen folder.now (LogName (state_in base)) ≡ Some x → recovered_of base.link marks.mark (bytes_in x) ≡ Ok found.recovered) }
    ensures contents { IfOk result (λ found. (x : Option (List ℕ)) → F.seen folder.now (LogName (state_in base)) ≡ Some x → F.Log.contents found.disk.disk.files ≡ Some (bytes_in x)) }
    ensures base { IfOk result (λ found. found.disk.texts.base ≡ base.link) }
    ensures log { IfOk result (λ found. IsRecovered found.recovered found.disk.log) }
    ensures next { IfOk result (λ found. found.disk.next ≡ marks.next) }
    ensures refused { IfErr result (λ fault. (x : Option (List ℕ)) (r : Recovered) → F.seen folder.now (LogName (state_in base)) ≡ Some x
        → recovered_of base.link marks.mark (bytes_in x) ≡ Ok r → IsInterruption fault) }
{
    let begin = base.state();
    let (files, size) = match folder.open_log(begin) {
        Ok(opened) => opened,
        Err(error) => return Err(FolderFault::of_file(&error, FileName::Log(begin))),
    };
    match CheckedDisk::recover(alloc, files, size, base.link, marks) {
        Ok(found) => Ok(found),
        Err(fault) => Err(FolderFault::of_recovery(fault.why, FileName::Log(begin))),
    }
}

/// Reads what a folder has of a table, up to its log, which it recovers, and changes nothing. The logs from before that can't go are put to those that are left.
pub fn find_log<F: Folder>(
    alloc: Global,
    folder: &F,
    table: &TableSpec,
    types: &str,
    declared: u64,
    left: &mut Vec<Option<u64>>,
) -> Result<FoundLog<F::Log>, FolderFault>
    ensures found { IfOk result (λ found. (files : Image) → IsSeen (F.seen folder.now) files
        → IsFoundIn (declared_as table.now types.now declared) files found.about.base found.table found.about.marks found.about.recovered) }
    ensures begins { IfOk result (λ found. (b : Beginning) (x : Option (List ℕ)) → F.seen folder.now StateName ≡ Some x → BeginsWith (declared_as table.now types.now declared) x b
        → beginning_of table.now found.about.base found.table ≡ b) }
    ensures contents { IfOk result (λ found. (x : Option (List ℕ)) → F.seen folder.now (LogName (state_in found.about.base)) ≡ Some x → F.Log.contents found.disk.disk.files ≡ Some (bytes_in x)) }
    ensures base { IfOk result (λ found. found.disk.texts.base ≡ found.about.base.link) }
    ensures declared { IfOk result (λ found. found.about.base.declared ≡ declared) }
    ensures log { IfOk result (λ found. IsRecovered found.about.recovered found.disk.log) }
    ensures next { IfOk result (λ found. found.disk.next ≡ found.about.marks.next) }
    ensures kept { IfOk result (λ found. (bytes : List ℕ) → F.Log.contents found.disk.disk.files ≡ Some bytes → IsKeptOf bytes found.about.kept) }
    ensures goes_on { IfOk result (λ found. (found.about.kept.base ≡ found.about.base.link) × (found.about.kept.log ≡ found.disk.log) × (found.about.kept.next ≡ found.about.marks.next)) }
    ensures spent { IfOk result (λ found. AreSpent declared found.about.base.link (state_in found.about.base) (F.seen folder.now) found.about.spent.items) }
    ensures earlier { IfOk result (λ found. (files : Image) → IsSeen (F.seen folder.now) files → AreEarlier declared found.about.base.link (state_in found.about.base) files) }
    ensures refused { IfErr result (λ fault. (t : TableState) (last : Link) (files : Image) → IsSeen (F.seen folder.now) files → Finds (declared_as table.now types.now declared) t last files
        → IsInterruption fault) }
{
    let Begin { base, table: begun } = read_begin(alloc, folder, table, types, declared)?;
    let spent = spent_logs(alloc, folder, base.state(), declared, base.link, left)?;
    refuse_missing(folder, base)?;
    let marks = read_mark(alloc, folder)?;
    let Recovery { disk, recovered } = recover_log(alloc, folder, base, marks)?;
    let kept = disk.kept();
    let about = About {
        base,
        recovered,
        marks,
        kept,
        spent,
    };
    Ok(FoundLog {
        disk,
        about,
        table: begun,
    })
}
