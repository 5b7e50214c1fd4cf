//! The logs from before a state, and what is not needed any more.

ghost use Rattle.std.specs.Prelude.{◌≡◌, ◌≢◌, ◌⊎◌, ◌++◌, ◌∷◌, [], ℕ, List, Option, Some, None, IfErr, IfOk, MatchOption, OnOk, false, true};
ghost use Rattle.table_folder.specs.declared.name.FileName.TheVariants.{Log};
ghost use Rattle.table_folder.specs.Compacting.{AreEarlier, AreSpent, CleanBound, IsJudged};
ghost use Rattle.table_folder.specs.Ended.{before_lines, is_later as spec_is_later};
ghost use Rattle.table_folder.specs.declared.ended.OldLog.{OldLog as Judgement};
ghost use Rattle.table_folder.specs.declared.ended.OldLog.TheVariants.{Later, Spent};
ghost use Rattle.table_folder.specs.Disk.{Elapses, Image, IsLeft, KeepsOthers, Leads, exactly, one, put_there};
ghost use Rattle.table_folder.specs.Seen.{IsInterruption, IsSeen};
ghost use Rattle.table_folder.specs.Settled.{MayLeave, Runs};

use crate::ended::{Ended, OldLog, is_later};
use crate::fault::FolderFault;
use crate::folder::Folder;
use crate::name::FileName;
use crate::reading::read_log;
use checked_log::Link;
use file_disk::FileDisk;
use std::alloc::Global;

/// The first of these, and the others.
pub(crate) fn first_of(rest: &[Option<u64>]) -> Option<(Option<u64>, &[Option<u64>])>
    ensures { MatchOption result (rest.now ≡ []) (λ p. rest.now ≡ p.0 ∷ p.1.now) }
{
    let (first, behind) = rest.split_first()?;
    Some((*first, behind))
}

// Whether a log begins elsewhere than that of a state.
fn is_other(begin: Option<u64>, state: Option<u64>) -> bool
    ensures other { result ≡ true → begin ≢ state }
    ensures same { result ≡ false → begin ≡ state }
{
    begin != state
}

// No line came yet of a log.
fn begun_log(declared: u64, begin: Option<u64>) -> Ended
    ensures { result ≡ before_lines declared begin }
{
    match begin {
        Some(number) => Ended::new(number, None),
        None => Ended::new(0, Some(declared)),
    }
}

// What becomes of a log from before a state. None where there is none.
fn judge_log<F: Folder>(
    alloc: Global,
    folder: &F,
    begin: Option<u64>,
    declared: u64,
    last: Link,
) -> Result<Option<OldLog>, FolderFault>
    ensures judged { IfOk result (λ judged. (x : Option (List ℕ)) → F.seen folder.now (Log begin) ≡ Some x → IsJudged declared last begin x judged) }
    ensures refused { IfErr result IsInterruption }
{
    let name = FileName::Log(begin);
    let (file, size) = match folder.look(name) {
        Ok(Some(found)) => found,
        Ok(None) => return Ok(None),
        Err(error) => return Err(FolderFault::of_file(&error, name)),
    };
    let mut disk = FileDisk::new(file, size);
    match read_log(alloc, &mut disk, begun_log(declared, begin)) {
        Ok(ended) => Ok(Some(ended.judge(last))),
        Err(why) => Err(FolderFault::of_reading(why, name)),
    }
}

// What becomes of a log beside a state. None where it is that of the state, or there is none.
fn judge_beside<F: Folder>(
    alloc: Global,
    folder: &F,
    state: Option<u64>,
    begin: Option<u64>,
    declared: u64,
    last: Link,
) -> Result<Option<OldLog>, FolderFault>
    ensures judged { IfOk result (λ judged. (j : Judgement) → judged ≡ Some j
        → (begin ≢ state) × ((x : Option (List ℕ)) → F.seen folder.now (Log begin) ≡ Some x → IsJudged declared last begin x (Some j))) }
    ensures earlier { IfOk result (λ judged. (spec_is_later begin state ≡ false)
        × (begin ≢ state → (x : Option (List ℕ)) → F.seen folder.now (Log begin) ≡ Some x → IsJudged declared last begin x judged)) }
    ensures refused { IfErr result (λ fault. spec_is_later begin state ≡ false → IsInterruption fault) }
{
    if is_later(begin, state) {
        return Err(FolderFault::Behind(FileName::Log(begin)));
    }
    if is_other(begin, state) {
        let judged = judge_log(alloc, folder, begin, declared, last)?;
        return Ok(judged);
    }
    Ok(None)
}

// Puts a log to those that are spent, or to those that are left.
fn put_judged(
    judged: Option<OldLog>,
    begin: Option<u64>,
    spent: &mut Vec<Option<u64>>,
    left: &mut Vec<Option<u64>>,
) -> Result<(), FolderFault>
    ensures spent { OnOk result ((spent.new.items ≡ spent.old.items) ⊎ ((spent.new.items ≡ spent.old.items ++ (begin ∷ [])) × (judged ≡ Some Spent))) }
    ensures earlier { OnOk result (judged ≢ Some Later) }
    ensures refused { IfErr result (λ fault. judged ≢ Some Later → IsInterruption fault) }
{
    match judged {
        Some(OldLog::Later) => return Err(FolderFault::Lacking(FileName::Log(begin))),
        Some(OldLog::Spent) => spent.push(begin)?,
        Some(OldLog::Left) => left.push(begin)?,
        None => {}
    }
    Ok(())
}

/// The logs from before a state that are whole and end with its last write. The others are put to those that are left. One that begins or goes on behind the
/// state is refused.
pub fn spent_logs<F: Folder>(
    alloc: Global,
    folder: &F,
    state: Option<u64>,
    declared: u64,
    last: Link,
    left: &mut Vec<Option<u64>>,
) -> Result<Vec<Option<u64>>, FolderFault>
    ensures spent { IfOk result (λ spent. AreSpent declared last state (F.seen folder.now) spent.items) }
    ensures earlier { OnOk result ((files : Image) → IsSeen (F.seen folder.now) files → AreEarlier declared last state files) }
    ensures refused { IfErr result (λ fault. (files : Image) → IsSeen (F.seen folder.now) files → AreEarlier declared last state files → IsInterruption fault) }
{
    let begins = match folder.begins(alloc) {
        Ok(begins) => begins,
        Err(error) => return Err(FolderFault::of_names(&error)),
    };
    let mut spent = Vec::new(alloc);
    let mut rest = begins.as_slice();
    while let Some((begin, behind)) = first_of(rest) {
        let judged = judge_beside(alloc, folder, state, begin, declared, last)?;
        put_judged(judged, begin, &mut spent, left)?;
        rest = behind;
    }
    Ok(spent)
}

/// Removes a file, where it is there.
pub(crate) fn remove<F: Folder>(folder: &mut F, name: FileName) -> Result<(), FolderFault>
    ensures crash { Leads (one name) (put_there name (exactly None)) (F.was folder.old) (F.has folder.old) (F.was folder.new) (F.has folder.new) }
    ensures others { KeepsOthers (one name) (F.seen folder.old) (F.seen folder.new) }
    ensures seen { OnOk result ((x : Option (List ℕ)) → F.seen folder.old name ≡ Some x → F.seen folder.new name ≡ Some None) }
    ensures time { Elapses (F.moment folder.old) (F.moment folder.new) (F.left_since folder.old) (F.left_since folder.new) (IsLeft (F.was folder.new) (F.has folder.new)) }
{
    match folder.remove(name) {
        Ok(()) => Ok(()),
        Err(error) => Err(FolderFault::of_file(&error, name)),
    }
}

// Removes logs.
fn remove_logs<F: Folder>(folder: &mut F, spent: &[Option<u64>]) -> Result<(), FolderFault>
    ensures { Runs F.was F.has F.moment F.left_since folder.old folder.new (CleanBound (MayLeave (F.was folder.old) (F.has folder.old)) spent.now) }
{
    let mut rest = spent;
    while let Some((begin, behind)) = first_of(rest) {
        remove(folder, FileName::Log(begin))?;
        rest = behind;
    }
    Ok(())
}

/// Removes what is not needed of a table: what was being written when a program was killed, and logs whose writes its state has.
pub fn clean<F: Folder>(folder: &mut F, spent: &[Option<u64>]) -> Result<(), FolderFault>
    ensures { Runs F.was F.has F.moment F.left_since folder.old folder.new (CleanBound (MayLeave (F.was folder.old) (F.has folder.old)) spent.now) }
{
    remove(folder, FileName::StateDraft)?;
    remove(folder, FileName::LogDraft)?;
    remove_logs(folder, spent)
}
