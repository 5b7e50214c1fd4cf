//! Logs of an older program: the text of each write, a line each.

ghost use Rattle.std.specs.Prelude.{◌≡◌, ◌≢◌, ◌⊎◌, ℕ, List, Option, Some, None, IfErr, IfOk, OnOk, false, nat_lt, option_map};
ghost use Rattle.std.specs.Option.{option_map_or};
ghost use Rattle.table_folder.specs.Disk.{AreThere, Lists};
ghost use Rattle.table_folder.specs.Plain.{end_behind, end_of as spec_end_of, ends_with};
ghost use Rattle.table_folder.specs.Seen.{IsInterruption};
ghost use Rattle.table_folder.specs.declared.fault.FolderFault.TheVariants.{Old};
ghost use Rattle.table_folder.specs.declared.name.FileName.TheVariants.{Log as LogName, Mark as MarkName, PlainLog as PlainLogName};

use crate::fault::FolderFault;
use crate::folder::Folder;
use crate::lines::{Lines, count_lines};
use crate::name::FileName;
use crate::spent::first_of;
use file_disk::FileDisk;
use std::alloc::Global;
use std::io::ErrorKind;

/// How a log ends.
#[derive(Clone, Copy, Debug, PartialEq, Eq)]
pub(crate) struct PlainEnd {
    /// The number of its last write.
    number: u64,
    /// Bytes stand behind it.
    is_torn: bool,
}

impl PlainEnd {
    // Behind these lines of a log that begins so.
    fn behind(begin: Option<u64>, lines: Lines) -> PlainEnd
        ensures { result ≡ end_behind begin lines }
    {
        let before = begin.unwrap_or(0);
        PlainEnd {
            number: before.saturating_add(lines.count),
            is_torn: lines.is_torn,
        }
    }

    // Whether the log is whole, and ends with the write of this number.
    fn is_at(self, number: u64) -> bool
        ensures { result ≡ ends_with number self }
    {
        self.number == number && !self.is_torn
    }
}

// How a log ends that begins so. None where there is none. O(bytes).
fn end_of<F: Folder>(
    alloc: Global,
    folder: &F,
    begin: Option<u64>,
) -> Result<Option<PlainEnd>, FolderFault>
    ensures ends { IfOk result (λ end. (x : Option (List ℕ)) → F.seen folder.now (PlainLogName begin) ≡ Some x → end ≡ option_map (spec_end_of begin) x) }
    ensures refused { IfErr result IsInterruption }
{
    let name = FileName::PlainLog(begin);
    let (file, size) = match folder.look(name) {
        Ok(Some(found)) => found,
        Ok(None) => return Ok(None),
        Err(error) => return Err(FolderFault::of_file(&error, name)),
    };
    let mut disk = FileDisk::new(file, size);
    match count_lines(alloc, &mut disk) {
        Ok(lines) => Ok(Some(PlainEnd::behind(begin, lines))),
        Err(why) => Err(FolderFault::of_reading(why, name)),
    }
}

/// Whether a log is whole, and ends with the write of this number. None where there is none. O(bytes).
pub(crate) fn is_spent<F: Folder>(
    alloc: Global,
    folder: &F,
    begin: Option<u64>,
    number: u64,
) -> Result<Option<bool>, FolderFault>
    ensures { IfOk result (λ is. (x : Option (List ℕ)) → F.seen folder.now (PlainLogName begin) ≡ Some x → is ≡ option_map (λ bytes. ends_with number (spec_end_of begin bytes)) x) }
{
    match end_of(alloc, folder, begin)? {
        Some(end) => Ok(Some(end.is_at(number))),
        None => Ok(None),
    }
}

/// Where the logs of an older program begin.
pub(crate) fn plain_begins<F: Folder>(
    alloc: Global,
    folder: &F,
) -> Result<Vec<Option<u64>>, FolderFault>
    ensures all { IfOk result (λ begins. Lists PlainLogName (F.seen folder.now) begins.items) }
    ensures there { IfOk result (λ begins. AreThere PlainLogName (F.seen folder.now) begins.items) }
    ensures refused { IfErr result IsInterruption }
{
    match folder.plain_begins(alloc) {
        Ok(begins) => Ok(begins),
        Err(error) => Err(FolderFault::of_names(&error)),
    }
}

/// Refuses the logs of an older program.
pub fn refuse_plain<F: Folder>(alloc: Global, folder: &F) -> Result<(), FolderFault>
    ensures none { OnOk result ((begin : Option ℕ) (bytes : List ℕ) → F.seen folder.now (PlainLogName begin) ≢ Some (Some bytes)) }
    ensures refused { IfErr result (λ fault. IsInterruption fault ⊎ ((begin : Option ℕ) × (fault ≡ Old (PlainLogName begin)) × (F.seen folder.now (PlainLogName begin) ≢ Some None))) }
{
    let begins = match plain_begins(alloc, folder) {
        Ok(begins) => begins,
        Err(fault) => return Err(fault),
    };
    match first_of(begins.as_slice()) {
        Some((begin, _)) => Err(FolderFault::Old(FileName::PlainLog(begin))),
        None => Ok(()),
    }
}

// Refuses a mark. One that can't be read is there.
fn refuse_mark<F: Folder>(folder: &F) -> Result<(), FolderFault>
    ensures none { OnOk result ((bytes : List ℕ) → F.seen folder.now MarkName ≢ Some (Some bytes)) }
{
    let name = FileName::Mark;
    match folder.look(name) {
        Ok(None) => Ok(()),
        Err(error) if error.kind() == ErrorKind::OutOfMemory => Err(FolderFault::Memory),
        Ok(Some(_)) | Err(_) => Err(FolderFault::Beside(name)),
    }
}

/// Refuses the logs and the mark of this program, where files of an older one are there.
pub fn refuse_beside<F: Folder>(alloc: Global, folder: &F) -> Result<(), FolderFault>
    ensures no_log { OnOk result ((begin : Option ℕ) (bytes : List ℕ) → F.seen folder.now (LogName begin) ≢ Some (Some bytes)) }
    ensures no_mark { OnOk result ((bytes : List ℕ) → F.seen folder.now MarkName ≢ Some (Some bytes)) }
{
    let begins = match folder.begins(alloc) {
        Ok(begins) => begins,
        Err(error) => return Err(FolderFault::of_names(&error)),
    };
    if let Some((begin, _)) = first_of(begins.as_slice()) {
        return Err(FolderFault::Beside(FileName::Log(begin)));
    }
    refuse_mark(folder)
}

// Whether a log ends behind the write of this number.
fn is_longer(end: Option<PlainEnd>, number: u64) -> bool
    ensures { result ≡ option_map_or (λ e. nat_lt number e.number) end false }
{
    match end {
        Some(end) => end.number > number,
        None => false,
    }
}

/// Refuses a log that has writes behind the one of this number.
pub(crate) fn refuse_longer<F: Folder>(
    alloc: Global,
    folder: &F,
    begin: Option<u64>,
    number: u64,
) -> Result<(), FolderFault>
    ensures { OnOk result ((bytes : List ℕ) → F.seen folder.now (PlainLogName begin) ≡ Some (Some bytes) → nat_lt number (spec_end_of begin bytes).number ≡ false) }
{
    let end = end_of(alloc, folder, begin)?;
    if is_longer(end, number) {
        return Err(FolderFault::Lacking(FileName::PlainLog(begin)));
    }
    Ok(())
}
