//! Takes the logs of an older program away, once a state has their writes.

ghost use Rattle.std.specs.Prelude.{◌≡◌, ℕ, List, Option, Some, None, OnOk};
ghost use Rattle.table_folder.specs.Disk.{Elapses, Image, IsLeft, IsPut, KeepsOthers, Leads, LeavesOnly};
ghost use Rattle.table_folder.specs.Retiring.{IsNameOf, IsPlain, IsTakingOver, RetireBound, left_at, retired_files};
ghost use Rattle.table_folder.specs.Settled.{MayLeave, Runs, Sees, put_files};
ghost use Rattle.table_folder.specs.StateFile.{state_file};
ghost use Rattle.table_folder.specs.declared.name.FileName.TheVariants.{PlainLog, PlainLogLeft, State};

use crate::fault::FolderFault;
use crate::folder::Folder;
use crate::name::FileName;
use crate::plain::{is_spent, plain_begins};
use crate::put::put_state;
use crate::spent::{first_of, remove};
use std::alloc::Global;
use table_step::Table;

// Gives a log another name.
fn leave<F: Folder>(folder: &mut F, begin: Option<u64>) -> Result<(), FolderFault>
    ensures crash { Leads (IsNameOf begin) (IsPut (PlainLog begin) (PlainLogLeft begin) (F.has folder.old)) (F.was folder.old) (F.has folder.old) (F.was folder.new) (F.has folder.new) }
    ensures others { KeepsOthers (IsNameOf begin) (F.seen folder.old) (F.seen folder.new) }
    ensures seen { OnOk result ((x : Option (List ℕ)) → F.seen folder.old (PlainLog begin) ≡ Some x → (F.seen folder.new (PlainLogLeft begin) ≡ Some x) × (F.seen folder.new (PlainLog begin) ≡ Some None)) }
    ensures time { Elapses (F.moment folder.old) (F.moment folder.new) (F.left_since folder.old) (F.left_since folder.new) (IsLeft (F.was folder.new) (F.has folder.new)) }
{
    let name = FileName::PlainLogLeft(begin);
    match folder.put_at(FileName::PlainLog(begin), name) {
        Ok(()) => Ok(()),
        Err(error) => Err(FolderFault::of_file(&error, name)),
    }
}

// Takes a log away, if it is there: one that is whole and ends with the write of this number is removed, and any other gets another name and is put to those that are left.
fn retire_log<F: Folder>(
    alloc: Global,
    folder: &mut F,
    begin: Option<u64>,
    number: u64,
    left: &mut Vec<Option<u64>>,
) -> Result<(), FolderFault>
    ensures runs { Runs F.was F.has F.moment F.left_since folder.old folder.new (RetireBound (MayLeave (F.was folder.old) (F.has folder.old))) }
    ensures others { KeepsOthers (IsNameOf begin) (F.seen folder.old) (F.seen folder.new) }
    ensures seen { OnOk result ((x y : Option (List ℕ)) → F.seen folder.old (PlainLog begin) ≡ Some x → F.seen folder.old (PlainLogLeft begin) ≡ Some y
        → (F.seen folder.new (PlainLog begin) ≡ Some None) × (F.seen folder.new (PlainLogLeft begin) ≡ Some (left_at number begin x y))) }
{
    match is_spent(alloc, &*folder, begin, number)? {
        Some(true) => remove(folder, FileName::PlainLog(begin))?,
        Some(false) => {
            leave(folder, begin)?;
            left.push(begin)?;
        }
        None => {}
    }
    Ok(())
}

/// Takes the logs of an older program away, beside a state of this number: one that is whole and ends with that write is removed, and any other gets another name and is put to
/// those that are left.
pub fn retire<F: Folder>(
    alloc: Global,
    folder: &mut F,
    number: u64,
    left: &mut Vec<Option<u64>>,
) -> Result<(), FolderFault>
    ensures runs { Runs F.was F.has F.moment F.left_since folder.old folder.new (RetireBound (MayLeave (F.was folder.old) (F.has folder.old))) }
    ensures others { KeepsOthers IsPlain (F.seen folder.old) (F.seen folder.new) }
    ensures seen { OnOk result ((files : Image) → Sees (F.seen folder.old) files → Sees (F.seen folder.new) (retired_files number files)) }
{
    let begins = plain_begins(alloc, &*folder)?;
    let mut rest = begins.as_slice();
    while let Some((begin, behind)) = first_of(rest) {
        left.reserve(1)?;
        retire_log(alloc, folder, begin, number, left)?;
        rest = behind;
    }
    Ok(())
}

/// Writes the state of a table whose files are those of an older program, and takes its older logs away once the state is sure to be there.
pub fn take_over<F: Folder>(
    alloc: Global,
    folder: &mut F,
    table: &Table,
    types: &str,
    declared: u64,
    left: &mut Vec<Option<u64>>,
) -> Result<(), FolderFault>
    ensures any_moment { (files : Image) → Sees (F.seen folder.old) files
        → LeavesOnly F.moment F.left_since folder.old folder.new (IsTakingOver (F.was folder.old) (F.has folder.old) (state_file types.now declared table.now)) }
    ensures seen { OnOk result ((files : Image) → Sees (F.seen folder.old) files
        → Sees (F.seen folder.new) (retired_files table.now.records.writes (put_files files (state_file types.now declared table.now)))) }
    ensures there { OnOk result ((files image : Image) → Sees (F.seen folder.old) files → IsLeft (F.was folder.new) (F.has folder.new) image
        → image State ≡ Some (state_file types.now declared table.now)) }
{
    put_state(alloc, folder, table, types, declared)?;
    let number = table.records().container().writes();
    retire(alloc, folder, number, left)
}
