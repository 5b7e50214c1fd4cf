//! Puts a state in the place of the one before.

ghost use Rattle.std.specs.Prelude.{◌≡◌, ℕ, List, [], Option, Some, IfOk, OnOk};
ghost use Rattle.table_folder.specs.Disk.{Image, LeavesOnly};
ghost use Rattle.table_folder.specs.Settled.{AreSettled, IsPutting, MayLeave, PutBound, PutLeft, Runs, Sees, put_files};
ghost use Rattle.table_folder.specs.StateFile.{state_file};
ghost use Rattle.table_folder.specs.declared.name.FileName.{FileName};

use crate::digesting::digest_of_disk;
use crate::fault::FolderFault;
use crate::folder::Folder;
use crate::frame::{first_line, last_line};
use crate::name::FileName;
use file_disk::{FileDisk, LogFile};
use std::alloc::Global;
use table_log::Disk;
use table_state::{StateWhy, write_state};
use table_step::Table;

// Writes a state into an empty file.
fn write_draft<L: LogFile>(
    alloc: Global,
    file: L,
    table: &Table,
    types: &str,
    digest: u64,
) -> Result<L, StateWhy>
    requires { (bytes : List ℕ) → L.contents file ≡ Some bytes → bytes ≡ [] }
    ensures { IfOk result (λ written. L.contents file ≡ Some [] → L.contents written ≡ Some (state_file types.now digest table.now)) }
{
    let first = first_line(alloc, types, digest)?;
    let mut disk = FileDisk::new(file, 0);
    disk.append(first.as_bytes())?;
    write_state(alloc, table, &mut disk)?;
    let last = last_line(alloc, digest_of_disk(alloc, &mut disk)?)?;
    disk.append(last.as_bytes())?;
    Ok(disk.into_file())
}

// Writes a state beside, and puts it at its own name.
fn write_and_put<F: Folder>(
    alloc: Global,
    folder: &mut F,
    table: &Table,
    types: &str,
    digest: u64,
) -> Result<(), FolderFault>
    ensures runs { (files : Image) → Sees (F.seen folder.old) files
        → Runs F.was F.has F.moment F.left_since folder.old folder.new (PutBound (MayLeave (F.was folder.old) (F.has folder.old)) (state_file types.now digest table.now)) }
    ensures seen { OnOk result ((files : Image) → Sees (F.seen folder.old) files → Sees (F.seen folder.new) (put_files files (state_file types.now digest table.now))) }
    ensures left { OnOk result ((files : Image) → Sees (F.seen folder.old) files
        → (n : FileName) (c : Option (List ℕ)) → F.has folder.new n c → PutLeft (F.has folder.old) (state_file types.now digest table.now) n c) }
{
    let Ok(draft) = folder.begin(FileName::StateDraft) else {
        return Err(FolderFault::Unwritten(FileName::StateDraft));
    };
    let draft = match write_draft(alloc, draft, table, types, digest) {
        Ok(draft) => draft,
        Err(StateWhy::Memory) => return Err(FolderFault::Memory),
        Err(_) => return Err(FolderFault::Unwritten(FileName::StateDraft)),
    };
    let Ok(()) = folder.end(FileName::StateDraft, draft) else {
        return Err(FolderFault::Unwritten(FileName::StateDraft));
    };
    match folder.put_at(FileName::StateDraft, FileName::State) {
        Ok(()) => Ok(()),
        Err(_) => Err(FolderFault::Unwritten(FileName::State)),
    }
}

/// Writes a state beside, puts it at its own name once the system has it, and waits until the system has the name.
pub fn put_state<F: Folder>(
    alloc: Global,
    folder: &mut F,
    table: &Table,
    types: &str,
    digest: u64,
) -> Result<(), FolderFault>
    ensures any_moment { (files : Image) → Sees (F.seen folder.old) files
        → LeavesOnly F.moment F.left_since folder.old folder.new (IsPutting (MayLeave (F.was folder.old) (F.has folder.old)) (state_file types.now digest table.now)) }
    ensures seen { OnOk result ((files : Image) → Sees (F.seen folder.old) files → Sees (F.seen folder.new) (put_files files (state_file types.now digest table.now))) }
    ensures put { OnOk result ((files : Image) → Sees (F.seen folder.old) files
        → AreSettled (F.was folder.new) (F.has folder.new) (PutLeft (F.has folder.old) (state_file types.now digest table.now))) }
{
    if let Err(fault) = write_and_put(alloc, folder, table, types, digest) {
        let _ = folder.remove(FileName::StateDraft);
        return Err(fault);
    }
    match folder.settle_names() {
        Ok(()) => Ok(()),
        Err(error) => Err(FolderFault::of_names(&error)),
    }
}
