//! Puts a table in the place of all that a folder has of it.

ghost use Rattle.std.specs.Prelude.{◌≡◌, ℕ, List, Option, Some, OnOk};
ghost use Rattle.checked_log.specs.declared.recovery.Link.{Link};
ghost use Rattle.table_folder.specs.declared.name.FileName.{FileName};
ghost use Rattle.table_folder.specs.declared.name.FileName.TheVariants.{Log};
ghost use Rattle.table_folder.specs.Disk.{Image, IsLeft, KeepsOthers, one};
ghost use Rattle.table_folder.specs.Found.{Declared, Finds, IsTable};
ghost use Rattle.table_folder.specs.Installing.{IsCleared, IsGone, IsInstalled, IsLog, LacksThese, cleared_files};
ghost use Rattle.table_folder.specs.Settled.{Sees};
ghost use Rattle.table_folder.specs.StateFile.{state_file};
ghost use Rattle.table_terms.specs.Table.{TableState};

use crate::declaring::declare;
use crate::fault::FolderFault;
use crate::folder::Folder;
use crate::name::FileName;
use crate::put::put_state;
use crate::settling::settle_names;
use crate::spent::first_of;
use std::alloc::Global;
use table_step::Table;

// Removes a file, where it is there.
fn clear_name<F: Folder>(folder: &mut F, name: FileName) -> Result<(), FolderFault>
    ensures others { KeepsOthers (one name) (F.seen folder.old) (F.seen folder.new) }
    ensures stays { (n : FileName) → (n ≡ name → ⊥) → IsGone (F.seen folder.old) (F.has folder.old) n → IsGone (F.seen folder.new) (F.has folder.new) n }
    ensures gone { OnOk result ((x : Option (List ℕ)) → F.seen folder.old name ≡ Some x → IsGone (F.seen folder.new) (F.has folder.new) name) }
{
    match folder.remove(name) {
        Ok(()) => Ok(()),
        Err(error) => Err(FolderFault::of_file(&error, name)),
    }
}

// Removes all logs of a table.
fn clear_logs<F: Folder>(alloc: Global, folder: &mut F) -> Result<(), FolderFault>
    ensures others { KeepsOthers IsLog (F.seen folder.old) (F.seen folder.new) }
    ensures gone { OnOk result ((files : Image) → Sees (F.seen folder.old) files → LacksThese (F.has folder.old) files
        → (begin : Option ℕ) → IsGone (F.seen folder.new) (F.has folder.new) (Log begin)) }
{
    let begins = match folder.begins(alloc) {
        Ok(begins) => begins,
        Err(error) => return Err(FolderFault::of_names(&error)),
    };
    let mut rest = begins.as_slice();
    while let Some((begin, behind)) = first_of(rest) {
        clear_name(folder, FileName::Log(begin))?;
        rest = behind;
    }
    Ok(())
}

// Removes the logs of a table, its mark and its declaration, and waits until the system has that.
fn clear<F: Folder>(alloc: Global, folder: &mut F) -> Result<(), FolderFault>
    ensures seen { OnOk result ((files : Image) → Sees (F.seen folder.old) files → LacksThese (F.has folder.old) files → Sees (F.seen folder.new) (cleared_files files)) }
    ensures gone { OnOk result ((files : Image) → Sees (F.seen folder.old) files → LacksThese (F.has folder.old) files
        → (n : FileName) → IsCleared n → IsGone (F.seen folder.new) (F.has folder.new) n) }
{
    clear_logs(alloc, folder)?;
    clear_name(folder, FileName::Mark)?;
    clear_name(folder, FileName::Declaration)?;
    settle_names(folder)
}

/// Puts a table, with its declaration, in the place of all that the folder has of it, whatever that is. It may be done again where it was broken off. What it has there in the
/// end is sure to stay.
pub fn install<F: Folder>(
    alloc: Global,
    folder: &mut F,
    table: &Table,
    types: &str,
    text: &[u8],
    digest: u64,
) -> Result<(), FolderFault>
    ensures seen { OnOk result ((files image : Image) → Sees (F.seen folder.old) files → LacksThese (F.has folder.old) files
        → Sees (F.seen folder.new) image → IsInstalled (state_file types.now digest table.now) text.now image) }
    ensures left { OnOk result ((files image : Image) → Sees (F.seen folder.old) files → LacksThese (F.has folder.old) files
        → IsLeft (F.was folder.new) (F.has folder.new) image → IsInstalled (state_file types.now digest table.now) text.now image) }
{
    clear(alloc, folder)?;
    put_state(alloc, folder, table, types, digest)?;
    declare(folder, text)
}

/// A law of all files: where a table is installed, a start finds it with its last write.
pub fn what_is_installed_is_found()
    ensures { (d : Declared) (t : TableState) (last : Link) (text : List ℕ) (image : Image) → IsTable d t last
        → IsInstalled (state_file d.types last.digest t) text image → Finds d t last image }
{}
