//! Puts a state in the place of a log.

ghost use Rattle.std.specs.Prelude.{◌≡◌, [], Some, OnOk};
ghost use Rattle.table_folder.specs.declared.name.FileName.TheVariants.{Log, State};
ghost use Rattle.table_folder.specs.Compacting.{AreDue, IsCompacting};
ghost use Rattle.table_folder.specs.Disk.{Image, IsLeft, LeavesOnly};
ghost use Rattle.table_folder.specs.Found.{Finds, declared_as};
ghost use Rattle.table_folder.specs.Settled.{MayLeave, Sees};
ghost use Rattle.table_folder.specs.StateFile.{state_file};
ghost use Rattle.table_schema.specs.Shape.{TableShape};

use crate::fault::FolderFault;
use crate::folder::Folder;
use crate::logs::make_log;
use crate::put::put_state;
use crate::spent::{clean, spent_logs};
use checked_log::Link;
use std::alloc::Global;
use table_step::Table;

/// Writes the state of a table with this last write, with an empty log behind it, and removes the logs before that are spent. The others are put to those that are left.
/// Whenever the power goes, a start finds the same table.
pub fn compact<F: Folder>(
    alloc: Global,
    folder: &mut F,
    table: &Table,
    types: &str,
    declared: u64,
    last: Link,
    left: &mut Vec<Option<u64>>,
) -> Result<(), FolderFault>
    ensures steps { (shape : TableShape) (files : Image) → Sees (F.seen folder.old) files
        → AreDue (declared_as shape types.now declared) table.now last (F.was folder.old) (F.has folder.old) files
        → LeavesOnly F.moment F.left_since folder.old folder.new
        (IsCompacting declared last (MayLeave (F.was folder.old) (F.has folder.old)) files (state_file types.now last.digest table.now)) }
    ensures any_moment { (shape : TableShape) (files : Image) → Sees (F.seen folder.old) files
        → AreDue (declared_as shape types.now declared) table.now last (F.was folder.old) (F.has folder.old) files
        → LeavesOnly F.moment F.left_since folder.old folder.new (Finds (declared_as shape types.now declared) table.now last) }
    ensures there { OnOk result ((shape : TableShape) (files image : Image) → Sees (F.seen folder.old) files
        → AreDue (declared_as shape types.now declared) table.now last (F.was folder.old) (F.has folder.old) files → IsLeft (F.was folder.new) (F.has folder.new) image
        → (image State ≡ Some (state_file types.now last.digest table.now)) × (image (Log (Some last.number)) ≡ Some [])) }
{
    put_state(alloc, folder, table, types, last.digest)?;
    make_log(folder, last)?;
    let spent = spent_logs(alloc, &*folder, Some(last.number), declared, last, left)?;
    clean(folder, &spent)
}
