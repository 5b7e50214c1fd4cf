//! Files that are read whole.

ghost use Rattle.std.specs.Prelude.{◌≡◌, ℕ, List, Option, Some, IfErr, IfOk, option_map};
ghost use Rattle.checked_log.specs.Mark.{marks_of};
ghost use Rattle.table_folder.specs.Opened.{bytes_in};
ghost use Rattle.table_folder.specs.Seen.{IsInterruption};
ghost use Rattle.table_folder.specs.declared.name.FileName.TheVariants.{Mark as MarkName};

use crate::fault::FolderFault;
use crate::folder::Folder;
use crate::name::FileName;
use crate::parts::read_part;
use checked_log::{Marks, read_marks};
use file_disk::FileDisk;
use std::alloc::Global;

/// All bytes of the file at a name, if it is there. O(bytes).
pub fn read_file<F: Folder>(
    alloc: Global,
    folder: &F,
    name: FileName,
) -> Result<Option<Vec<u8>>, FolderFault>
    ensures read { IfOk result (λ found. (x : Option (List ℕ)) → F.seen folder.now name ≡ Some x → x ≡ option_map (λ bytes. bytes.items) found) }
    ensures refused { IfErr result IsInterruption }
{
    let (file, size) = match folder.look(name) {
        Ok(Some(found)) => found,
        Ok(None) => return Ok(None),
        Err(error) => return Err(FolderFault::of_file(&error, name)),
    };
    let mut disk = FileDisk::new(file, size);
    match read_part(alloc, &mut disk, 0, size) {
        Ok(bytes) => Ok(Some(bytes)),
        Err(why) => Err(FolderFault::of_reading(why, name)),
    }
}

/// What the mark says. An absent one says nothing.
pub fn read_mark<F: Folder>(alloc: Global, folder: &F) -> Result<Marks, FolderFault>
    ensures read { IfOk result (λ marks. (x : Option (List ℕ)) → F.seen folder.now MarkName ≡ Some x → marks ≡ marks_of (bytes_in x)) }
    ensures refused { IfErr result IsInterruption }
{
    match read_file(alloc, folder, FileName::Mark)? {
        Some(bytes) => Ok(read_marks(&bytes)),
        None => Ok(read_marks(&[])),
    }
}
