//! The logs beside a state.

ghost use Rattle.std.specs.Prelude.{Some, OnOk};
ghost use Rattle.table_folder.specs.declared.name.FileName.TheVariants.{Log};
ghost use Rattle.table_folder.specs.Compacting.{MakeBound, MakeLeft};
ghost use Rattle.table_folder.specs.Disk.{KeepsOthers, one};
ghost use Rattle.table_folder.specs.Settled.{AreSettled, MayLeave, Runs};

use crate::fault::FolderFault;
use crate::folder::Folder;
use crate::name::FileName;
use checked_log::Link;

/// Makes the empty log behind the state of a last write, where it is absent, and waits until the system has its name.
pub fn make_log<F: Folder>(folder: &mut F, last: Link) -> Result<(), FolderFault>
    ensures runs { Runs F.was F.has F.moment F.left_since folder.old folder.new (MakeBound (MayLeave (F.was folder.old) (F.has folder.old)) last) }
    ensures made { OnOk result (AreSettled (F.was folder.new) (F.has folder.new) (MakeLeft (F.has folder.old) last)) }
    ensures others { KeepsOthers (one (Log (Some last.number))) (F.seen folder.old) (F.seen folder.new) }
{
    let name = FileName::Log(Some(last.number));
    match folder.make(name) {
        Ok(()) => {}
        Err(error) => return Err(FolderFault::of_file(&error, name)),
    }
    match folder.settle_names() {
        Ok(()) => Ok(()),
        Err(error) => Err(FolderFault::of_names(&error)),
    }
}
