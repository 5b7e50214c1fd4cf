//! Puts the declaration of a table where it is absent.

ghost use Rattle.std.specs.Prelude.{◌≡◌, ◌⊎◌, ℕ, List, [], Option, Some, None, IfOk, OnOk};
ghost use Rattle.table_folder.specs.declared.name.FileName.{FileName};
ghost use Rattle.table_folder.specs.declared.name.FileName.TheVariants.{Declaration, DeclarationDraft};
ghost use Rattle.table_folder.specs.Declaring.{DeclaredBound};
ghost use Rattle.table_folder.specs.Disk.{KeepsOthers, one, two};
ghost use Rattle.table_folder.specs.Settled.{Runs};
ghost use Rattle.table_folder.specs.Settling.{AsBefore};

use crate::fault::FolderFault;
use crate::folder::Folder;
use crate::name::FileName;
use crate::settling::settle_names;
use file_disk::{FileDisk, LogFile};
use table_log::{Disk, DiskFailed};

// Writes a text into an empty file.
fn write_text<L: LogFile>(file: L, text: &[u8]) -> Result<L, DiskFailed>
    requires { (bytes : List ℕ) → L.contents file ≡ Some bytes → bytes ≡ [] }
    ensures { IfOk result (λ written. L.contents file ≡ Some [] → L.contents written ≡ Some text.now) }
{
    let mut disk = FileDisk::new(file, 0);
    disk.append(text)?;
    Ok(disk.into_file())
}

// Writes a declaration beside.
fn write_beside<F: Folder>(folder: &mut F, text: &[u8]) -> Result<(), FolderFault>
    ensures runs { Runs F.was F.has F.moment F.left_since folder.old folder.new (λ n c. AsBefore (F.was folder.old) (F.has folder.old) n c ⊎ one DeclarationDraft n) }
    ensures others { KeepsOthers (one DeclarationDraft) (F.seen folder.old) (F.seen folder.new) }
    ensures seen { OnOk result ((x : Option (List ℕ)) → F.seen folder.old DeclarationDraft ≡ Some x → F.seen folder.new DeclarationDraft ≡ Some (Some text.now)) }
    ensures left { OnOk result ((x : Option (List ℕ)) → F.seen folder.old DeclarationDraft ≡ Some x → (c : Option (List ℕ)) → F.has folder.new DeclarationDraft c → c ≡ Some text.now) }
{
    let name = FileName::DeclarationDraft;
    let Ok(draft) = folder.begin(name) else {
        return Err(FolderFault::Unwritten(name));
    };
    let Ok(draft) = write_text(draft, text) else {
        return Err(FolderFault::Unwritten(name));
    };
    match folder.end(name, draft) {
        Ok(()) => Ok(()),
        Err(_) => Err(FolderFault::Unwritten(name)),
    }
}

// Writes a declaration beside, and puts it at its own name.
fn write_and_put<F: Folder>(folder: &mut F, text: &[u8]) -> Result<(), FolderFault>
    ensures runs { (x : Option (List ℕ)) → F.seen folder.old DeclarationDraft ≡ Some x
        → Runs F.was F.has F.moment F.left_since folder.old folder.new (DeclaredBound (F.was folder.old) (F.has folder.old) text.now) }
    ensures others { KeepsOthers (two DeclarationDraft Declaration) (F.seen folder.old) (F.seen folder.new) }
    ensures seen { OnOk result ((x : Option (List ℕ)) → F.seen folder.old DeclarationDraft ≡ Some x → F.seen folder.new Declaration ≡ Some (Some text.now)) }
    ensures left { OnOk result ((x : Option (List ℕ)) → F.seen folder.old DeclarationDraft ≡ Some x → (c : Option (List ℕ)) → F.has folder.new Declaration c → c ≡ Some text.now) }
{
    write_beside(folder, text)?;
    match folder.put_at(FileName::DeclarationDraft, FileName::Declaration) {
        Ok(()) => Ok(()),
        Err(_) => Err(FolderFault::Unwritten(FileName::Declaration)),
    }
}

/// Puts a declaration of this text at its name, where it is absent, and waits until the system has the name. It is written beside first. Whenever the power goes it is absent as
/// before, or it has the text. One that is there stays.
pub fn declare<F: Folder>(folder: &mut F, text: &[u8]) -> Result<(), FolderFault>
    ensures runs { (x : Option (List ℕ)) → F.seen folder.old DeclarationDraft ≡ Some x
        → Runs F.was F.has F.moment F.left_since folder.old folder.new (DeclaredBound (F.was folder.old) (F.has folder.old) text.now) }
    ensures kept { (bytes : List ℕ) → F.seen folder.old Declaration ≡ Some (Some bytes) → folder.new ≡ folder.old }
    ensures others { KeepsOthers (two DeclarationDraft Declaration) (F.seen folder.old) (F.seen folder.new) }
    ensures seen { OnOk result ((x : Option (List ℕ)) → F.seen folder.old Declaration ≡ Some None → F.seen folder.old DeclarationDraft ≡ Some x
        → F.seen folder.new Declaration ≡ Some (Some text.now)) }
    ensures left { OnOk result ((x : Option (List ℕ)) → F.seen folder.old Declaration ≡ Some None → F.seen folder.old DeclarationDraft ≡ Some x
        → (c : Option (List ℕ)) → F.has folder.new Declaration c → c ≡ Some text.now) }
    ensures no_older { OnOk result (F.seen folder.old Declaration ≡ Some None → (n : FileName) (c : Option (List ℕ)) → F.was folder.new n c → ⊥) }
{
    match folder.look(FileName::Declaration) {
        Ok(Some(_)) => return Ok(()),
        Ok(None) => {}
        Err(error) => return Err(FolderFault::of_file(&error, FileName::Declaration)),
    }
    if let Err(fault) = write_and_put(folder, text) {
        let _ = folder.remove(FileName::DeclarationDraft);
        return Err(fault);
    }
    settle_names(folder)
}
