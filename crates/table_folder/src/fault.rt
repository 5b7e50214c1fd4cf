//! Why a call of a folder fails.

ghost use Rattle.std.specs.Prelude.{◌≡◌, ℕ, List, Ok, Option};
ghost use Rattle.checked_disk.specs.Kept.{IsRefused};
ghost use Rattle.checked_log.specs.Recover.{recovered_of};
ghost use Rattle.checked_log.specs.declared.recovery.Link.{Link};
ghost use Rattle.checked_log.specs.declared.recovery.Recovered.{Recovered};
ghost use Rattle.table_folder.specs.Seen.{IsBroken, IsInterruption};
ghost use Rattle.table_folder.specs.declared.fault.FolderFault.TheVariants.{Memory};

use crate::name::FileName;
use checked_disk::RecoverWhy;
use std::alloc::{AllocError, AllocFailed};
use std::io;
use std::io::ErrorKind;
use table_log::OpenWhy;
use table_state::StateWhy;

/// Why a call of a folder fails.
#[derive(Clone, Copy, Debug, PartialEq, Eq)]
pub enum FolderFault {
    /// Memory was refused.
    Memory,
    /// A file can't be read, made or removed.
    File(FileName),
    /// The names can't be read or settled.
    Names,
    /// A file can't be written, or put at its name.
    Unwritten(FileName),
    /// A log begins behind a later state than the one that is there.
    Behind(FileName),
    /// A log has later writes than the state.
    Lacking(FileName),
    /// The state's file is none: it does not end with its digest, or what it tells is no table of the declaration.
    State,
    /// The line of this number, from 1, is not that of a state of the table.
    StateLine(u64),
    /// A log is not there, of a table that is declared and has no state.
    Missing(FileName),
    /// A line of the log is no accepted write.
    Log(FileName, OpenWhy),
    /// The log is refused as it stands beside its mark.
    Recovery(FileName, RecoverWhy),
    /// A log is one of an older program.
    Old(FileName),
    /// A log or a mark stands beside the files of an older program.
    Beside(FileName),
}

impl FolderFault {
    /// The fault of a file.
    pub(crate) fn of_file(error: &io::Error, name: FileName) -> FolderFault
        ensures { IsInterruption result }
    {
        match error.kind() {
            ErrorKind::OutOfMemory => FolderFault::Memory,
            _ => FolderFault::File(name),
        }
    }

    /// The fault of the names.
    pub(crate) fn of_names(error: &io::Error) -> FolderFault
        ensures { IsInterruption result }
    {
        match error.kind() {
            ErrorKind::OutOfMemory => FolderFault::Memory,
            _ => FolderFault::Names,
        }
    }

    /// The fault of a file that is read.
    pub(crate) fn of_reading(why: StateWhy, name: FileName) -> FolderFault
        ensures { IsInterruption result }
    {
        match why {
            StateWhy::Memory => FolderFault::Memory,
            _ => FolderFault::File(name),
        }
    }

    /// The fault of a log that is not recovered.
    pub(crate) fn of_recovery(why: RecoverWhy, name: FileName) -> FolderFault
        ensures { (base : Link) (mark : Option Link) (bytes : List ℕ) (r : Recovered) → IsRefused base mark bytes why → recovered_of base mark bytes ≡ Ok r → IsInterruption result }
    {
        match why {
            RecoverWhy::Memory => FolderFault::Memory,
            RecoverWhy::Disk => FolderFault::File(name),
            RecoverWhy::Refused(_) => FolderFault::Recovery(name, why),
        }
    }

    /// The fault of a log that is not loaded.
    pub(crate) fn of_loading(why: OpenWhy, name: FileName) -> FolderFault
        ensures { IsBroken why → IsInterruption result }
    {
        match why {
            OpenWhy::Memory => FolderFault::Memory,
            OpenWhy::Disk => FolderFault::File(name),
            OpenWhy::Line(_) => FolderFault::Log(name, why),
        }
    }
}

impl From<AllocError> for FolderFault {
    ghost from_gives = { λ _ why. why ≡ Memory };

    fn from(_error: AllocError) -> FolderFault {
        FolderFault::Memory
    }
}

impl<T: Drop> From<AllocFailed<T>> for FolderFault {
    ghost from_gives = { λ _ why. why ≡ Memory };

    fn from(_error: AllocFailed<T>) -> FolderFault {
        FolderFault::Memory
    }
}
