//! Why the tables of a folder are not opened.

ghost use Rattle.std.specs.Prelude.{◌≡◌};
ghost use Rattle.kept_tables.specs.Fault.{of_folder};
ghost use Rattle.kept_tables.specs.declared.fault.OpenFault.TheVariants.{Memory};

use std::alloc::{AllocError, AllocFailed};
use table_folder::FolderFault;

/// Why the tables of a folder are not opened.
#[derive(Clone, Copy, Debug, PartialEq, Eq)]
pub enum OpenFault {
    /// Memory was refused.
    Memory,
    /// A file or the folder can't be opened, read, made, written or synced.
    File,
    /// A table is declared otherwise.
    Declared,
    /// What stands there is not whole, or is not of these tables.
    Hurt,
}

impl From<FolderFault> for OpenFault {
    ghost from_gives = { λ fault why. why ≡ of_folder fault };

    fn from(fault: FolderFault) -> OpenFault {
        match fault {
            FolderFault::Memory => OpenFault::Memory,
            FolderFault::File(_) | FolderFault::Names | FolderFault::Unwritten(_) => {
                OpenFault::File
            }
            _ => OpenFault::Hurt,
        }
    }
}

impl From<AllocError> for OpenFault {
    ghost from_gives = { λ _ why. why ≡ Memory };

    fn from(_error: AllocError) -> OpenFault {
        OpenFault::Memory
    }
}

impl<T: Drop> From<AllocFailed<T>> for OpenFault {
    ghost from_gives = { λ _ why. why ≡ Memory };

    fn from(_error: AllocFailed<T>) -> OpenFault {
        OpenFault::Memory
    }
}
