//! A folder that a program has for itself.

ghost use Rattle.std.specs.Prelude.{◌≡◌, IfOk, string_bytes};
ghost use Rattle.system_files.specs.Names.{path_of};

use crate::descriptor::{Descriptor, TO_MAKE, TO_READ, done, last_error};
use crate::listing::tables_in;
use crate::names::path_of;
use crate::table_files::TableFiles;
use crate::watch::Watch;
use std::alloc::{AllocError, Global};
use std::io;
use std::io::ErrorKind;
use table_folder::FileName;

/// Who may list and change the folder: its owner.
const FOLDER_MODE: u32 = 0o700;

/// Why a folder is not taken.
#[derive(Clone, Copy, Debug, PartialEq, Eq)]
pub enum TakeFault {
    /// Memory was refused.
    Memory,
    /// It can't be made, or is none.
    Folder,
    /// Its lock can't be opened or taken.
    Lock,
    /// Another program has it.
    Taken,
}

/// A folder that a program has for itself. The lock goes with the file, however the program ends.
#[derive(Drop)]
pub struct SystemFolder {
    alloc: Global,
    path: String,
    lock: Descriptor,
}

impl SystemFolder {
    /// Takes the folder at a path, and makes it where nothing stands there. One that another program has is not waited for.
    pub fn take(alloc: Global, path: &str) -> Result<SystemFolder, TakeFault>
        ensures { IfOk result (λ folder. string_bytes folder.path ≡ path.now) }
    {
        let (Ok(kept), Ok(name)) = (
            String::from_str(alloc, path),
            format!(in alloc; "{path}/lock"),
        ) else {
            return Err(TakeFault::Memory);
        };
        if make(alloc, path).is_err() {
            return Err(TakeFault::Folder);
        }
        let lock = match Descriptor::open(name.as_str(), TO_MAKE) {
            Ok(lock) => lock,
            Err(error) => return Err(of_lock(&error)),
        };
        match lock.take_lock() {
            Ok(()) => Ok(SystemFolder {
                alloc,
                path: kept,
                lock,
            }),
            Err(error) if error.kind() == ErrorKind::WouldBlock => Err(TakeFault::Taken),
            Err(_) => Err(TakeFault::Lock),
        }
    }

    /// Its path. O(1).
    pub fn path(&self) -> &str
        ensures { result.now ≡ string_bytes self.now.path }
    {
        self.path.as_str()
    }

    /// The files of the table of this name. O(1).
    pub fn files<'a>(&'a self, table: &'a str) -> TableFiles<'a>
        ensures folder { result.folder.now ≡ string_bytes self.now.path }
        ensures table { result.table.now ≡ table.now }
    {
        self.watched(table, ())
    }

    /// The same, where it is told how far each file is read. O(1).
    pub fn watched<'a, W: Watch>(&'a self, table: &'a str, watch: W) -> TableFiles<'a, W>
        ensures folder { result.folder.now ≡ string_bytes self.now.path }
        ensures table { result.table.now ≡ table.now }
        ensures watch { result.watch ≡ watch }
    {
        TableFiles::new(self.alloc, self.path.as_str(), table, watch)
    }

    /// The path of a file of the table of this name. O(n) for its length.
    pub fn path_of(&self, table: &str, name: FileName) -> Result<String, AllocError>
        ensures { IfOk result (λ path. string_bytes path ≡ path_of (string_bytes self.now.path) table.now name) }
    {
        path_of(self.alloc, self.path.as_str(), table, name)
    }

    /// The tables of which the name of a file ends so. O(names in the folder).
    pub fn tables_of(&self, end: &str) -> io::Result<Vec<String>> {
        tables_in(self.alloc, self.path.as_str(), end)
    }

    /// Waits until the system has the folder's names where a crash leaves them.
    pub fn sync(&self) -> io::Result<()> {
        sync_folder(self.path.as_str())
    }
}

// The fault of a lock that is not opened: nothing can stand in what is no folder.
fn of_lock(error: &io::Error) -> TakeFault {
    match error.kind() {
        ErrorKind::NotADirectory | ErrorKind::NotFound => TakeFault::Folder,
        _ => TakeFault::Lock,
    }
}

// Makes a folder where nothing stands. The one that it is in is synced as far as that succeeds.
fn make(alloc: Global, path: &str) -> io::Result<()> {
    match done(os::mkdir_with(path.as_bytes(), FOLDER_MODE)) {
        Ok(()) => {
            if let Ok(above) = format!(in alloc; "{path}/..") {
                let _ = sync_folder(above.as_str());
            }
            Ok(())
        }
        Err(error) if error.kind() == ErrorKind::AlreadyExists => Ok(()),
        Err(error) => Err(error),
    }
}

/// Waits until the system has a folder's names where a crash leaves them.
pub(crate) fn sync_folder(path: &str) -> io::Result<()> {
    Descriptor::open(path, TO_READ)?.sync_all()
}
