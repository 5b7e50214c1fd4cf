//! The files of one table in a folder.

ghost use Rattle.std.specs.Prelude.{◌≡◌, IfOk, string_bytes};
ghost use Rattle.system_files.specs.Names.{path_of};

use crate::begins::begins_in;
use crate::descriptor::{Descriptor, TO_EMPTY, TO_MAKE, TO_READ, TO_WRITE, done};
use crate::file::SystemFile;
use crate::folder::sync_folder;
use crate::log::SystemLog;
use crate::mark::SystemMark;
use crate::names::{LOG, PLAIN_LOG, path_of};
use crate::watch::{Reading, Watch};
use std::alloc::{AllocError, Global};
use std::io;
use std::io::ErrorKind;
use table_folder::{FileName, Folder};

/// The files of a table in a folder. What they hold is not known to a contract.
#[derive(Drop)]
pub struct TableFiles<'a, W: Watch = ()> {
    alloc: Global,
    folder: &'a str,
    table: &'a str,
    watch: W,
    // Whether memory was refused for the path of a file that was to be changed.
    is_refused: bool,
}

impl<'a, W: Watch> TableFiles<'a, W> {
    /// Those of the table of this name, in the folder at a path.
    pub(crate) fn new(alloc: Global, folder: &'a str, table: &'a str, watch: W) -> TableFiles<'a, W>
        ensures folder { result.folder.now ≡ folder.now }
        ensures table { result.table.now ≡ table.now }
        ensures watch { result.watch ≡ watch }
    {
        TableFiles {
            alloc,
            folder,
            table,
            watch,
            is_refused: false,
        }
    }

    /// The path of a name. O(n) for its length.
    pub fn path(&self, name: FileName) -> Result<String, AllocError>
        ensures { IfOk result (λ path. string_bytes path ≡ path_of self.now.folder.now self.now.table.now name) }
    {
        path_of(self.alloc, self.folder, self.table, name)
    }

    /// The path of the folder. O(n) for its length.
    pub fn folder_path(&self) -> Result<String, AllocError>
        ensures { IfOk result (λ path. string_bytes path ≡ self.now.folder.now) }
    {
        String::from_str(self.alloc, self.folder)
    }

    // The path of a file that is to be changed.
    fn path_to_change(&mut self, name: FileName) -> io::Result<String> {
        match self.path(name) {
            Ok(path) => Ok(path),
            Err(refused) => {
                self.is_refused = true;
                Err(io::Error::from(refused))
            }
        }
    }

    /// Whether memory was refused for the path of a file that was to be changed. O(1).
    pub fn is_refused(&self) -> bool
        ensures { result ≡ self.now.is_refused }
    {
        self.is_refused
    }

    // A file that was opened at a path.
    fn file(&self, file: Option<Descriptor>, path: String, size: u64) -> SystemFile<W> {
        SystemFile::new(file, None, Reading::new(self.watch, path, size))
    }
}

// The file at a path, if it is there, and how many bytes it has.
fn found(path: &str, how: i32) -> io::Result<Option<(Descriptor, u64)>> {
    match Descriptor::open(path, how) {
        Ok(file) => {
            let size = file.size()?;
            Ok(Some((file, size)))
        }
        Err(error) if error.kind() == ErrorKind::NotFound => Ok(None),
        Err(error) => Err(error),
    }
}

impl<W: Watch> Folder for TableFiles<'_, W> {
    ghost use Rattle.std.specs.Prelude.{None};
    ghost use Rattle.system_files.specs.NoImage.{no_image};

    type File = SystemFile<W>;

    type Log = SystemLog<W>;

    ghost seen = { λ _ _. None };

    ghost was = { λ _ _ _. ⊥ };

    ghost has = { λ _ _ _. ⊥ };

    ghost moment = { λ _. 0 };

    ghost left_since = { λ _ _ _. ⊥ };

    ghost counts_now = { λ _ _ image _ left. no_image image left };

    ghost only_now = { λ _ _ left. absurd left };

    fn look(&self, name: FileName) -> io::Result<Option<(SystemFile<W>, u64)>> {
        let path = self.path(name)?;
        match found(path.as_str(), TO_READ)? {
            Some((file, size)) => Ok(Some((self.file(Some(file), path, size), size))),
            None => Ok(None),
        }
    }

    fn begins(&self, alloc: Global) -> io::Result<Vec<Option<u64>>> {
        begins_in(alloc, self.folder, self.table, LOG)
    }

    fn plain_begins(&self, alloc: Global) -> io::Result<Vec<Option<u64>>> {
        begins_in(alloc, self.folder, self.table, PLAIN_LOG)
    }

    fn open_log(&self, begin: Option<u64>) -> io::Result<(SystemLog<W>, u64)> {
        let path = self.path(FileName::Log(begin))?;
        let mark = SystemMark::new(self.path(FileName::Mark)?);
        let (file, size) = match found(path.as_str(), TO_WRITE)? {
            Some((file, size)) => (Some(file), size),
            None => (None, 0),
        };
        let log = SystemLog::new(self.alloc, self.file(file, path, size), mark, size)?;
        Ok((log, size))
    }

    fn close_log(&mut self, _begin: Option<u64>, _log: SystemLog<W>) {}

    fn begin(&mut self, name: FileName) -> io::Result<SystemFile<W>> {
        let path = self.path_to_change(name)?;
        let file = Descriptor::open(path.as_str(), TO_EMPTY)?;
        let size = file.size()?;
        let reading = Reading::new(self.watch, path, size);
        Ok(SystemFile::new(Some(file), Some(name), reading))
    }

    fn end(&mut self, name: FileName, file: SystemFile<W>) -> io::Result<()> {
        if file.is_begun_at(name) {
            file.sync_all()
        } else {
            Err(io::Error::from(ErrorKind::InvalidInput))
        }
    }

    fn make(&mut self, name: FileName) -> io::Result<()> {
        let path = self.path_to_change(name)?;
        Descriptor::open(path.as_str(), TO_MAKE)?;
        Ok(())
    }

    fn put_at(&mut self, from: FileName, to: FileName) -> io::Result<()> {
        let path = self.path_to_change(from)?;
        let other = self.path_to_change(to)?;
        done(os::rename(path.as_str().as_bytes(), other.as_str().as_bytes()))
    }

    fn remove(&mut self, name: FileName) -> io::Result<()> {
        let path = self.path_to_change(name)?;
        match done(os::unlink(path.as_str().as_bytes())) {
            Err(error) if error.kind() == ErrorKind::NotFound => Ok(()),
            done => done,
        }
    }

    fn settle_names(&mut self) -> io::Result<()> {
        sync_folder(self.folder)
    }
}
