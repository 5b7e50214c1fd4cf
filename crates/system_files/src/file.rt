//! A file of the folder that is open.

ghost use Rattle.std.specs.Prelude.{◌≡◌};

use crate::descriptor::Descriptor;
use crate::watch::{Reading, Watch};
use file_disk::LogFile;
use std::io;
use std::io::ErrorKind;
use table_folder::FileName;

/// A file that is open, and the name at which it was begun, if it was. Where it is absent it is empty, and is not changed. What it holds
/// is not known to a contract.
#[derive(Drop)]
pub struct SystemFile<W: Watch = ()> {
    file: Option<Descriptor>,
    begun: Option<FileName>,
    reading: Reading<W>,
    settles: u64,
}

impl<W: Watch> SystemFile<W> {
    /// A file that was opened, or that is absent.
    pub(crate) fn new(
        file: Option<Descriptor>,
        begun: Option<FileName>,
        reading: Reading<W>,
    ) -> SystemFile<W> {
        SystemFile {
            file,
            begun,
            reading,
            settles: 0,
        }
    }

    // The file, where it is there.
    fn there(&self) -> io::Result<&Descriptor> {
        match &self.file {
            Some(file) => Ok(file),
            None => Err(io::Error::from(ErrorKind::NotFound)),
        }
    }

    /// Whether it was begun at this name.
    pub(crate) fn is_begun_at(&self, name: FileName) -> bool {
        self.begun == Some(name)
    }

    /// Waits until the system has the file, its length and its times where a crash leaves them.
    pub(crate) fn sync_all(&self) -> io::Result<()> {
        self.there()?.sync_all()
    }
}

impl<W: Watch> LogFile for SystemFile<W> {
    ghost use Rattle.std.specs.Prelude.{None};

    ghost contents = { λ _. None };

    ghost settles = { λ f. f.settles };

    fn read_from(&mut self, at: u64, piece: &mut [u8]) -> io::Result<usize> {
        self.reading.reads(at);
        match &self.file {
            Some(file) => file.read_at(at, piece),
            None => Ok(0),
        }
    }

    fn write_at(&mut self, at: u64, bytes: &[u8]) -> io::Result<usize> {
        self.there()?.write_at(at, bytes)
    }

    fn shorten(&mut self, count: u64) -> io::Result<()> {
        self.there()?.set_len(count)
    }

    fn settle(&mut self) -> io::Result<()> {
        self.there()?.sync_data()?;
        self.settles = self.settles.saturating_add(1);
        Ok(())
    }
}
