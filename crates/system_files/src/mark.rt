//! The mark of a log: which write is known to be on the disk.

ghost use Rattle.std.specs.Prelude.{◌≡◌, OnOk};
ghost use Rattle.table_engine.specs.Devices.{raised};

use crate::clock::{is_second_since, now};
use crate::descriptor::{Descriptor, TO_MAKE};
use checked_log::MARK_BYTES;
use std::io;
use std::io::ErrorKind;

/// A mark's file. It is made whole where it is absent.
#[derive(Drop)]
pub(crate) struct SystemMark {
    path: String,
    file: Option<Descriptor>,
    synced: Option<i64>,
    puts: u64,
}

impl SystemMark {
    /// The mark at a path, which is opened where it is written first.
    pub(crate) fn new(path: String) -> SystemMark {
        SystemMark {
            path,
            file: None,
            synced: None,
            puts: 0,
        }
    }

    // Opens the file, and makes it whole.
    fn open(&mut self) -> io::Result<()>
        ensures { self.new.puts ≡ self.old.puts }
    {
        if self.file.is_some() {
            return Ok(());
        }
        let file = Descriptor::open(self.path.as_str(), TO_MAKE)?;
        make_whole(&file)?;
        self.file = Some(file);
        Ok(())
    }

    // Whether a second has passed since the last sync, as far as is known.
    fn is_due(&self) -> bool {
        is_second_since(self.synced).unwrap_or(true)
    }

    // Waits until the system has the mark.
    fn sync(&mut self) -> io::Result<()>
        ensures { self.new.puts ≡ self.old.puts }
    {
        let Some(file) = &self.file else {
            return Err(io::Error::from(ErrorKind::NotFound));
        };
        file.sync_data()?;
        self.synced = now();
        Ok(())
    }

    /// Writes a slot at a place, and waits until the system has it where a second has passed since that was done, unless another waits for it.
    pub(crate) fn put(&mut self, at: u64, slot: &[u8], is_left: bool) -> io::Result<()>
        ensures { OnOk result (self.new.puts ≡ raised self.old.puts) }
    {
        self.open()?;
        let Some(file) = &self.file else {
            return Err(io::Error::from(ErrorKind::NotFound));
        };
        file.write_all_at(at, slot)?;
        if !is_left && self.is_due() {
            self.sync()?;
        }
        self.puts = self.puts.saturating_add(1);
        Ok(())
    }
}

// Writes zeros behind the bytes of a mark that are there, so that it has all of them.
fn make_whole(file: &Descriptor) -> io::Result<()> {
    let mut found = [0; MARK_BYTES];
    let count = file.read_all_at(0, &mut found)?;
    let (_, missing) = found.split_at(count.min(MARK_BYTES));
    file.write_all_at(count as u64, missing)
}
