//! What is known of the path of a file that is to be written, and the way in which it is written there.
ghost use Rattle.std.specs.Prelude.{◌≡◌, ◌↔◌};
ghost use Rattle.std.specs.Fs.{IsDir, IsFile, file_type};
ghost use Rattle.table_server.specs.Place.{way_to};

use std::fs::Metadata;
use std::io::ErrorKind;
use std::os::unix::fs::{FileTypeExt, MetadataExt};
use std::rt::Files;
use std::{fs, io};

/// What stands at a path, its links followed.
#[derive(Clone, Copy, Debug, PartialEq, Eq)]
pub enum Standing {
    /// Nothing yet.
    Nothing,
    /// Nothing, and no file can be put there: the path is empty, or a link that leads to nothing.
    Nowhere,
    /// A regular file.
    File,
    Folder,
    Socket,
    /// A pipe or a device.
    Other,
}

/// What is known of a path.
#[derive(Clone, Copy, Debug, PartialEq, Eq)]
pub struct Place {
    pub standing: Standing,
    /// What stands there is a file that the program reads.
    pub is_read: bool,
    /// What stands there is the program's own standard output or standard error.
    pub is_output: bool,
}

/// The way in which a file is written to a path.
#[derive(Clone, Copy, Debug, PartialEq, Eq)]
pub enum Way {
    /// Beside it, and put there once it is whole.
    New,
    /// The same, in place of the file that stands there.
    Instead,
    /// To the end of what stands there.
    Append,
    /// In none.
    Refused,
}

impl Place {
    /// The way in which a file is written there. A file that the program reads is refused, whatever stands there.
    pub(crate) fn way(self) -> Way
        ensures { result ≡ way_to self }
    {
        match self.standing {
            _ if self.is_read => Way::Refused,
            Standing::Nothing => Way::New,
            Standing::File if self.is_output => Way::Append,
            Standing::File => Way::Instead,
            Standing::Other => Way::Append,
            Standing::Nowhere | Standing::Folder | Standing::Socket => Way::Refused,
        }
    }

    /// What is known of a path, where the program reads the file of another.
    pub(crate) fn at<R: Files>(files: &R, path: &str, read: &str) -> io::Result<Place> {
        match fs::metadata(files, path) {
            Ok(found) => Ok(Place {
                standing: standing_of(&found),
                is_read: is_at(files, &found, read),
                is_output: is_at(files, &found, OUTPUT) || is_at(files, &found, FAULTS),
            }),
            Err(error) if error.kind() == ErrorKind::NotFound => Ok(Place {
                standing: absent(files, path),
                is_read: false,
                is_output: false,
            }),
            Err(error) => Err(error),
        }
    }
}

/// The program's own standard output, and its standard error.
const OUTPUT: &str = "/proc/self/fd/1";

const FAULTS: &str = "/proc/self/fd/2";

// Whether what was found is what stands at a path.
fn is_at<R: Files>(files: &R, found: &Metadata, path: &str) -> bool {
    match fs::metadata(files, path) {
        Ok(other) => other.dev() == found.dev() && other.ino() == found.ino(),
        Err(_) => false,
    }
}

// What stands at a path, by what was found there.
fn standing_of(found: &Metadata) -> Standing
    ensures file { (result ≡ Standing.File) ↔ IsFile (file_type found.now) }
    ensures folder { (result ≡ Standing.Folder) ↔ IsDir (file_type found.now) }
{
    let kind = found.file_type();
    if kind.is_file() {
        Standing::File
    } else if kind.is_dir() {
        Standing::Folder
    } else if kind.is_socket() {
        Standing::Socket
    } else {
        Standing::Other
    }
}

// What stands at a path where nothing was found.
fn absent<R: Files>(files: &R, path: &str) -> Standing {
    if path.is_empty() || fs::symlink_metadata(files, path).is_ok() {
        Standing::Nowhere
    } else {
        Standing::Nothing
    }
}
