//! Files that are made beside the path at which they are to stand, and put there once they are whole.
ghost use Rattle.std.specs.Prelude.{◌≡◌, ◌≢◌, ◌<◌, ◌++◌, IfOk, codes, string_bytes, ⊤};
ghost use Rattle.std.specs.Fmt.{decimal};

use crate::opens::Makes;
use crate::place::{Place, Way};
use std::alloc::{AllocError, Global};
use std::fs::{File, Metadata, OpenFile, OpenOptions};
use std::io::{BufWriter, ErrorKind, Write};
use std::os::unix::fs::{MetadataExt, chown};
use std::rt::Files;
use std::{fs, io};
use table_engine::Sink;

/// How many names of a file beside a path are tried.
const NAMES: u32 = 10_000;

/// The name of a file that is not whole. Where it is dropped the file is removed.
struct Unfinished<R: Files + Drop> {
    files: R,
    name: String,
}

impl<R: Files + Drop> Drop for Unfinished<R> {
    fn drop(self) {
        let Unfinished { files, name } = self;
        let _ = fs::remove_file(&files, name.as_str());
    }
}

impl<R: Files + AllocGlobal + Clone + Drop> Unfinished<R> {
    /// Makes a file beside a path, under the first of its names that no file has, and opens it.
    fn beside(rt: &R, path: &str) -> io::Result<(Unfinished<R>, R::File)> {
        for number in 0..NAMES {
            let name = name_beside(rt.alloc(), path, number)?;
            let files = rt.clone()?;
            match File::create_new(rt, name.as_str()) {
                Ok(file) => return Ok((Unfinished { files, name }, file)),
                Err(error) if error.kind() == ErrorKind::AlreadyExists => {}
                Err(error) => return Err(error),
            }
        }
        Err(io::Error::from(ErrorKind::AlreadyExists))
    }
}

impl<R: Files + Drop> Unfinished<R> {
    /// Puts the file, which is whole, at a path. Where that fails it stays under its name.
    fn put(self, path: &str) -> io::Result<()> {
        let Unfinished { files, name } = self;
        fs::rename(&files, name.as_str(), path)
    }
}

// A path, `.part`, and then a number but the first.
fn name_beside(alloc: Global, path: &str, number: u32) -> Result<String, AllocError>
    ensures first { number ≡ 0 → IfOk result (λ name. string_bytes name ≡ path.now ++ codes ".part") }
    ensures further { 0 < number → IfOk result (λ name. string_bytes name ≡ path.now ++ codes ".part" ++ decimal number) }
{
    if number == 0 {
        format!(in alloc; "{path}.part")
    } else {
        format!(in alloc; "{path}.part{number}")
    }
}

/// A new file beside the path at which it is to stand, and a buffer before it.
#[derive(Drop)]
pub struct Beside<R: Files + Drop> {
    unfinished: Unfinished<R>,
    file: BufWriter<R::File>,
    path: String,
}

impl<R: Files + AllocGlobal + Clone + Drop> Beside<R> {
    /// A file beside a path, which takes memory.
    fn new(rt: &R, path: String) -> io::Result<Beside<R>> {
        let (unfinished, file) = Unfinished::beside(rt, path.as_str())?;
        let file = BufWriter::new(rt.alloc(), file)?;
        Ok(Beside {
            unfinished,
            file,
            path,
        })
    }

    /// A file beside one that can be written, with its permissions and, as far as the program may, its owner. A link is
    /// followed.
    fn instead(rt: &R, path: &str) -> io::Result<Beside<R>> {
        let old = OpenOptions::new().write(true).open(rt, path)?.metadata()?;
        let beside = Beside::new(rt, fs::canonicalize(rt, path)?.into_string())?;
        beside.resemble(&old)?;
        Ok(beside)
    }
}

impl<R: Files + Drop> Beside<R> {
    // Gives the file the owner, as far as the program may, and the permissions of another.
    fn resemble(&self, old: &Metadata) -> io::Result<()> {
        let Unfinished { files, name } = &self.unfinished;
        let _ = chown(files, name.as_str(), Some(old.uid()), Some(old.gid()));
        self.file.get_ref().set_permissions(old.permissions())
    }

    // Writes what the buffer holds, lets the system write the file, and puts it at its path.
    fn put(mut self) -> io::Result<()> {
        self.file.flush()?;
        self.file.get_ref().sync_all()?;
        let Beside {
            unfinished,
            file: _file,
            path,
        } = self;
        unfinished.put(path.as_str())
    }
}

/// A path that was tried.
#[derive(Drop)]
pub enum Begun<R: Files + Drop> {
    /// A file beside it is made.
    Beside(Beside<R>),
    /// What stands there is opened at the end.
    Append,
}

/// A file that is written.
#[derive(Drop)]
pub enum Made<R: Files + Drop> {
    Beside(Beside<R>),
    Append(R::File),
}

impl<R: Files + Drop> Write for Made<R> {
    fn write(&mut self, buf: &[u8]) -> io::Result<usize> {
        match self {
            Made::Beside(beside) => beside.file.write(buf),
            Made::Append(file) => file.write(buf),
        }
    }

    fn flush(&mut self) -> io::Result<()> {
        match self {
            Made::Beside(beside) => beside.file.flush(),
            Made::Append(file) => file.flush(),
        }
    }
}

/// The host's files, of which nothing is known. A path at which nothing or a regular file stands gets a file of its own: it is
/// made beside the path, as `PATH.part` or with a number behind that, before anything is written, and put there once it is
/// whole and the system has written it. What stood there stays until then. It is removed where it is not put there, but
/// where it is whole and only that fails. An old file has to be one that can be written, and the new one gets its
/// permissions; a link to it stays. A pipe or a device is opened at the end and written in place, and so is a regular file that
/// is the program's own standard output or standard error, at its end. A folder, a socket, a link that leads to nothing, the
/// empty path and the file that is read are refused. Only `begin` takes memory.
#[derive(Drop)]
pub struct HostFiles<'a, R> {
    pub rt: &'a R,
}

impl<'a, R: Files + AllocGlobal + Clone + Drop> Makes for HostFiles<'a, R> {
    type Begun = Begun<R>;

    type Made = Made<R>;

    ghost use Rattle.table_server.specs.Making.{unknown};

    ghost known = { unknown };

    fn begin(&mut self, path: &str, read: &str) -> io::Result<Begun<R>> {
        let rt = self.rt;
        match Place::at(rt, path, read)?.way() {
            Way::New => {
                let path = String::from_str(rt.alloc(), path)?;
                Ok(Begun::Beside(Beside::new(rt, path)?))
            }
            Way::Instead => Ok(Begun::Beside(Beside::instead(rt, path)?)),
            Way::Append => Ok(Begun::Append),
            Way::Refused => Err(io::Error::from(ErrorKind::InvalidInput)),
        }
    }

    fn make(&mut self, path: &str, begun: Begun<R>) -> io::Result<Made<R>> {
        match begun {
            Begun::Beside(beside) => Ok(Made::Beside(beside)),
            Begun::Append => Ok(Made::Append(OpenOptions::new().append(true).open(self.rt, path)?)),
        }
    }

    fn put(&mut self, _path: &str, made: Made<R>) -> io::Result<()> {
        match made {
            Made::Beside(beside) => beside.put(),
            Made::Append(_file) => Ok(()),
        }
    }

    fn leave(&mut self, _path: &str, _made: Sink<Made<R>>)
        requires { _made.failures ≢ 0 }
        ensures { ⊤ }
    {}
}
