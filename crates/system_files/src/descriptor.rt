//! A file that is open.

ghost use Rattle.std.specs.Prelude.{◌≡◌, ◌≤◌, IfOk, length};
ghost use Rattle.std.specs.Io.{ReadsAtMost, WritesAtMost};

use std::io;
use std::io::ErrorKind;
use table_engine::{MOST_TRIES, is_interrupted};

/// Who may read and write the files: their owner.
const FILE_MODE: u32 = 0o600;

/// How a file is opened: to read it, to read and write it, or the same where it is made if it is absent, and emptied if it is not.
pub(crate) const TO_READ: i32 = libc::O_RDONLY;

pub(crate) const TO_WRITE: i32 = libc::O_RDWR;

pub(crate) const TO_MAKE: i32 = libc::O_RDWR | libc::O_CREAT;

pub(crate) const TO_EMPTY: i32 = libc::O_RDWR | libc::O_CREAT | libc::O_TRUNC;

/// A file that is open. It is closed where this is dropped.
pub(crate) struct Descriptor {
    number: i32,
}

impl Drop for Descriptor {
    fn drop(self) {
        let Descriptor { number } = self;
        libc::close(number);
    }
}

/// The error of the call that failed last.
pub(crate) fn last_error() -> io::Error {
    io::Error::from_raw_os_error(os::errno())
}

/// What the status of a call says.
pub(crate) fn done(status: i32) -> io::Result<()> {
    if status < 0 {
        Err(last_error())
    } else {
        Ok(())
    }
}

// How many bytes a call moved, of so many.
fn moved(count: isize, most: usize) -> io::Result<usize>
    ensures { IfOk result (λ n. n ≤ most) }
{
    if count < 0 {
        return Err(last_error());
    }
    Ok((count as usize).min(most))
}

// A place in a file, as the system counts.
fn place(at: u64) -> io::Result<i64> {
    if at > i64::MAX as u64 {
        return Err(io::Error::from(ErrorKind::InvalidInput));
    }
    Ok(at as i64)
}

// A call on a file that is open, which tells a status.
#[derive(Clone, Copy)]
enum Call {
    Shorten(i64),
    SyncData,
    SyncAll,
    Lock,
}

impl Descriptor {
    /// Opens the file at a path, and again while that is interrupted.
    pub(crate) fn open(path: &str, how: i32) -> io::Result<Descriptor> {
        for _ in 0..MOST_TRIES {
            let number = os::open_with(path.as_bytes(), how, FILE_MODE);
            if number >= 0 {
                return Ok(Descriptor { number });
            }
            let error = last_error();
            if !is_interrupted(&error) {
                return Err(error);
            }
        }
        Err(io::Error::from(ErrorKind::TimedOut))
    }

    /// Its number.
    pub(crate) fn number(&self) -> i32 {
        self.number
    }

    /// How many bytes it has. A folder is refused, and what has no places, as a pipe.
    pub(crate) fn size(&self) -> io::Result<u64> {
        self.read_all_at(0, &mut [])?;
        let size = libc::lseek(self.number, 0, libc::SEEK_END);
        if size < 0 {
            Err(last_error())
        } else {
            Ok(size as u64)
        }
    }

    /// Reads bytes from a place on, in one call.
    pub(crate) fn read_at(&self, at: u64, piece: &mut [u8]) -> io::Result<usize>
        ensures bound { ReadsAtMost result piece.new }
        ensures room { length piece.new ≡ length piece.old }
    {
        let most = piece.len();
        moved(libc::pread(self.number, piece, place(at)?), most)
    }

    /// Writes bytes from a place on, in one call.
    pub(crate) fn write_at(&self, at: u64, bytes: &[u8]) -> io::Result<usize>
        ensures { WritesAtMost result bytes.now }
    {
        moved(libc::pwrite(self.number, bytes, place(at)?), bytes.len())
    }

    /// Reads bytes from a place on, as many as there are and fit, and counts them.
    pub(crate) fn read_all_at(&self, at: u64, piece: &mut [u8]) -> io::Result<usize> {
        let mut count = 0usize;
        for _ in 0..MOST_TRIES {
            let Some(rest) = piece.get_mut(count..) else {
                break;
            };
            match self.read_at(at.saturating_add(count as u64), rest) {
                Ok(0) => break,
                Ok(more) => count = count.saturating_add(more),
                Err(error) if is_interrupted(&error) => {}
                Err(error) => return Err(error),
            }
        }
        Ok(count)
    }

    /// Writes all bytes from a place on.
    pub(crate) fn write_all_at(&self, at: u64, bytes: &[u8]) -> io::Result<()> {
        let mut at = at;
        let mut rest = bytes;
        for _ in 0..MOST_TRIES {
            if rest.is_empty() {
                return Ok(());
            }
            match self.write_at(at, rest) {
                Ok(0) => return Err(io::Error::from(ErrorKind::WriteZero)),
                Ok(count) => {
                    at = at.saturating_add(count as u64);
                    let (_, behind) = rest.split_at(count);
                    rest = behind;
                }
                Err(error) if is_interrupted(&error) => {}
                Err(error) => return Err(error),
            }
        }
        Err(io::Error::from(ErrorKind::TimedOut))
    }

    // Makes a call, and again while that is interrupted.
    fn call(&self, call: Call) -> io::Result<()> {
        for _ in 0..MOST_TRIES {
            match done(self.status_of(call)) {
                Err(error) if is_interrupted(&error) => {}
                done => return done,
            }
        }
        Err(io::Error::from(ErrorKind::TimedOut))
    }

    // The status of a call.
    fn status_of(&self, call: Call) -> i32 {
        match call {
            Call::Shorten(count) => libc::ftruncate(self.number, count),
            Call::SyncData => libc::fdatasync(self.number),
            Call::SyncAll => libc::fsync(self.number),
            Call::Lock => libc::flock(self.number, libc::LOCK_EX | libc::LOCK_NB),
        }
    }

    /// Takes away what stands behind the first bytes.
    pub(crate) fn set_len(&self, count: u64) -> io::Result<()> {
        self.call(Call::Shorten(place(count)?))
    }

    /// Waits until the system has its bytes where a crash leaves them.
    pub(crate) fn sync_data(&self) -> io::Result<()> {
        self.call(Call::SyncData)
    }

    /// The same, with its length and its times.
    pub(crate) fn sync_all(&self) -> io::Result<()> {
        self.call(Call::SyncAll)
    }

    /// Takes the file's lock, unless another has it. It goes with the file.
    pub(crate) fn take_lock(&self) -> io::Result<()> {
        self.call(Call::Lock)
    }
}
