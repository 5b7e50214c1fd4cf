//! Calls of a file that are made again where a signal interrupts them.

ghost use Rattle.std.specs.Prelude.{◌≡◌, ◌≢◌, ◌≤◌, ℕ, List, Some, IfErr, IfOk, length};
ghost use Rattle.std.specs.Io.{ReadsAtMost, WritesAtMost};
ghost use Rattle.std.specs.IoError.{error_kind};
ghost use Rattle.file_disk.specs.File.{ReadsFrom, written_at};

use crate::file::LogFile;
use std::io;
use std::io::ErrorKind;
use table_engine::{MOST_TRIES, is_interrupted};

/// Reads from a place on, and again while that is interrupted.
pub(crate) fn read_again<F: LogFile>(file: &mut F, at: u64, piece: &mut [u8]) -> io::Result<usize>
    ensures bound { ReadsAtMost result piece.new }
    ensures room { length piece.new ≡ length piece.old }
    ensures bytes { IfOk result (λ count. ReadsFrom (F.contents file.old) at piece.new count) }
    ensures kept { F.contents file.new ≡ F.contents file.old }
    ensures settles { F.settles file.new ≡ F.settles file.old }
    ensures again { IfErr result (λ error. error_kind error ≢ ErrorKind.Interrupted) }
{
    for _ in 0..MOST_TRIES {
        match file.read_from(at, piece) {
            Err(error) if is_interrupted(&error) => {}
            read => return read,
        }
    }
    Err(io::Error::from(ErrorKind::TimedOut))
}

/// Writes from a place on, and again while that is interrupted.
pub(crate) fn write_again<F: LogFile>(file: &mut F, at: u64, bytes: &[u8]) -> io::Result<usize>
    requires { (known : List ℕ) → F.contents file.old ≡ Some known → at ≤ length known }
    ensures bound { WritesAtMost result bytes.now }
    ensures bytes { F.contents file.new ≡ written_at result at bytes.now (F.contents file.old) }
    ensures settles { F.settles file.new ≡ F.settles file.old }
    ensures again { IfErr result (λ error. error_kind error ≢ ErrorKind.Interrupted) }
{
    for _ in 0..MOST_TRIES {
        match file.write_at(at, bytes) {
            Err(error) if is_interrupted(&error) => {}
            written => return written,
        }
    }
    Err(io::Error::from(ErrorKind::TimedOut))
}
