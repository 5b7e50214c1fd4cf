//! Calls of a log's files that are made again where a signal interrupts them.

ghost use Rattle.std.specs.Prelude.{◌≡◌, ◌≤◌, ℕ, List, Some, IfOk, length};
ghost use Rattle.std.specs.Io.{ReadsAtMost, WritesAtMost};
ghost use Rattle.file_disk.specs.File.{ReadsFrom, written_at};
ghost use Rattle.checked_disk.specs.Files.{IsQuiet, Writes, taken};
ghost use Rattle.checked_disk.specs.Stands.{WriteLasts};

use crate::files::LogFiles;
use std::io;
use std::io::ErrorKind;
use table_engine::{MOST_TRIES, is_interrupted};

/// Reads from a place on, and again while that is interrupted.
pub(crate) fn read_again<F: LogFiles>(files: &mut F, at: u64, piece: &mut [u8]) -> io::Result<usize>
    ensures bound { ReadsAtMost result piece.new }
    ensures room { length piece.new ≡ length piece.old }
    ensures bytes { IfOk result (λ count. ReadsFrom (F.contents files.old) at piece.new count) }
    ensures kept { F.contents files.new ≡ F.contents files.old }
    ensures mark { F.mark files.new ≡ F.mark files.old }
    ensures settles { F.settles files.new ≡ F.settles files.old }
    ensures puts { F.puts files.new ≡ F.puts files.old }
    ensures quiet { IsQuiet F.written F.may_leave F.moment F.left_since files.old files.new }
{
    for _ in 0..MOST_TRIES {
        match files.read_from(at, piece) {
            Err(error) if is_interrupted(&error) => {}
            read => return read,
        }
    }
    Err(io::Error::from(ErrorKind::TimedOut))
}

/// Writes from a place on, and again while that is interrupted.
pub(crate) fn write_again<F: LogFiles>(files: &mut F, at: u64, bytes: &[u8]) -> io::Result<usize>
    requires { (known : List ℕ) → F.contents files.old ≡ Some known → at ≤ length known }
    ensures bound { WritesAtMost result bytes.now }
    ensures bytes { F.contents files.new ≡ written_at result at bytes.now (F.contents files.old) }
    ensures mark { F.mark files.new ≡ F.mark files.old }
    ensures settles { F.settles files.new ≡ F.settles files.old }
    ensures puts { F.puts files.new ≡ F.puts files.old }
    ensures places { Writes (F.written files.old) (F.written files.new) at (taken result) }
    ensures lasts { WriteLasts F.may_leave F.moment F.left_since at bytes.now files.old files.new }
{
    for _ in 0..MOST_TRIES {
        match files.write_at(at, bytes) {
            Err(error) if is_interrupted(&error) => {}
            written => return written,
        }
    }
    Err(io::Error::from(ErrorKind::TimedOut))
}
