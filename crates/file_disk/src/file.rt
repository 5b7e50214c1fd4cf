//! The file that a log is kept in.

ghost use Rattle.std.specs.Prelude.{◌≡◌, ◌≤◌, ℕ, List, Option, Some, IfOk, OnErr, OnOk, option_map, take, length};
ghost use Rattle.std.specs.Io.{ReadsAtMost, WritesAtMost};
ghost use Rattle.table_engine.specs.Devices.{raised};
ghost use Rattle.file_disk.specs.File.{ReadsFrom, written_at};

use std::io;

/// A file that is read and written at any place. It must not be open for appending, where a system writes behind the other bytes whatever the place.
pub trait LogFile: Drop {
    /// Its bytes, where they are known.
    ghost contents: { Self → Option (List ℕ) };

    /// How often it was settled.
    ghost settles: { Self → ℕ };

    /// Reads bytes from a place on, in one call. None where the file ends there.
    fn read_from(&mut self, at: u64, piece: &mut [u8]) -> io::Result<usize>
        ensures bound { ReadsAtMost result piece.new }
        ensures room { length piece.new ≡ length piece.old }
        ensures bytes { IfOk result (λ count. ReadsFrom (contents self.old) at piece.new count) }
        ensures kept { contents self.new ≡ contents self.old }
        ensures settles { settles self.new ≡ settles self.old };

    /// Writes bytes from a place on, over what stands there and behind it, in one call, as many as it likes.
    fn write_at(&mut self, at: u64, bytes: &[u8]) -> io::Result<usize>
        requires { (known : List ℕ) → contents self.old ≡ Some known → at ≤ length known }
        ensures bound { WritesAtMost result bytes.now }
        ensures bytes { contents self.new ≡ written_at result at bytes.now (contents self.old) }
        ensures settles { settles self.new ≡ settles self.old };

    /// Takes away what stands behind the first bytes.
    fn shorten(&mut self, count: u64) -> io::Result<()>
        ensures settles { settles self.new ≡ settles self.old }
        ensures cut { OnOk result (contents self.new ≡ option_map (take count) (contents self.old)) }
        ensures kept { OnErr result (contents self.new ≡ contents self.old) };

    /// Waits until the system has its bytes where a crash leaves them.
    fn settle(&mut self) -> io::Result<()>
        ensures kept { contents self.new ≡ contents self.old }
        ensures settles { OnOk result (settles self.new ≡ raised (settles self.old)) };
}
