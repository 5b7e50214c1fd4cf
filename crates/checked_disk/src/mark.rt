//! The file that a log's mark is kept in.

ghost use Rattle.std.specs.Prelude.{◌≡◌, ℕ, List, Option, OnOk, option_map};
ghost use Rattle.file_disk.specs.File.{over};
ghost use Rattle.table_engine.specs.Devices.{raised};

use std::io;

/// A file of `MARK_BYTES` bytes with two slots.
pub trait MarkFile: Drop {
    /// Its bytes, where they are known.
    ghost contents: { Self → Option (List ℕ) };

    /// How often a slot was put.
    ghost puts: { Self → ℕ };

    /// Writes a slot from a place on, over what stands there, whole. It need not wait until the system has it where a crash leaves it.
    fn put(&mut self, at: u64, slot: &[u8]) -> io::Result<()>
        ensures bytes { OnOk result (contents self.new ≡ option_map (over at slot.now) (contents self.old)) }
        ensures puts { OnOk result (puts self.new ≡ raised (puts self.old)) };
}
