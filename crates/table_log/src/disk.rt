//! Where the bytes of a log are.

ghost use Rattle.std.specs.Prelude.{◌≡◌, ◌+◌, ◌≤◌, ℕ, List, Option, Some, IfOk, OnErr, OnOk, length};
ghost use Rattle.table_engine.specs.Devices.{failures_after};
ghost use Rattle.table_log.specs.Disk.{AppendsAll, Cuts, Reads, synced_after};

use crate::fault::DiskFailed;
use std::alloc::AllocError;

/// Bytes that are appended, and how many of the first of them are synced. A crash leaves the synced ones.
pub trait Disk: Drop {
    /// Its bytes, where they are known.
    ghost contents: { Self → Option (List ℕ) };

    /// How many they are.
    ghost size: { Self → ℕ };

    /// How many of the first ones are synced.
    ghost synced: { Self → ℕ };

    /// How often it failed.
    ghost failures: { Self → ℕ };

    /// The second is the first but for what reads change.
    ghost same: { Self → Self → Type 0 };

    /// The number of its bytes. O(1).
    fn size(&self) -> u64
        ensures { result ≡ size self.now };

    /// The number of the synced ones. O(1).
    fn synced(&self) -> u64
        ensures { result ≡ synced self.now };

    /// Reads bytes from a place on, as many as it likes, but one or more where there are any.
    fn read(&mut self, at: u64, piece: &mut [u8]) -> Result<usize, DiskFailed>
        requires { at ≤ size self.old }
        ensures bytes { IfOk result (λ count. Reads (contents self.old) (size self.old) at (length piece.old) piece.new count) }
        ensures contents { contents self.new ≡ contents self.old }
        ensures size { size self.new ≡ size self.old }
        ensures synced { synced self.new ≡ synced self.old }
        ensures failures { failures self.new ≡ failures_after result (failures self.old) }
        ensures same { same self.old self.new };

    /// Takes the memory that an append of so many bytes needs.
    fn reserve(&mut self, count: usize) -> Result<(), AllocError>
        ensures contents { contents self.new ≡ contents self.old }
        ensures size { size self.new ≡ size self.old }
        ensures synced { synced self.new ≡ synced self.old }
        ensures failures { failures self.new ≡ failures self.old };

    /// Puts bytes behind the others. At an `Err` a front of them is there.
    fn append(&mut self, bytes: &[u8]) -> Result<(), DiskFailed>
        ensures contents { AppendsAll result (contents self.old) (contents self.new) bytes.now }
        ensures size { OnOk result (size self.new ≡ size self.old + length bytes.now) }
        ensures synced { synced self.new ≡ synced self.old }
        ensures failures { failures self.new ≡ failures_after result (failures self.old) };

    /// Makes sure of all bytes.
    fn sync(&mut self) -> Result<(), DiskFailed>
        ensures contents { contents self.new ≡ contents self.old }
        ensures size { size self.new ≡ size self.old }
        ensures synced { synced self.new ≡ synced_after result (size self.old) (synced self.old) }
        ensures failures { failures self.new ≡ failures_after result (failures self.old) };

    /// Begins a sync that goes on beside the calls of this disk: who waits for it needs no call of the disk. It makes sure of the bytes so far.
    fn begin_sync(&mut self)
        ensures contents { contents self.new ≡ contents self.old }
        ensures size { size self.new ≡ size self.old }
        ensures synced { synced self.new ≡ synced self.old }
        ensures failures { failures self.new ≡ failures self.old };

    /// Counts what the sync that was begun last made sure of, if it came to its end.
    fn end_sync(&mut self) -> Result<(), DiskFailed>
        ensures contents { contents self.new ≡ contents self.old }
        ensures size { size self.new ≡ size self.old }
        ensures synced { OnOk result (synced self.old ≤ synced self.new) }
        ensures kept { OnErr result (synced self.new ≡ synced self.old) }
        ensures failures { failures self.new ≡ failures_after result (failures self.old) };

    /// Takes away what stands behind the first bytes, and makes sure of those. At an `Err` it may have been taken away.
    fn cut(&mut self, count: u64) -> Result<(), DiskFailed>
        requires { count ≤ size self.old }
        ensures contents { Cuts result count (contents self.old) (contents self.new) (size self.new) (synced self.new) }
        ensures failures { failures self.new ≡ failures_after result (failures self.old) };

    /// It is so beside itself.
    ghost stays: { (disk : Self) → same disk disk };

    /// It is so after two reads as after one.
    ghost goes_on: { (a b c : Self) → same a b → same b c → same a c };

    /// Its size is the number of its bytes.
    ghost counted: { (disk : Self) (bytes : List ℕ) → contents disk ≡ Some bytes → size disk ≡ length bytes };
}
