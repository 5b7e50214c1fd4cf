//! What the lines of a disk leave, where the disk stays with its owner.

ghost use Rattle.std.specs.Prelude.{◌≡◌, ◌≤◌, ℕ, List, Some, IfErr, IfOk};
ghost use Rattle.table_log.specs.Loaded.{IsReplayed};
ghost use Rattle.table_log.specs.Loading.{IsUnloaded, failures_after_load};

use crate::disk::Disk;
use crate::fault::OpenWhy;
use crate::loading::load;
use std::alloc::Global;
use table_step::Table;

/// The table that whole lines leave, and how many bytes stand behind them.
#[derive(Drop)]
pub struct Replayed {
    pub table: Table,
    pub torn: u64,
}

/// Carries out the whole lines of a disk on the table that they begin with, and changes nothing of the disk. O(bytes), and what the commands cost.
pub fn replay<D: Disk>(alloc: Global, start: Table, disk: &mut D) -> Result<Replayed, OpenWhy>
    ensures replayed { IfOk result (λ replayed. (bytes : List ℕ) → D.contents disk.old ≡ Some bytes → IsReplayed start bytes replayed.torn replayed.table) }
    ensures within { IfOk result (λ replayed. replayed.torn ≤ D.size disk.old) }
    ensures refused { IfErr result (λ why. (bytes : List ℕ) → D.contents disk.old ≡ Some bytes → IsUnloaded start bytes why) }
    ensures contents { D.contents disk.new ≡ D.contents disk.old }
    ensures size { D.size disk.new ≡ D.size disk.old }
    ensures synced { D.synced disk.new ≡ D.synced disk.old }
    ensures failures { D.failures disk.new ≡ failures_after_load result (D.failures disk.old) }
    ensures same { D.same disk.old disk.new }
{
    match load(alloc, start, disk) {
        Ok(loader) => Ok(Replayed {
            table: loader.table,
            torn: loader.line.len() as u64,
        }),
        Err(why) => Err(why),
    }
}
