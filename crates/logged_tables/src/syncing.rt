//! When logs are synced, and how.

ghost use Rattle.std.specs.Prelude.{◌<◌, OnErr, OnOk};
ghost use Rattle.logged_tables.specs.Standing.{StopsSync, SyncsTo};

use table_log::{Disk, LoggedTable, Mark, Over};

/// When the logs of what is answered are synced.
#[derive(Clone, Copy, Debug, PartialEq, Eq)]
pub enum Syncing {
    /// Before an answer leaves: the logs of all tables that it rests on.
    Each,
    /// By `LoggedTables::sync_beside`, which the program calls once a second.
    Second,
    /// By the system.
    Never,
}

/// Makes sure of a table's log, which is lent, up to a mark. Where that is synced nothing is done. O(what the disk takes).
pub(crate) fn sync_to<D: Disk>(table: &mut LoggedTable<D>, mark: Mark) -> Result<(), Over>
    ensures synced { OnOk result (SyncsTo mark table.old table.new) }
    ensures stopped { OnErr result (StopsSync mark table.old table.new) }
{
    if table.is_synced(mark) {
        return Ok(());
    }
    match table.sync() {
        Ok(()) => {}
        Err(over) => return Err(over),
    }
    // A mark is never beyond its log, but that is not known here.
    if table.is_synced(mark) {
        Ok(())
    } else {
        Err(Over)
    }
}
