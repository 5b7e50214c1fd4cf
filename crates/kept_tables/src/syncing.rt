//! Syncs logs.

ghost use Rattle.kept_tables.specs.Syncs.{Syncs, SyncsOne};

use table_log::{Disk, LoggedTable, Over};

// Syncs a log that has bytes that are not synced.
fn sync_one<D: Disk>(table: &mut LoggedTable<D>) -> Result<(), Over>
    ensures { SyncsOne result table.old table.new }
{
    if table.is_synced(table.mark()) {
        return Ok(());
    }
    match table.sync() {
        Ok(()) => Ok(()),
        Err(over) => Err(over),
    }
}

/// Syncs each log that has bytes that are not synced, up to the first that can't be.
pub(crate) fn sync_all<D: Disk>(tables: &mut [LoggedTable<D>]) -> Result<(), Over>
    ensures { Syncs result tables.old tables.new }
{
    for place in 0..tables.len() {
        match sync_one(&mut tables[place]) {
            Ok(()) => {}
            Err(over) => return Err(over),
        }
    }
    Ok(())
}
