//! A table under another declaration.

ghost use Rattle.std.specs.Prelude.{◌≡◌, None, IfErr, IfOk};
ghost use Rattle.table_alter.specs.Altered.{AreHeld, FillsFit, IsWhyNot, altered_table, entries_of as the_entries_of, first_beyond as the_first_beyond};
ghost use Rattle.table_schema.specs.Valid.{IsValidTable};
ghost use Rattle.table_state.specs.Standing.{CanStand};

use crate::entries::{entries_of, first_beyond};
use crate::fault::Unalterable;
use crate::order::orders_of;
use crate::source::{Fill, sources_of};
use container_model::Entry;
use key_extract::Row;
use std::alloc::Global;
use table_schema::TableSpec;
use table_step::{Saved, Table, Unrestorable};

// Its records, where each column can hold its cell, and there may be so many of them in such slots.
fn fitting_entries(
    alloc: Global,
    table: &Table,
    after: &TableSpec,
    fills: &[Fill],
) -> Result<Vec<Entry<Row>>, Unalterable>
    ensures entries { IfOk result (λ entries. entries.items ≡ the_entries_of table.now after.now fills.now) }
    ensures held { IfOk result (λ entries. AreHeld after.now entries.items) }
    ensures within { IfOk result (λ entries. the_first_beyond after.now.max entries.items ≡ None) }
    ensures why { IfErr result (IsWhyNot table.now after.now fills.now) }
    ensures valid { IsValidTable after.now }
{
    let before = table.records().spec().columns();
    let sources = sources_of(alloc, before, fills, after.columns())?;
    let entries = entries_of(alloc, table, after.columns(), &sources)?;
    if entries.len() > after.max() as usize {
        return Err(Unalterable::Full);
    }
    match first_beyond(&entries, after.max()) {
        Some(handle) => Err(Unalterable::Slot(handle)),
        None => Ok(entries),
    }
}

/// The table under another declaration: each record with exactly its columns, under its own handle, and the same number of the last write. A column that was there keeps its
/// cells, and one that is added has the value that is given for it, or null. An index that stays keeps its order, and a new one has the order of one that is added. What would
/// ban a record is refused. The table is left. O(n log n) for each new index, and a copy of the records.
pub fn altered(
    alloc: Global,
    table: &Table,
    after: &TableSpec,
    fills: &[Fill],
) -> Result<Table, Unalterable>
    ensures altered { IfOk result (λ new. new ≡ altered_table table.now after.now fills.now) }
    ensures stands { CanStand table.now → FillsFit fills.now → IfOk result CanStand }
    ensures why { IfErr result (IsWhyNot table.now after.now fills.now) }
{
    let entries = fitting_entries(alloc, table, after, fills)?;
    let orders = orders_of(alloc, table, after, &entries)?;
    let saved = Saved {
        writes: table.records().container().writes(),
        entries,
        orders,
    };
    match Table::restored(alloc, after.copy()?, saved) {
        Ok(new) => {
            new.records().container().writes();
            Ok(new)
        }
        Err(Unrestorable::Memory) => Err(Unalterable::Memory),
        Err(_) => Err(Unalterable::Unfit),
    }
}
