//! The records of a table under another declaration.

ghost use Rattle.std.specs.Prelude.{◌≡◌, ◌==◌, true, false, Some, None, IfErr, IfOk, is_some, map};
ghost use Rattle.std.specs.List.{AllByRecursion};
ghost use Rattle.container_model.specs.State.{row_of};
ghost use Rattle.list_model.specs.Order.{EachPair};
ghost use Rattle.table_alter.specs.Altered.{IsUnheldRow, first_beyond as the_first_beyond};
ghost use Rattle.table_alter.specs.Sources.{entry_from, first_unheld as the_first_unheld, row_from as the_row_from};
ghost use Rattle.table_terms.specs.Table.{Cells};

use crate::fault::Unalterable;
use crate::source::{Source, first_unheld, row_from};
use container_model::{Entry, Handle};
use key_extract::Row;
use std::alloc::{AllocError, Global};
use table_schema::Column;
use table_step::Table;

// The row that the record of a handle gets. Each of its columns can hold its cell.
fn row_at(
    alloc: Global,
    table: &Table,
    columns: &[Column],
    sources: &[Source],
    handle: Handle,
) -> Result<Row, Unalterable>
    requires { is_some (row_of table.now.records.entries handle) ≡ true }
    ensures row { (cells : Cells) → row_of table.now.records.entries handle ≡ Some cells → IfOk result (λ row. row ≡ the_row_from sources.now cells) }
    ensures held { IfOk result (λ row. the_first_unheld columns.now row ≡ None) }
    ensures why { IfErr result (IsUnheldRow table.now.records.entries columns.now sources.now) }
{
    let Ok(cells) = table.records().container().get(handle) else {
        unreachable!();
    };
    let row = row_from(alloc, sources, cells.cells())?;
    match first_unheld(columns, row.cells()) {
        Some(column) => Err(Unalterable::Cell { column, handle }),
        None => Ok(row),
    }
}

// The handles of the records, in the order of their insertion. No two records lie in one slot.
fn all_handles(table: &Table) -> Result<Vec<Handle>, AllocError>
    ensures handles { IfOk result (λ handles. handles.items ≡ map (λ e. e.handle) table.now.records.entries) }
    ensures apart { EachPair (λ a b. (b.handle.slot == a.handle.slot) ≡ false) table.now.records.entries }
{
    let container = table.records().container();
    container.writes();
    container.handles()
}

/// The records of a table with these columns, under their own handles. Each column can hold its cell.
pub(crate) fn entries_of(
    alloc: Global,
    table: &Table,
    columns: &[Column],
    sources: &[Source],
) -> Result<Vec<Entry<Row>>, Unalterable>
    ensures entries { IfOk result (λ entries. entries.items ≡ map (entry_from sources.now) table.now.records.entries) }
    ensures held { IfOk result (λ entries. AllByRecursion (λ e. the_first_unheld columns.now e.row ≡ None) entries.items) }
    ensures why { IfErr result (IsUnheldRow table.now.records.entries columns.now sources.now) }
{
    let handles = all_handles(table)?;
    let mut entries = Vec::with_capacity(alloc, handles.len())?;
    for handle in &handles {
        let row = row_at(alloc, table, columns, sources, *handle)?;
        entries.push(Entry {
            handle: *handle,
            row,
        })?;
    }
    Ok(entries)
}

/// The first record that lies in a slot past the first so many.
pub(crate) fn first_beyond(entries: &[Entry<Row>], max: u32) -> Option<Handle>
    ensures { result ≡ the_first_beyond max entries.now }
{
    for entry in entries {
        if entry.handle.slot >= max {
            return Some(entry.handle);
        }
    }
    None
}

/// Equal records, newly allocated.
pub(crate) fn copy_entries(
    alloc: Global,
    entries: &[Entry<Row>],
) -> Result<Vec<Entry<Row>>, AllocError>
    ensures { IfOk result (λ copies. copies.items ≡ entries.now) }
{
    let mut copies = Vec::with_capacity(alloc, entries.len())?;
    for entry in entries {
        copies.push(Entry {
            handle: entry.handle,
            row: entry.row.copy()?,
        })?;
    }
    Ok(copies)
}
