//! Writes the state of a table.

ghost use Rattle.std.specs.Prelude.{◌≡◌, ◌+◌, ◌<◌, ◌==◌, IfErr, IfOk, OnErr, OnOk, Some, false, is_some, length, map, true};
ghost use Rattle.container_model.specs.State.{row_of};
ghost use Rattle.list_model.specs.Order.{EachPair};
ghost use Rattle.table_state.specs.State.{columns_command, count_command, head_commands, index_command, line_of, lines_text, order_at, order_commands, record_command, state_text};
ghost use Rattle.table_state.specs.Writing.{IsCutOff, IsInterruption, IsWritten, Putting, gathered, failures_of_state};
ghost use Rattle.table_terms.specs.Table.{Cells};

use crate::fault::StateWhy;
use crate::gather::{flush, put};
use crate::parts::{columns_command, count_command, index_command, order_command, record_command};
use container_model::Handle;
use std::alloc::{AllocError, Global};
use table_log::Disk;
use table_reply::Out;
use table_schema::{IndexSpec, TableSpec};
use table_step::Table;

// Puts a number under its name.
fn put_count<D: Disk>(
    alloc: Global,
    spec: &TableSpec,
    name: &str,
    count: u64,
    disk: &mut D,
    lines: &mut Out,
) -> Result<(), StateWhy>
    ensures puts { Putting result (gathered (D.contents disk.old) (D.size disk.old) lines.old.bytes) (gathered (D.contents disk.new) (D.size disk.new) lines.new.bytes)
        (line_of (count_command spec.now name.now count)) }
    ensures synced { D.synced disk.new ≡ D.synced disk.old }
    ensures failures { D.failures disk.new ≡ failures_of_state result (D.failures disk.old) }
{
    put(alloc, disk, lines, count_command(alloc, spec, name, count)?)
}

// Puts the names of the columns.
fn put_columns<D: Disk>(
    alloc: Global,
    spec: &TableSpec,
    disk: &mut D,
    lines: &mut Out,
) -> Result<(), StateWhy>
    ensures puts { Putting result (gathered (D.contents disk.old) (D.size disk.old) lines.old.bytes) (gathered (D.contents disk.new) (D.size disk.new) lines.new.bytes)
        (line_of (columns_command spec.now)) }
    ensures synced { D.synced disk.new ≡ D.synced disk.old }
    ensures failures { D.failures disk.new ≡ failures_of_state result (D.failures disk.old) }
{
    put(alloc, disk, lines, columns_command(alloc, spec)?)
}

// Puts the numbers of a table and its columns.
fn put_head<D: Disk>(
    alloc: Global,
    table: &Table,
    disk: &mut D,
    lines: &mut Out,
) -> Result<(), StateWhy>
    ensures puts { Putting result (gathered (D.contents disk.old) (D.size disk.old) lines.old.bytes) (gathered (D.contents disk.new) (D.size disk.new) lines.new.bytes)
        (lines_text (head_commands table.now.shape table.now.records.writes (length table.now.shape.indices) (length table.now.records.entries))) }
    ensures synced { D.synced disk.new ≡ D.synced disk.old }
    ensures failures { D.failures disk.new ≡ failures_of_state result (D.failures disk.old) }
{
    let spec = table.records().spec();
    let container = table.records().container();
    let indices = spec.indices().len() as u64;
    put_count(alloc, spec, "writes", container.writes(), disk, lines)?;
    put_count(alloc, spec, "indices", indices, disk, lines)?;
    put_count(alloc, spec, "records", container.len(), disk, lines)?;
    put_columns(alloc, spec, disk, lines)
}

// Puts an index.
fn put_index<D: Disk>(
    alloc: Global,
    spec: &TableSpec,
    index: &IndexSpec,
    disk: &mut D,
    lines: &mut Out,
) -> Result<(), StateWhy>
    ensures puts { Putting result (gathered (D.contents disk.old) (D.size disk.old) lines.old.bytes) (gathered (D.contents disk.new) (D.size disk.new) lines.new.bytes)
        (line_of (index_command spec.now index.now)) }
    ensures synced { D.synced disk.new ≡ D.synced disk.old }
    ensures failures { D.failures disk.new ≡ failures_of_state result (D.failures disk.old) }
{
    put(alloc, disk, lines, index_command(alloc, spec, index)?)
}

// Puts the indices that a table has.
fn put_indices<D: Disk>(
    alloc: Global,
    table: &Table,
    disk: &mut D,
    lines: &mut Out,
) -> Result<(), StateWhy>
    ensures puts { Putting result (gathered (D.contents disk.old) (D.size disk.old) lines.old.bytes) (gathered (D.contents disk.new) (D.size disk.new) lines.new.bytes)
        (lines_text (map (index_command table.now.shape) table.now.shape.indices)) }
    ensures synced { D.synced disk.new ≡ D.synced disk.old }
    ensures failures { D.failures disk.new ≡ failures_of_state result (D.failures disk.old) }
{
    let spec = table.records().spec();
    let indices = spec.indices();
    for index in indices {
        put_index(alloc, spec, index, disk, lines)?;
    }
    Ok(())
}

// Puts a record.
fn put_record<D: Disk>(
    alloc: Global,
    table: &Table,
    handle: Handle,
    disk: &mut D,
    lines: &mut Out,
) -> Result<(), StateWhy>
    requires { is_some (row_of table.now.records.entries handle) ≡ true }
    ensures puts { (row : Cells) → row_of table.now.records.entries handle ≡ Some row → Putting result (gathered (D.contents disk.old) (D.size disk.old) lines.old.bytes) (gathered (D.contents disk.new) (D.size disk.new) lines.new.bytes)
        (line_of (record_command table.now.shape (record { handle = handle; row = row }))) }
    ensures synced { D.synced disk.new ≡ D.synced disk.old }
    ensures failures { D.failures disk.new ≡ failures_of_state result (D.failures disk.old) }
{
    let records = table.records();
    let Ok(row) = records.container().get(handle) else {
        unreachable!();
    };
    let command = record_command(alloc, records.spec(), handle, row.cells())?;
    put(alloc, disk, lines, command)
}

// The handles of the records, in the order of their insertion. No two records lie in one slot.
fn all_handles(table: &Table) -> Result<Vec<Handle>, AllocError>
    ensures handles { IfOk result (λ handles. handles.items ≡ map (λ e. e.handle) table.now.records.entries) }
    ensures apart { EachPair (λ a b. (b.handle.slot == a.handle.slot) ≡ false) table.now.records.entries }
{
    let container = table.records().container();
    container.writes();
    container.handles()
}

// Puts the records, in the order of their insertion.
fn put_records<D: Disk>(
    alloc: Global,
    table: &Table,
    disk: &mut D,
    lines: &mut Out,
) -> Result<(), StateWhy>
    ensures puts { Putting result (gathered (D.contents disk.old) (D.size disk.old) lines.old.bytes) (gathered (D.contents disk.new) (D.size disk.new) lines.new.bytes)
        (lines_text (map (record_command table.now.shape) table.now.records.entries)) }
    ensures synced { D.synced disk.new ≡ D.synced disk.old }
    ensures failures { D.failures disk.new ≡ failures_of_state result (D.failures disk.old) }
{
    let handles = all_handles(table)?;
    for handle in &handles {
        put_record(alloc, table, *handle, disk, lines)?;
    }
    Ok(())
}

// Puts the order of an index.
fn put_order<D: Disk>(
    alloc: Global,
    table: &Table,
    index: usize,
    disk: &mut D,
    lines: &mut Out,
) -> Result<(), StateWhy>
    requires { index < length table.now.shape.indices }
    ensures puts { Putting result (gathered (D.contents disk.old) (D.size disk.old) lines.old.bytes) (gathered (D.contents disk.new) (D.size disk.new) lines.new.bytes)
        (line_of (order_at table.now.shape table.now.records.lists index)) }
    ensures synced { D.synced disk.new ≡ D.synced disk.old }
    ensures failures { D.failures disk.new ≡ failures_of_state result (D.failures disk.old) }
{
    let spec = table.records().spec();
    let Ok(handles) = table.records().container().view(index) else {
        return Err(StateWhy::Memory);
    };
    let command = order_command(alloc, spec, spec.indices()[index].name.as_str(), &handles)?;
    put(alloc, disk, lines, command)
}

// Puts the orders of the indices.
fn put_orders<D: Disk>(
    alloc: Global,
    table: &Table,
    disk: &mut D,
    lines: &mut Out,
) -> Result<(), StateWhy>
    ensures puts { Putting result (gathered (D.contents disk.old) (D.size disk.old) lines.old.bytes) (gathered (D.contents disk.new) (D.size disk.new) lines.new.bytes)
        (lines_text (order_commands table.now.shape table.now.records.lists)) }
    ensures synced { D.synced disk.new ≡ D.synced disk.old }
    ensures failures { D.failures disk.new ≡ failures_of_state result (D.failures disk.old) }
{
    for index in 0..table.records().spec().indices().len() {
        put_order(alloc, table, index, disk, lines)?;
    }
    Ok(())
}

// Puts the lines of a state.
fn put_all<D: Disk>(
    alloc: Global,
    table: &Table,
    disk: &mut D,
    lines: &mut Out,
) -> Result<(), StateWhy>
    ensures puts { Putting result (gathered (D.contents disk.old) (D.size disk.old) lines.old.bytes) (gathered (D.contents disk.new) (D.size disk.new) lines.new.bytes)
        (state_text table.now) }
    ensures synced { D.synced disk.new ≡ D.synced disk.old }
    ensures failures { D.failures disk.new ≡ failures_of_state result (D.failures disk.old) }
{
    put_head(alloc, table, disk, lines)?;
    put_indices(alloc, table, disk, lines)?;
    put_records(alloc, table, disk, lines)?;
    put_orders(alloc, table, disk, lines)
}

// Puts the lines of a state, and appends all of them.
fn append_all<D: Disk>(alloc: Global, table: &Table, disk: &mut D) -> Result<(), StateWhy>
    ensures written { OnOk result (IsWritten (D.contents disk.old) (D.contents disk.new) (state_text table.now)) }
    ensures cut_off { OnErr result (IsCutOff (D.contents disk.old) (D.contents disk.new) (state_text table.now)) }
    ensures size { OnOk result (D.size disk.new ≡ D.size disk.old + length (state_text table.now)) }
    ensures synced { D.synced disk.new ≡ D.synced disk.old }
    ensures why { IfErr result IsInterruption }
    ensures failures { D.failures disk.new ≡ failures_of_state result (D.failures disk.old) }
{
    let mut lines = Out::new(alloc)?;
    put_all(alloc, table, disk, &mut lines)?;
    flush(disk, &mut lines)
}

/// Appends the text of a table's state to a disk, and syncs it. At an `Err` a front of the text stands behind what was there:
/// memory was refused, or the disk failed. The table is left. It gathers some 64 KiB before it appends them, and takes memory
/// for that, for the longest line and for a handle of each record. O(length of the text).
pub fn write_state<D: Disk>(alloc: Global, table: &Table, disk: &mut D) -> Result<(), StateWhy>
    ensures written { OnOk result (IsWritten (D.contents disk.old) (D.contents disk.new) (state_text table.now)) }
    ensures cut_off { OnErr result (IsCutOff (D.contents disk.old) (D.contents disk.new) (state_text table.now)) }
    ensures size { OnOk result (D.size disk.new ≡ D.size disk.old + length (state_text table.now)) }
    ensures synced { OnOk result (D.synced disk.new ≡ D.size disk.new) }
    ensures not_synced { OnErr result (D.synced disk.new ≡ D.synced disk.old) }
    ensures why { IfErr result IsInterruption }
    ensures failures { D.failures disk.new ≡ failures_of_state result (D.failures disk.old) }
{
    append_all(alloc, table, disk)?;
    match disk.sync() {
        Ok(()) => Ok(()),
        Err(_) => Err(StateWhy::Disk),
    }
}
