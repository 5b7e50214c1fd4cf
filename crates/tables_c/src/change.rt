//! Changes of records.

ghost use Rattle.std.specs.Prelude.{◌≡◌, IfOk, Some};
ghost use Rattle.tables_c.specs.Cells.{hold_row, row_spelled};
ghost use Rattle.tables_c.specs.Rows.{Does, Inserts, change_row, clear_step, erase_step, insert_one, insert_row, insert_step, modify_row, modify_step, replace_row};

use crate::cells::{RowCell, read_cells};
use crate::status::{LOST, MEMORY, OK, ROW};
use crate::told::Told;
use container_model::Handle;
use key_extract::{Cell, Row};
use std::alloc::{AllocError, Global};
use table_records::Records;
use table_schema::Column;
use table_terms::can_hold;

// Whether the columns can hold the cells, one each.
fn hold_row(columns: &[Column], cells: &[Cell]) -> bool
    ensures { result ≡ hold_row columns.now cells.now }
{
    if columns.len() != cells.len() {
        return false;
    }
    for place in 0..cells.len() {
        if !can_hold(&columns[place], &cells[place]) {
            return false;
        }
    }
    true
}

// The row that the cells are.
#[tactic(auto, unfolding(crate::specs::Cells::row_spelled))]
fn row_of(
    alloc: Global,
    columns: &[Column],
    cells: &[RowCell],
    texts: &[u8],
) -> Result<Option<Row>, AllocError>
    ensures { IfOk result (λ row. row ≡ row_spelled columns.now cells.now texts.now) }
{
    let Some(cells) = read_cells(alloc, cells, texts)? else {
        return Ok(None);
    };
    if hold_row(columns, &cells) {
        Ok(Some(Row::new(cells)))
    } else {
        Ok(None)
    }
}

fn insert_row(records: &mut Records, row: Row) -> Result<Handle, Told>
    ensures { Inserts records.old (insert_row records.old row) result records.new }
{
    match records.insert(None, row) {
        Ok(handle) => Ok(handle),
        Err(why) => Err(Told::refusal(why)),
    }
}

/// Puts the row of the cells in, and gives its handle.
pub(crate) fn insert_one(
    alloc: Global,
    records: &mut Records,
    cells: &[RowCell],
    texts: &[u8],
) -> Result<Handle, Told>
    ensures { Inserts records.old (insert_one records.old cells.now texts.now) result records.new }
{
    match row_of(alloc, records.spec().columns(), cells, texts) {
        Ok(Some(row)) => insert_row(records, row),
        Ok(None) => Err(Told::status(ROW)),
        Err(_) => Err(Told::status(MEMORY)),
    }
}

/// Puts the row of the cells in.
pub(crate) fn insert_step(
    alloc: Global,
    records: &mut Records,
    cells: &[RowCell],
    texts: &[u8],
) -> Told
    ensures { Does records.old (insert_step records.old cells.now texts.now) result records.new }
{
    match insert_one(alloc, records, cells, texts) {
        Ok(handle) => Told::record(handle),
        Err(told) => told,
    }
}

// Gives a record another row, if no record is in the way.
fn replace_row(records: &mut Records, handle: Handle, row: Row) -> Told
    ensures { Does records.old (replace_row records.old handle row) result records.new }
{
    match records.replace(handle, row) {
        Ok(()) => Told::status(OK),
        Err(why) => Told::refusal(why),
    }
}

// Gives a record another row. It is lost where another record is in the way.
fn change_row(records: &mut Records, handle: Handle, row: Row) -> Told
    ensures { Does records.old (change_row records.old handle row) result records.new }
{
    match records.modify(handle, row) {
        Ok(None) => Told::status(OK),
        Ok(Some((index, by))) => Told::in_the_way(LOST, index, by),
        Err(why) => Told::refusal(why),
    }
}

fn modify_row(rollback: bool, records: &mut Records, handle: Handle, row: Row) -> Told
    ensures { Does records.old (modify_row rollback records.old handle row) result records.new }
{
    if rollback {
        replace_row(records, handle, row)
    } else {
        change_row(records, handle, row)
    }
}

/// Gives a record the row of the cells.
pub(crate) fn modify_step(
    alloc: Global,
    records: &mut Records,
    handle: Handle,
    cells: &[RowCell],
    texts: &[u8],
    rollback: bool,
) -> Told
    ensures { Does records.old (modify_step records.old handle cells.now texts.now rollback) result records.new }
{
    match row_of(alloc, records.spec().columns(), cells, texts) {
        Ok(Some(row)) => modify_row(rollback, records, handle, row),
        Ok(None) => Told::status(ROW),
        Err(_) => Told::status(MEMORY),
    }
}

/// Takes a record out.
pub(crate) fn erase_step(records: &mut Records, handle: Handle) -> Told
    ensures { (result, records.new) ≡ erase_step records.old handle }
{
    match records.erase(handle, None) {
        Ok(_) => Told::status(OK),
        Err(why) => Told::refusal(why),
    }
}

/// Takes all records out.
pub(crate) fn clear_step(records: &mut Records) -> Told
    ensures { (result, records.new) ≡ clear_step records.old }
{
    match records.clear() {
        Ok(()) => Told::status(OK),
        Err(why) => Told::refusal(why),
    }
}
