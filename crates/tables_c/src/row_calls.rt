//! The calls on one container: records as arrays of cells.

ghost use Rattle.std.specs.Prelude.{◌≡◌, None};
ghost use Rattle.schema_file.specs.Meaning.{schema_of};
ghost use Rattle.tables_c.specs.Batch.{ChangesAll};
ghost use Rattle.tables_c.specs.Rows.{Changes, Counts, Gets, Numbers, OpensRows, Reads, Searches, Sorts, Turns, clear_step, count_step, erase_key_step, erase_step, handle_of, insert_step, led, modify_step, move_step, nth_step, place_step, rank_step, search_step, size_step, sort_step, table_meant, walk_step};
ghost use Rattle.tables_c.specs.declared.search.Search.TheVariants as searches;
ghost use Rattle.tables_c.specs.declared.walk.Walk.TheVariants as walks;

use crate::batch::insert_all;
use crate::cells::RowCell;
use crate::change::{clear_step, erase_step, insert_step, modify_step};
use crate::get::get_got;
use crate::keyed::{count_step, erase_key_step};
use crate::made::records_of;
use crate::order::{RowPart, move_step, sort_step};
use crate::rows::Rows;
use crate::search::{Search, search_step};
use crate::status::{HANDLE, MEMORY, OK};
use crate::told::RowHandle;
use crate::walk::{Walk, nth_step, place_step, rank_step, walk_step};
use std::alloc::Global;

/// Opens the empty container of the table of a number in a schema file.
#[unsafe(no_mangle)]
pub extern "C" fn tc_rows_open(alloc: Global, rows: &mut Rows, schema: &[u8], table: usize) -> u8
    ensures { OpensRows (led rows.old) (table_meant (schema_of schema.now) table) result (led rows.new) }
{
    if let Some(records) = rows.take(alloc) {
        rows.put(alloc, records);
        return HANDLE;
    }
    match records_of(alloc, schema, table) {
        Ok(records) => match Box::new(alloc, records) {
            Ok(records) => {
                rows.put(alloc, records);
                OK
            }
            Err(_) => MEMORY,
        },
        Err(status) => status,
    }
}

/// Ends the container, and gives its memory back. A closed handle stays closed.
#[unsafe(no_mangle)]
pub extern "C" fn tc_rows_close(alloc: Global, rows: &mut Rows)
    ensures { led rows.new ≡ None }
{
    drop(rows.take(alloc));
}

/// Tells how many records there are.
#[unsafe(no_mangle)]
pub extern "C" fn tc_rows_size(alloc: Global, rows: &mut Rows, size: &mut u64) -> u8
    ensures { Counts (led rows.old) size_step result size.new (led rows.new) }
{
    let Some(records) = rows.take(alloc) else {
        *size = 0;
        return HANDLE;
    };
    *size = records.container().len();
    rows.put(alloc, records);
    OK
}

/// Puts a record in: after its equals in the indices that are in order, and last in the others.
#[unsafe(no_mangle)]
pub extern "C" fn tc_rows_insert(
    alloc: Global,
    rows: &mut Rows,
    cells: &[RowCell],
    texts: &[u8],
    handle: &mut RowHandle,
    index: &mut usize,
) -> u8
    ensures { Changes (led rows.old) (λ t. insert_step t cells.now texts.now) result handle.old handle.new index.old index.new (led rows.new) }
{
    let Some(mut records) = rows.take(alloc) else {
        return HANDLE;
    };
    let told = insert_step(alloc, &mut records, cells, texts);
    rows.put(alloc, records);
    told.put(handle, index)
}

/// Puts many records in, one for each handle, in their order until one is refused, and tells how many are in.
#[unsafe(no_mangle)]
pub extern "C" fn tc_rows_insert_all(
    alloc: Global,
    rows: &mut Rows,
    cells: &[RowCell],
    texts: &[u8],
    handles: &mut [RowHandle],
    inserted: &mut usize,
    by: &mut RowHandle,
    index: &mut usize,
) -> u8
    ensures { ChangesAll (led rows.old) cells.now texts.now handles.old handles.new result inserted.new by.old by.new index.old index.new (led rows.new) }
{
    let Some(mut records) = rows.take(alloc) else {
        *inserted = 0;
        return HANDLE;
    };
    let (told, count) = insert_all(alloc, &mut records, cells, texts, handles);
    rows.put(alloc, records);
    *inserted = count;
    told.put(by, index)
}

/// Gives a record other cells. Where another record is in the way, it is refused with `rollback`, and else the record is lost.
#[unsafe(no_mangle)]
pub extern "C" fn tc_rows_modify(
    alloc: Global,
    rows: &mut Rows,
    handle: &mut RowHandle,
    cells: &[RowCell],
    texts: &[u8],
    rollback: bool,
    index: &mut usize,
) -> u8
    ensures { Changes (led rows.old) (λ t. modify_step t (handle_of handle.old) cells.now texts.now rollback) result handle.old handle.new index.old index.new (led rows.new) }
{
    let Some(mut records) = rows.take(alloc) else {
        return HANDLE;
    };
    let told = modify_step(alloc, &mut records, handle.handle(), cells, texts, rollback);
    rows.put(alloc, records);
    told.put(handle, index)
}

/// Takes a record out.
#[unsafe(no_mangle)]
pub extern "C" fn tc_rows_erase(alloc: Global, rows: &mut Rows, handle: &RowHandle) -> u8
    ensures { Turns (led rows.old) (λ t. erase_step t (handle_of handle.now)) result (led rows.new) }
{
    let Some(mut records) = rows.take(alloc) else {
        return HANDLE;
    };
    let told = erase_step(&mut records, handle.handle());
    rows.put(alloc, records);
    told.status
}

/// Takes all records out.
#[unsafe(no_mangle)]
pub extern "C" fn tc_rows_clear(alloc: Global, rows: &mut Rows) -> u8
    ensures { Turns (led rows.old) clear_step result (led rows.new) }
{
    let Some(mut records) = rows.take(alloc) else {
        return HANDLE;
    };
    let told = clear_step(&mut records);
    rows.put(alloc, records);
    told.status
}

/// Takes out all records of a key, and tells how many they were.
#[unsafe(no_mangle)]
pub extern "C" fn tc_rows_erase_key(
    alloc: Global,
    rows: &mut Rows,
    index: usize,
    key: &[RowCell],
    texts: &[u8],
    number: &mut u64,
) -> u8
    ensures { Numbers (led rows.old) (λ t. erase_key_step t index key.now texts.now) result number.new (led rows.new) }
{
    let Some(mut records) = rows.take(alloc) else {
        *number = 0;
        return HANDLE;
    };
    let (status, erased) = erase_key_step(alloc, &mut records, index, key, texts);
    rows.put(alloc, records);
    *number = erased;
    status
}

/// Puts a record before the one at a place of a sequence, counted from 0 before the move.
#[unsafe(no_mangle)]
pub extern "C" fn tc_rows_move(
    alloc: Global,
    rows: &mut Rows,
    index: usize,
    handle: &RowHandle,
    place: u64,
) -> u8
    ensures { Turns (led rows.old) (λ t. move_step t index place (handle_of handle.now)) result (led rows.new) }
{
    let Some(mut records) = rows.take(alloc) else {
        return HANDLE;
    };
    let told = move_step(&mut records, index, place, handle.handle());
    rows.put(alloc, records);
    told.status
}

/// Sorts a sequence by columns. Records that are equal by them stay as they stand.
#[unsafe(no_mangle)]
pub extern "C" fn tc_rows_sort(alloc: Global, rows: &mut Rows, index: usize, by: &[RowPart]) -> u8
    ensures { Sorts (led rows.old) (λ t. sort_step t index by.now) result (led rows.new) }
{
    let Some(mut records) = rows.take(alloc) else {
        return HANDLE;
    };
    let told = sort_step(&mut records, index, by);
    rows.put(alloc, records);
    told.status
}

/// Tells how many records have a key.
#[unsafe(no_mangle)]
pub extern "C" fn tc_rows_count(
    alloc: Global,
    rows: &mut Rows,
    index: usize,
    key: &[RowCell],
    texts: &[u8],
    number: &mut u64,
) -> u8
    ensures { Numbers (led rows.old) (λ t. (count_step t index key.now texts.now, t)) result number.new (led rows.new) }
{
    let Some(records) = rows.take(alloc) else {
        *number = 0;
        return HANDLE;
    };
    let (status, counted) = count_step(alloc, &records, index, key, texts);
    rows.put(alloc, records);
    *number = counted;
    status
}

// Finds a record by a key.
fn searched(
    alloc: Global,
    rows: &mut Rows,
    how: Search,
    index: usize,
    cells: &[RowCell],
    texts: &[u8],
    handle: &mut RowHandle,
) -> u8
    ensures { Searches (led rows.old) (λ t. search_step t how index cells.now texts.now) result handle.old handle.new (led rows.new) }
{
    let Some(records) = rows.take(alloc) else {
        return HANDLE;
    };
    let told = search_step(alloc, &records, how, index, cells, texts);
    rows.put(alloc, records);
    told.put_handle(handle)
}

/// Finds the first record that has a key.
#[unsafe(no_mangle)]
pub extern "C" fn tc_rows_find(
    alloc: Global,
    rows: &mut Rows,
    index: usize,
    key: &[RowCell],
    texts: &[u8],
    handle: &mut RowHandle,
) -> u8
    ensures { Searches (led rows.old) (λ t. search_step t searches.Find index key.now texts.now) result handle.old handle.new (led rows.new) }
{
    searched(alloc, rows, Search::Find, index, key, texts, handle)
}

/// Finds the first record that does not come before a key.
#[unsafe(no_mangle)]
pub extern "C" fn tc_rows_lower(
    alloc: Global,
    rows: &mut Rows,
    index: usize,
    key: &[RowCell],
    texts: &[u8],
    handle: &mut RowHandle,
) -> u8
    ensures { Searches (led rows.old) (λ t. search_step t searches.Lower index key.now texts.now) result handle.old handle.new (led rows.new) }
{
    searched(alloc, rows, Search::Lower, index, key, texts, handle)
}

/// Finds the first record that comes after a key.
#[unsafe(no_mangle)]
pub extern "C" fn tc_rows_upper(
    alloc: Global,
    rows: &mut Rows,
    index: usize,
    key: &[RowCell],
    texts: &[u8],
    handle: &mut RowHandle,
) -> u8
    ensures { Searches (led rows.old) (λ t. search_step t searches.Upper index key.now texts.now) result handle.old handle.new (led rows.new) }
{
    searched(alloc, rows, Search::Upper, index, key, texts, handle)
}

// Finds a record of an index.
fn walked(alloc: Global, rows: &mut Rows, index: usize, way: Walk, handle: &mut RowHandle) -> u8
    ensures { Reads (led rows.old) (λ t. walk_step t index way) result handle.old handle.new (led rows.new) }
{
    let Some(records) = rows.take(alloc) else {
        return HANDLE;
    };
    let told = walk_step(&records, index, way);
    rows.put(alloc, records);
    told.put_handle(handle)
}

/// Finds the first record of an index.
#[unsafe(no_mangle)]
pub extern "C" fn tc_rows_first(
    alloc: Global,
    rows: &mut Rows,
    index: usize,
    handle: &mut RowHandle,
) -> u8
    ensures { Reads (led rows.old) (λ t. walk_step t index walks.First) result handle.old handle.new (led rows.new) }
{
    walked(alloc, rows, index, Walk::First, handle)
}

/// Finds the last record of an index.
#[unsafe(no_mangle)]
pub extern "C" fn tc_rows_last(
    alloc: Global,
    rows: &mut Rows,
    index: usize,
    handle: &mut RowHandle,
) -> u8
    ensures { Reads (led rows.old) (λ t. walk_step t index walks.Last) result handle.old handle.new (led rows.new) }
{
    walked(alloc, rows, index, Walk::Last, handle)
}

/// Finds the record after one in an index.
#[unsafe(no_mangle)]
pub extern "C" fn tc_rows_next(
    alloc: Global,
    rows: &mut Rows,
    index: usize,
    handle: &mut RowHandle,
) -> u8
    ensures { Reads (led rows.old) (λ t. walk_step t index (walks.Next (handle_of handle.old))) result handle.old handle.new (led rows.new) }
{
    let way = Walk::Next(handle.handle());
    walked(alloc, rows, index, way, handle)
}

/// Finds the record before one in an index.
#[unsafe(no_mangle)]
pub extern "C" fn tc_rows_previous(
    alloc: Global,
    rows: &mut Rows,
    index: usize,
    handle: &mut RowHandle,
) -> u8
    ensures { Reads (led rows.old) (λ t. walk_step t index (walks.Previous (handle_of handle.old))) result handle.old handle.new (led rows.new) }
{
    let way = Walk::Previous(handle.handle());
    walked(alloc, rows, index, way, handle)
}

/// Finds the record at a place of an index, counted from 0.
#[unsafe(no_mangle)]
pub extern "C" fn tc_rows_nth(
    alloc: Global,
    rows: &mut Rows,
    index: usize,
    rank: u64,
    handle: &mut RowHandle,
) -> u8
    ensures { Reads (led rows.old) (λ t. nth_step t index rank) result handle.old handle.new (led rows.new) }
{
    let Some(records) = rows.take(alloc) else {
        return HANDLE;
    };
    let told = nth_step(&records, index, rank);
    rows.put(alloc, records);
    told.put_handle(handle)
}

/// Tells the rank of a record in an index, counted from 0.
#[unsafe(no_mangle)]
pub extern "C" fn tc_rows_rank(
    alloc: Global,
    rows: &mut Rows,
    index: usize,
    handle: &RowHandle,
    place: &mut u64,
) -> u8
    ensures { Counts (led rows.old) (rank_step index (handle_of handle.now)) result place.new (led rows.new) }
{
    let Some(records) = rows.take(alloc) else {
        *place = 0;
        return HANDLE;
    };
    let (status, number) = rank_step(&records, index, handle.handle());
    rows.put(alloc, records);
    *place = number;
    status
}

/// Tells the place of a record in a random index, counted from 0.
#[unsafe(no_mangle)]
pub extern "C" fn tc_rows_place(
    alloc: Global,
    rows: &mut Rows,
    index: usize,
    handle: &RowHandle,
    place: &mut u64,
) -> u8
    ensures { Counts (led rows.old) (place_step index (handle_of handle.now)) result place.new (led rows.new) }
{
    let Some(records) = rows.take(alloc) else {
        *place = 0;
        return HANDLE;
    };
    let (status, number) = place_step(&records, index, handle.handle());
    rows.put(alloc, records);
    *place = number;
    status
}

/// Moves a record's cells and texts to the fronts of two rooms, where both fit, and tells how many they are.
#[unsafe(no_mangle)]
pub extern "C" fn tc_rows_get(
    alloc: Global,
    rows: &mut Rows,
    handle: &RowHandle,
    cells: &mut [RowCell],
    texts: &mut [u8],
    count: &mut usize,
    length: &mut usize,
) -> u8
    ensures { Gets (led rows.old) (handle_of handle.now) cells.old texts.old (record { status = result; cells = cells.new; texts = texts.new; cell_count = count.new; text_length = length.new }) (led rows.new) }
{
    let Some(records) = rows.take(alloc) else {
        *count = 0;
        *length = 0;
        return HANDLE;
    };
    let (status, cell_count, text_length) = get_got(&records, handle.handle(), cells, texts);
    rows.put(alloc, records);
    *count = cell_count;
    *length = text_length;
    status
}
