//! Prints records as rows of CSV.

ghost use Rattle.std.specs.Prelude.{◌≡◌, ◌≢◌, false, [], map, IfOk, OnOk};
ghost use Rattle.std.specs.Io.KnownBytes.{Appends};
ghost use Rattle.csv.specs.Records.{fields_of};
ghost use Rattle.csv.specs.Writing.{default_writer, fields_written, has_written, row_text, text_written, writer_setup};
ghost use Rattle.table_rows.specs.Csv.{csv_text, names_of, row_fields};

use crate::fault::Unwritten;
use crate::fields::push_cell;
use crate::inserts::cells_at;
use csv::{ByteRecord, Writer};
use key_extract::Cell;
use std::alloc::{AllocError, Global};
use std::io::Write;
use table_schema::Column;
use table_step::Table;

// The names of the columns.
fn header_of(alloc: Global, columns: &[Column]) -> Result<ByteRecord, AllocError>
    ensures { IfOk result (λ row. fields_of row ≡ names_of columns.now) }
{
    let mut row = ByteRecord::new(alloc);
    for column in columns {
        row.push_field(column.name.as_str().as_bytes())?;
    }
    Ok(row)
}

// The fields of a row.
fn row_fields(alloc: Global, columns: &[Column], cells: &[Cell]) -> Result<ByteRecord, AllocError>
    ensures { IfOk result (λ row. fields_of row ≡ row_fields columns.now cells.now) }
{
    let mut row = ByteRecord::new(alloc);
    for (place, column) in columns.iter().enumerate() {
        if place >= cells.len() {
            break;
        }
        push_cell(alloc, &mut row, column, &cells[place])?;
    }
    Ok(row)
}

// Writes a row.
fn write_row<W: Write + Drop>(rows: &mut Writer<W>, row: &ByteRecord) -> Result<(), Unwritten>
    requires setup { writer_setup rows.old ≡ default_writer }
    requires fields { fields_written rows.old ≡ 0 }
    requires clean { has_written rows.old ≡ false }
    ensures text { OnOk result (Appends (text_written W.contents rows.old) (text_written W.contents rows.new) (row_text default_writer (fields_of row.now))) }
    ensures setup { OnOk result (writer_setup rows.new ≡ default_writer) }
    ensures fields { OnOk result (fields_written rows.new ≡ 0) }
    ensures clean { OnOk result (has_written rows.new ≡ false) }
{
    match rows.write_byte_record(row) {
        Ok(()) => Ok(()),
        Err(_) => Err(Unwritten::Output),
    }
}

/// Writes the names of the columns, and then the cells of each record, in the order of an index, as rows of CSV. O(length of the text).
pub fn write_csv<W: Write + Drop>(
    alloc: Global,
    table: &Table,
    index: usize,
    to: W,
) -> Result<W, Unwritten>
    ensures { IfOk result (λ after. Appends (W.contents to) (W.contents after) (csv_text table.now index)) }
{
    let Ok(handles) = table.records().container().view(index) else {
        return Err(Unwritten::Memory);
    };
    let columns = table.records().spec().columns();
    let mut rows = Writer::from_writer(to);
    write_row(&mut rows, &header_of(alloc, columns)?)?;
    for handle in &handles {
        let row = row_fields(alloc, columns, cells_at(table, *handle))?;
        write_row(&mut rows, &row)?;
    }
    match rows.into_inner() {
        Ok(to) => Ok(to),
        Err(_) => Err(Unwritten::Output),
    }
}
