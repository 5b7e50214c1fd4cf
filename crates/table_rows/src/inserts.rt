//! Records as commands that insert them.

ghost use Rattle.std.specs.Prelude.{◌≡◌, IfOk, OnOk};
ghost use Rattle.std.specs.Io.KnownBytes.{Appends};
ghost use Rattle.command_text.specs.Text.{command_text};
ghost use Rattle.table_log.specs.Logged.{log_line};
ghost use Rattle.table_rows.specs.Inserts.{cells_at, field_under, fields_under, insert_of, inserts_text};

use crate::fault::Unwritten;
use command_text::canonical_text;
use container_model::Handle;
use key_extract::Cell;
use std::alloc::{AllocError, Global};
use std::io::Write;
use table_cmd::{Command, Field, Fields, Items, Value};
use table_reply::Heading;
use table_schema::Text;
use table_step::Table;

// The cell of a row under its heading.
fn field_under(cells: &[Cell], heading: &Heading) -> Result<Field, AllocError>
    ensures { IfOk result (λ field. field ≡ field_under cells.now heading.now) }
{
    let cell = match cells.get(heading.place) {
        Some(cell) => cell.copy()?,
        None => Cell::Null,
    };
    Ok(Field {
        name: heading.name.copy()?,
        value: Value::Cell(cell),
    })
}

// The cells of a row under their headings.
fn fields_under(alloc: Global, headings: &[Heading], cells: &[Cell]) -> Result<Fields, AllocError>
    ensures { IfOk result (λ fields. fields ≡ fields_under headings.now cells.now) }
{
    let mut fields = Vec::with_capacity(alloc, headings.len())?;
    for heading in headings {
        fields.push(field_under(cells, heading)?)?;
    }
    Ok(Items::new(fields))
}

// The command that inserts a record of these cells.
fn insert_of(alloc: Global, table: &Table, cells: &[Cell]) -> Result<Command, AllocError>
    ensures { IfOk result (λ command. command ≡ insert_of table.now.shape cells.now) }
{
    Ok(Command::Insert {
        table: Text::copy_of(alloc, table.name())?,
        row: fields_under(alloc, table.records().headings(), cells)?,
        position: None,
    })
}

// The canonical text of the command that inserts a record of these cells.
fn insert_text(alloc: Global, table: &Table, cells: &[Cell]) -> Result<Vec<u8>, AllocError>
    ensures { IfOk result (λ text. text.items ≡ command_text (insert_of table.now.shape cells.now)) }
{
    let command = insert_of(alloc, table, cells)?;
    let text = canonical_text(alloc, &command);
    drop(command);
    text
}

/// The line of the command that inserts a record of these cells. A cell that is missing is null. O(length of the line).
pub fn insert_line(alloc: Global, table: &Table, cells: &[Cell]) -> Result<Vec<u8>, AllocError>
    ensures { IfOk result (λ line. line.items ≡ log_line (insert_of table.now.shape cells.now)) }
{
    let mut line = insert_text(alloc, table, cells)?;
    line.push(b'\n')?;
    Ok(line)
}

// The cells of the record of a handle.
pub(crate) fn cells_at(table: &Table, handle: Handle) -> &[Cell]
    ensures { result.now ≡ cells_at table.now handle }
{
    match table.records().container().get(handle) {
        Ok(row) => row.cells(),
        Err(_) => &[],
    }
}

// Writes a line.
fn write_line<W: Write>(to: &mut W, line: &[u8]) -> Result<(), Unwritten>
    ensures { OnOk result (Appends (W.contents to.old) (W.contents to.new) line.now) }
{
    match to.write_all(line) {
        Ok(()) => Ok(()),
        Err(_) => Err(Unwritten::Output),
    }
}

/// Writes a line for each record that inserts it, in the order of an index. Carried out on an empty table, they make equal records in this order.
/// O(length of the lines).
pub fn write_inserts<W: Write>(
    alloc: Global,
    table: &Table,
    index: usize,
    to: &mut W,
) -> Result<(), Unwritten>
    ensures { OnOk result (Appends (W.contents to.old) (W.contents to.new) (inserts_text table.now index)) }
{
    let Ok(handles) = table.records().container().view(index) else {
        return Err(Unwritten::Memory);
    };
    for handle in &handles {
        let line = insert_line(alloc, table, cells_at(table, *handle))?;
        write_line(to, &line)?;
    }
    Ok(())
}
