//! Fields of a row as cells.

ghost use Rattle.std.specs.Prelude.{◌≡◌, IfErr, IfOk, false};
ghost use Rattle.table_rows.specs.Csv.{IsCellIn, IsCellOf, IsNoCell, IsNoCellIn, unmarked};
ghost use Rattle.table_schema.specs.declared.column.CellKind.TheVariants.{Int, Text as OfText, Bool};

use crate::fault::CellWhy;
use key_extract::{Cell, Text};
use std::alloc::Global;
use std::str;
use table_schema::{CellKind, Column};

/// The longest text of a cell, in bytes.
const MAX_TEXT: usize = 4096;

// A field without the backslash that it begins with.
fn unmarked(field: &[u8]) -> &[u8]
    ensures { result.now ≡ unmarked field.now }
{
    match field {
        [b'\\', rest @ ..] => rest,
        _ => field,
    }
}

// The number of a field.
fn int_in(field: &[u8]) -> Result<Cell, CellWhy>
    ensures cell { IfOk result (IsCellOf Int false field.now) }
    ensures why { IfErr result (IsNoCell Int false field.now) }
{
    let Ok(text) = str::from_utf8(field) else {
        return Err(CellWhy::Int);
    };
    match text.parse::<i64>() {
        Ok(number) => Ok(Cell::Int(number)),
        Err(_) => Err(CellWhy::Int),
    }
}

// The truth value of a field.
fn bool_in(field: &[u8]) -> Result<Cell, CellWhy>
    ensures cell { IfOk result (IsCellOf Bool false field.now) }
    ensures why { IfErr result (IsNoCell Bool false field.now) }
{
    match field {
        b"true" => Ok(Cell::Bool(true)),
        b"false" => Ok(Cell::Bool(false)),
        _ => Err(CellWhy::Bool),
    }
}

// The text of a field.
fn text_in(alloc: Global, field: &[u8]) -> Result<Cell, CellWhy>
    ensures cell { IfOk result (IsCellOf OfText false field.now) }
    ensures why { IfErr result (IsNoCell OfText false field.now) }
{
    let Ok(text) = str::from_utf8(field) else {
        return Err(CellWhy::Text);
    };
    if text.len() > MAX_TEXT {
        return Err(CellWhy::Long);
    }
    Ok(Cell::Text(Text::copy_of(alloc, text)?))
}

/// The cell that a field is in a column. O(length).
pub fn cell_in(alloc: Global, column: &Column, field: &[u8]) -> Result<Cell, CellWhy>
    ensures cell { IfOk result (IsCellIn column.now field.now) }
    ensures why { IfErr result (IsNoCellIn column.now field.now) }
{
    if column.null && field.is_empty() {
        return Ok(Cell::Null);
    }
    match column.cell {
        CellKind::Int => int_in(field),
        CellKind::Bool => bool_in(field),
        CellKind::Text if column.null => text_in(alloc, unmarked(field)),
        CellKind::Text => text_in(alloc, field),
    }
}
