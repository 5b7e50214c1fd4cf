//! The values of a command as cells of a table.

ghost use Rattle.std.specs.Prelude.{◌≡◌, IfOk, option_and_then, slice_get};
ghost use Rattle.std.specs.Option.{option_copied};
ghost use Rattle.table_terms.specs.Values.{is_cell_of, is_null, can_hold, cell_for, value_named, column_cell, row_from, are_enough, parts_of, probe_from};

use key_extract::{Cell, Part, Probe, Row};
use std::alloc::{AllocError, Global};
use table_cmd::{Field, Value};
use table_schema::{CellKind, Column, IndexSpec, Kind};

/// The longest text of a cell, in bytes.
const MAX_TEXT: usize = 4096;

// Whether the cell is of the type, and no longer than a cell may be; null is of none.
fn is_cell_of(kind: CellKind, cell: &Cell) -> bool
    ensures { result ≡ is_cell_of kind cell.now }
{
    match (kind, cell) {
        (CellKind::Int, Cell::Int(_)) | (CellKind::Bool, Cell::Bool(_)) => true,
        (CellKind::Text, Cell::Text(text)) => text.len() <= MAX_TEXT,
        _ => false,
    }
}

fn is_null(cell: &Cell) -> bool
    ensures { result ≡ is_null cell.now }
{
    matches!(cell, Cell::Null)
}

/// Whether the column can hold the cell: one of its type and no longer than a cell may be, or null where it may be null. O(1).
pub fn can_hold(column: &Column, cell: &Cell) -> bool
    ensures { result ≡ can_hold column.now cell.now }
{
    column.null && is_null(cell) || is_cell_of(column.cell, cell)
}

// The cell that a value is in a column.
pub(crate) fn cell_for<'a>(column: &Column, value: &'a Value) -> Option<&'a Cell>
    ensures { option_copied result ≡ cell_for column.now value.now }
{
    match value {
        Value::Cell(cell) if can_hold(column, cell) => Some(cell),
        _ => None,
    }
}

// The value under a name.
fn value_named<'a>(name: &str, fields: &'a [Field]) -> Option<&'a Value>
    ensures { option_copied result ≡ value_named name.now fields.now }
{
    for field in fields {
        if field.name.as_str() == name {
            return Some(&field.value);
        }
    }
    None
}

// The cell that the fields give a column.
pub(crate) fn column_cell<'a>(column: &Column, fields: &'a [Field]) -> Option<&'a Cell>
    ensures { option_copied result ≡ column_cell column.now fields.now }
{
    let value = value_named(column.name.as_str(), fields)?;
    cell_for(column, value)
}

/// The row that the fields are: a cell for each column, in the columns' order, and no field beyond them.
/// O(columns · fields).
#[tactic(auto, unfolding(crate::specs::Values::row_from))]
pub fn row_from(
    alloc: Global,
    columns: &[Column],
    fields: &[Field],
) -> Result<Option<Row>, AllocError>
    ensures { IfOk result (λ row. row ≡ row_from columns.now fields.now) }
{
    if fields.len() != columns.len() {
        return Ok(None);
    }
    let mut cells = Vec::with_capacity(alloc, columns.len())?;
    for column in columns {
        let Some(cell) = column_cell(column, fields) else {
            return Ok(None);
        };
        cells.push(cell.copy()?)?;
    }
    Ok(Some(Row::new(cells)))
}

// The parts of an index's key.
pub(crate) fn parts_of(index: &IndexSpec) -> &[Part]
    ensures { result.now ≡ parts_of index.now }
{
    match &index.key {
        Some(key) => key.parts(),
        None => &[],
    }
}

// Whether so many values can search the index.
fn are_enough(index: &IndexSpec, count: usize) -> bool
    ensures { result ≡ are_enough index.now count }
{
    1 <= count && (index.kind != Kind::Hashed || count == parts_of(index).len())
}

// The cell that a value is at the part of a key at this place.
fn part_cell<'a>(
    columns: &[Column],
    parts: &[Part],
    place: usize,
    value: &'a Value,
) -> Option<&'a Cell>
    ensures { option_copied result ≡ option_and_then (λ part. option_and_then (λ column. cell_for column value.now) (slice_get columns.now part.column)) (slice_get parts.now place) }
{
    if place < parts.len() {
        let part = parts[place];
        if part.column < columns.len() {
            return cell_for(&columns[part.column], value);
        }
    }
    None
}

/// The search key that the values are at an index: for some leading parts of its key, or for all.
#[tactic(auto, unfolding(crate::specs::Values::probe_from))]
pub(crate) fn probe_from(
    alloc: Global,
    columns: &[Column],
    index: &IndexSpec,
    values: &[Value],
) -> Result<Option<Probe>, AllocError>
    ensures { IfOk result (λ probe. probe ≡ probe_from columns.now index.now values.now) }
{
    if !are_enough(index, values.len()) {
        return Ok(None);
    }
    let parts = parts_of(index);
    let mut cells = Vec::with_capacity(alloc, values.len())?;
    for (place, value) in values.iter().enumerate() {
        let Some(cell) = part_cell(columns, parts, place, value) else {
            return Ok(None);
        };
        cells.push(cell.copy()?)?;
    }
    Ok(Some(Probe::new(cells)))
}
