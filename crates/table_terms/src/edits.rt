//! Modifications of a row.

ghost use Rattle.std.specs.Prelude.{◌≡◌, IfOk, find, bytes_eq};
ghost use Rattle.std.specs.List.{list_all};
ghost use Rattle.std.specs.Option.{option_copied};
ghost use Rattle.table_terms.specs.Edits.{adds_number, checked_sum, edited_at, edited_cell, edited_row, field_cell, has_name, is_edit, sets_cell, stand_once, sum_of};

use crate::values::{cell_for, column_cell};
use key_extract::{Cell, Row};
use std::alloc::{AllocError, Global};
use table_cmd::Field;
use table_schema::Column;

// The column of a name.
fn column_named<'a>(name: &str, columns: &'a [Column]) -> Option<&'a Column>
    ensures { option_copied result ≡ find (λ column. bytes_eq column.name name.now) columns.now }
{
    for column in columns {
        if column.name.as_str() == name {
            return Some(column);
        }
    }
    None
}

// The cell that a field is in the column of its name.
fn field_cell<'a>(columns: &[Column], field: &'a Field) -> Option<&'a Cell>
    ensures { option_copied result ≡ field_cell columns.now field.now }
{
    let column = column_named(field.name.as_str(), columns)?;
    cell_for(column, &field.value)
}

fn sets_cell(columns: &[Column], field: &Field) -> bool
    ensures { result ≡ sets_cell columns.now field.now }
{
    field_cell(columns, field).is_some()
}

fn adds_number(columns: &[Column], field: &Field) -> bool
    ensures { result ≡ adds_number columns.now field.now }
{
    matches!(field_cell(columns, field), Some(Cell::Int(_)))
}

fn set_cells(columns: &[Column], fields: &[Field]) -> bool
    ensures { result ≡ list_all (sets_cell columns.now) fields.now }
{
    fields.iter().all(|field| sets_cell(columns, field))
}

fn add_numbers(columns: &[Column], fields: &[Field]) -> bool
    ensures { result ≡ list_all (adds_number columns.now) fields.now }
{
    fields.iter().all(|field| adds_number(columns, field))
}

// Whether one of the fields has the name.
fn has_name(name: &str, fields: &[Field]) -> bool
    ensures { result ≡ has_name name.now fields.now }
{
    fields.iter().any(|field| name == field.name.as_str())
}

// Whether no field has the name of a later one, or of one of the others.
fn stand_once(fields: &[Field], others: &[Field]) -> bool
    ensures { result ≡ stand_once fields.now others.now }
{
    let mut rest = fields;
    while let [first, later @ ..] = rest {
        let name = first.name.as_str();
        if has_name(name, later) || has_name(name, others) {
            return false;
        }
        rest = later;
    }
    true
}

/// Whether the fields to set are cells of their columns, those to add whole numbers of columns that have such, and no
/// column is named twice. O(columns · fields), and where each field has a cell O(fields²).
#[tactic(auto, unfolding(crate::specs::Edits::is_edit))]
pub fn is_edit(columns: &[Column], set: &[Field], add: &[Field]) -> bool
    ensures { result ≡ is_edit columns.now set.now add.now }
{
    set_cells(columns, set)
        && add_numbers(columns, add)
        && stand_once(set, add)
        && stand_once(add, &[])
}

// The sum of two whole numbers, if it has 64 bits.
fn checked_sum(a: i64, b: i64) -> Option<i64>
    ensures { result ≡ checked_sum a b }
{
    a.checked_add(b)
}

// A whole number with another added to it, if the sum has 64 bits; any other cell, null among them, as it is.
fn sum_of(cell: &Cell, number: &Cell) -> Result<Option<Cell>, AllocError>
    ensures { IfOk result (λ sum. sum ≡ sum_of cell.now number.now) }
{
    match (cell, number) {
        (Cell::Int(a), Cell::Int(b)) => Ok(checked_sum(*a, *b).map(Cell::Int)),
        _ => Ok(Some(cell.copy()?)),
    }
}

// The cell of a column after the edit.
fn edited_cell(
    set: &[Field],
    add: &[Field],
    column: &Column,
    cell: &Cell,
) -> Result<Option<Cell>, AllocError>
    ensures { IfOk result (λ edited. edited ≡ edited_cell set.now add.now column.now cell.now) }
{
    if let Some(value) = column_cell(column, set) {
        return Ok(Some(value.copy()?));
    }
    match column_cell(column, add) {
        Some(number) => sum_of(cell, number),
        None => Ok(Some(cell.copy()?)),
    }
}

// The cell at a place of the row after the edit.
fn edited_at(
    columns: &[Column],
    set: &[Field],
    add: &[Field],
    place: usize,
    cell: &Cell,
) -> Result<Option<Cell>, AllocError>
    ensures { IfOk result (λ edited. edited ≡ edited_at columns.now set.now add.now place cell.now) }
{
    if place < columns.len() {
        edited_cell(set, add, &columns[place], cell)
    } else {
        Ok(Some(cell.copy()?))
    }
}

/// The row with some cells set and whole numbers added to others, where each sum has 64 bits. O(columns · fields), and the
/// length of the cells.
#[tactic(auto, unfolding(crate::specs::Edits::edited_row))]
pub fn edited_row(
    alloc: Global,
    columns: &[Column],
    set: &[Field],
    add: &[Field],
    row: &Row,
) -> Result<Option<Row>, AllocError>
    ensures { IfOk result (λ edited. edited ≡ edited_row columns.now set.now add.now row.now) }
{
    let cells = row.cells();
    let mut edited = Vec::with_capacity(alloc, cells.len())?;
    for (place, cell) in cells.iter().enumerate() {
        let Some(cell) = edited_at(columns, set, add, place, cell)? else {
            return Ok(None);
        };
        edited.push(cell)?;
    }
    Ok(Some(Row::new(edited)))
}
