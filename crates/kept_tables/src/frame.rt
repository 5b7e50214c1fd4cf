//! The first line of a state: the types of the table's columns with the digest of its last write.

ghost use Rattle.std.specs.Prelude.{◌≡◌, ◌++◌, IfOk, OnOk, string_bytes};
ghost use Rattle.kept_tables.specs.Types as spec;

use std::alloc::{AllocError, Global};
use table_folder::FRONT;
use table_schema::{CellKind, Column, TableSpec};

/// The first line of a table's state up to the types. O(columns).
pub fn types_of(alloc: Global, table: &TableSpec) -> Result<String, AllocError>
    ensures { IfOk result (λ line. string_bytes line ≡ spec.types_line table.now.columns) }
{
    let columns = table.columns();
    let mut line = String::from_str(alloc, FRONT)?;
    let mut before = "\"";
    for column in columns {
        push_type(&mut line, before, column)?;
        before = ",\"";
    }
    line.push_str("]")?;
    Ok(line)
}

// Appends the type of a column, behind what stands before it.
fn push_type(line: &mut String, before: &str, column: &Column) -> Result<(), AllocError>
    ensures { OnOk result (string_bytes line.new ≡ string_bytes line.old ++ (before.now ++ spec.type_text column.now)) }
{
    line.push_str(before)?;
    line.push_str(cell_name(column.cell))?;
    line.push_str(if column.null { "?\"" } else { "\"" })
}

// The name of a cell's type.
fn cell_name(cell: CellKind) -> &'static str
    ensures { result.now ≡ spec.cell_name cell }
{
    match cell {
        CellKind::Int => "int",
        CellKind::Text => "text",
        CellKind::Bool => "bool",
    }
}
