//! The declaration of a table, as the text of a schema file.

ghost use Rattle.std.specs.Prelude.{◌≡◌, ◌∷◌, [], Ok, IfOk, IsTrue, false, string_bytes};
ghost use Rattle.schema_file.specs.Meaning.{schema_of};
ghost use Rattle.table_schema.specs.Shape.{TableShape};
ghost use Rattle.toml.specs.Data.{Members};
ghost use Rattle.toml.specs.Text.{IsDocumentText};

use key_extract::{KeySpec, Part};
use schema_file::read_schema;
use std::alloc::{AllocError, Global};
use table_schema::{CellKind, Column, IndexSpec, SchemaFault, TableSpec, kind_text};
use toml::{Table, Value, toml};

/// The text of a schema file that declares this table alone. O(columns and indices).
pub fn text_of(alloc: Global, table: &TableSpec) -> Result<String, AllocError>
    ensures { IfOk result (λ text. (members : Members) × IsDocumentText false members (string_bytes text)) }
{
    let document = document(alloc, table)?;
    match toml::table_to_string(alloc, &document) {
        Ok(text) => Ok(text),
        Err(_) => Err(AllocError),
    }
}

/// Whether the bytes are a schema file that declares this table alone, however it is laid out.
pub fn declares(alloc: Global, bytes: &[u8], table: &TableSpec) -> Result<bool, AllocError>
    ensures { IfOk result (λ is. IsTrue is → (shape : TableShape) × (schema_of bytes.now ≡ Ok (shape ∷ []))) }
{
    let schema = match read_schema(alloc, bytes) {
        Ok(schema) => schema,
        Err(SchemaFault::Memory) => return Err(AllocError),
        Err(_) => return Ok(false),
    };
    match schema.tables() {
        [found] => Ok(text_of(alloc, found)?.as_str() == text_of(alloc, table)?.as_str()),
        _ => Ok(false),
    }
}

// The schema file of this table.
fn document(alloc: Global, table: &TableSpec) -> Result<Table, AllocError> {
    let columns = columns_of(alloc, table.columns())?;
    let indices = indices_of(alloc, table)?;
    toml!(in alloc;
        [[table]]
        name = (table.name())
        max = (table.max())
        column = (columns)
        index = (indices)
    )
    .map_err(|_| AllocError)
}

fn columns_of(alloc: Global, columns: &[Column]) -> Result<Value, AllocError> {
    let mut all = Vec::with_capacity(alloc, columns.len())?;
    for column in columns {
        all.push(Value::Table(column_of(alloc, column)?))?;
    }
    Ok(Value::Array(all))
}

fn column_of(alloc: Global, column: &Column) -> Result<Table, AllocError> {
    toml!(in alloc;
        name = (column.name.as_str())
        cell = (cell_text(column.cell))
        null = (column.null)
    )
    .map_err(|_| AllocError)
}

// The name of a cell's type.
fn cell_text(cell: CellKind) -> &'static str {
    match cell {
        CellKind::Int => "int",
        CellKind::Text => "text",
        CellKind::Bool => "bool",
    }
}

fn indices_of(alloc: Global, table: &TableSpec) -> Result<Value, AllocError> {
    let mut all = Vec::with_capacity(alloc, table.indices().len())?;
    for index in table.indices() {
        all.push(Value::Table(index_of(alloc, table.columns(), index)?))?;
    }
    Ok(Value::Array(all))
}

fn index_of(alloc: Global, columns: &[Column], index: &IndexSpec) -> Result<Table, AllocError> {
    let mut table = toml!(in alloc;
        name = (index.name.as_str())
        kind = (kind_text(index.kind))
        unique = (index.unique)
    )
    .map_err(|_| AllocError)?;
    if let Some(key) = &index.key {
        table.insert(
            String::from_str(alloc, "key")?,
            key_of(alloc, columns, key)?,
        )?;
    }
    Ok(table)
}

fn key_of(alloc: Global, columns: &[Column], key: &KeySpec) -> Result<Value, AllocError> {
    let mut parts = Vec::with_capacity(alloc, key.parts().len())?;
    for part in key.parts() {
        parts.push(Value::String(part_of(alloc, columns, part)?))?;
    }
    Ok(Value::Array(parts))
}

// A part of a key: the name of its column, with a `-` before it where it falls.
fn part_of(alloc: Global, columns: &[Column], part: &Part) -> Result<String, AllocError> {
    let sign = if part.falling { "-" } else { "" };
    let name = match columns.get(part.column) {
        Some(column) => column.name.as_str(),
        None => "",
    };
    format!(in alloc; "{sign}{name}")
}
