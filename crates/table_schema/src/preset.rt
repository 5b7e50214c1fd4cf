//! The schema that a server has where it is given none.
ghost use Rattle.std.specs.Prelude.{◌≡◌, IfOk, [], ◌∷◌, None, Some, true, false};
ghost use Rattle.table_schema.specs.Builtin.{builtin_schema, builtin_columns, builtin_indices, builtin_table};

use crate::column::{CellKind, Column, IndexSpec};
use crate::schema::Schema;
use crate::table::TableSpec;
use arrayvec::ArrayVec;
use container_model::Kind;
use key_extract::{KeySpec, Part, Text};
use std::alloc::{AllocError, Global};

/// The schema of one table `f`: the columns `id`, integers, and `g`, texts; a sequence `q`, and the
/// unique order `u` by `id`.
pub fn builtin(alloc: Global) -> Result<Schema, AllocError>
    ensures { IfOk result (λ schema. schema ≡ builtin_schema) }
{
    let mut tables = Vec::with_capacity(alloc, 1)?;
    tables.push(table(alloc)?)?;
    Ok(Schema::new(tables))
}

fn table(alloc: Global) -> Result<TableSpec, AllocError>
    ensures { IfOk result (λ table. table ≡ builtin_table) }
{
    let name = Text::copy_of(alloc, "f")?;
    let columns = columns(alloc)?;
    let indices = indices(alloc)?;
    Ok(TableSpec::new(name, u32::MAX, columns, indices, 0, 1))
}

fn columns(alloc: Global) -> Result<Vec<Column>, AllocError>
    ensures { IfOk result (λ columns. columns.items ≡ builtin_columns) }
{
    let mut columns = Vec::with_capacity(alloc, 2)?;
    columns.push(Column {
        name: Text::copy_of(alloc, "id")?,
        cell: CellKind::Int,
        null: false,
    })?;
    columns.push(Column {
        name: Text::copy_of(alloc, "g")?,
        cell: CellKind::Text,
        null: false,
    })?;
    Ok(columns)
}

fn indices(alloc: Global) -> Result<Vec<IndexSpec>, AllocError>
    ensures { IfOk result (λ indices. indices.items ≡ builtin_indices) }
{
    let mut indices = Vec::with_capacity(alloc, 2)?;
    indices.push(IndexSpec {
        name: Text::copy_of(alloc, "q")?,
        kind: Kind::Sequenced,
        unique: false,
        key: None,
    })?;
    indices.push(IndexSpec {
        name: Text::copy_of(alloc, "u")?,
        kind: Kind::Ordered,
        unique: true,
        key: Some(by_first_column()),
    })?;
    Ok(indices)
}

fn by_first_column() -> KeySpec
    ensures { result ≡ record { column = 0; falling = false } ∷ [] }
{
    let mut parts = ArrayVec::new();
    parts.push(Part {
        column: 0,
        falling: false,
    });
    KeySpec::new(parts)
}
