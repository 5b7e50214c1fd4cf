//! Tables as lines of text.

use std::alloc::{AllocError, Global};
use table_schema::{CellKind, Column, IndexSpec, Kind, TableSpec};

fn cell_name(cell: CellKind) -> &'static str {
    match cell {
        CellKind::Int => "int",
        CellKind::Text => "text",
        CellKind::Bool => "bool",
    }
}

fn kind_name(kind: Kind) -> &'static str {
    match kind {
        Kind::Sequenced => "sequenced",
        Kind::Random => "random",
        Kind::Ordered => "ordered",
        Kind::Ranked => "ranked",
        Kind::Hashed => "hashed",
    }
}

fn push_columns(line: &mut String, columns: &[Column]) -> Result<(), AllocError> {
    for column in columns {
        line.push_str("; ")?;
        line.push_str(column.name.as_str())?;
        line.push_str(" ")?;
        line.push_str(cell_name(column.cell))?;
        line.push_str(if column.null { " null" } else { "" })?;
    }
    Ok(())
}

// The columns of a key by their places, those of falling parts below `-`.
fn push_key(alloc: Global, line: &mut String, index: &IndexSpec) -> Result<(), AllocError> {
    let Some(key) = &index.key else {
        return Ok(());
    };
    for part in key.parts() {
        let sign = if part.falling { "-" } else { "" };
        let text = format!(in alloc; " {sign}{}", part.column)?;
        line.push_str(text.as_str())?;
    }
    Ok(())
}

fn push_indices(alloc: Global, line: &mut String, indices: &[IndexSpec]) -> Result<(), AllocError> {
    for index in indices {
        line.push_str("; ")?;
        line.push_str(index.name.as_str())?;
        line.push_str(" ")?;
        line.push_str(if index.unique { "unique " } else { "" })?;
        line.push_str(kind_name(index.kind))?;
        push_key(alloc, line, index)?;
    }
    Ok(())
}

/// The place of a table, its name, and how many records it may hold; its columns; its indices.
pub(crate) fn table_line(alloc: Global, table: &TableSpec) -> Result<String, AllocError> {
    let mut line = format!(in alloc;
        "{} of {}: {} {}",
        table.place(),
        table.tables(),
        table.name(),
        table.max()
    )?;
    push_columns(&mut line, table.columns())?;
    push_indices(alloc, &mut line, table.indices())?;
    Ok(line)
}
