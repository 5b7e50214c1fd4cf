//! Values for columns that are added.

use crate::fault::Fault;
use command_lines::{CommandFault, read_command};
use key_extract::Cell;
use std::alloc::Global;
use table_alter::{Fill, place_of};
use table_cmd::{Command, Fields, Value};
use table_schema::{Schema, TableSpec, Text};
use table_terms::can_hold;

/// A value for a column of a table.
#[derive(Drop)]
pub(crate) struct Filling {
    table: Text,
    fill: Fill,
}

/// The values of these that are for a table.
pub(crate) fn fills_for(
    alloc: Global,
    fillings: &[Filling],
    table: &str,
) -> Result<Vec<Fill>, Fault> {
    let mut fills = Vec::new(alloc);
    for filling in fillings {
        if filling.table.as_str() == table {
            fills.push(Fill {
                column: filling.fill.column.copy()?,
                cell: filling.fill.cell.copy()?,
            })?;
        }
    }
    Ok(fills)
}

/// The values of an object of JSON under the names `TABLE.COLUMN`, each for a column that the new schema adds to a table of the old one.
pub(crate) fn read_fillings(
    alloc: Global,
    old: &Schema,
    new: &Schema,
    object: Option<&str>,
) -> Result<Vec<Filling>, Fault> {
    let mut fillings = Vec::new(alloc);
    let Some(object) = object else {
        return Ok(fillings);
    };
    let fields = fields_of(alloc, object)?;
    for field in fields.as_slice() {
        let name = field.name.as_str();
        match &field.value {
            Value::Cell(cell) => fillings.push(read_filling(alloc, old, new, name, cell)?)?,
            Value::Other => return Err(wrong(alloc, name, "is no cell")),
        }
    }
    Ok(fillings)
}

// The fields of an object of JSON.
fn fields_of(alloc: Global, object: &str) -> Result<Fields, Fault> {
    let line = format!(in alloc; "{{\"op\":\"insert\",\"r\":{object},\"t\":\"all\"}}")?;
    match read_command(alloc, line.as_bytes()) {
        Ok(Command::Insert { row, .. }) => Ok(row),
        Err(CommandFault::Memory) => Err(Fault::Memory),
        _ => Err(Fault::Words(format!(in alloc;
            "error: --fill: {object} is no object of JSON\n"
        )?)),
    }
}

// A value under a name, for a column that is added and can hold it.
fn read_filling(
    alloc: Global,
    old: &Schema,
    new: &Schema,
    name: &str,
    cell: &Cell,
) -> Result<Filling, Fault> {
    let Some((table, column)) = name.split_once('.') else {
        return Err(wrong(alloc, name, "is no column that is added"));
    };
    let (Some(before), Some(after)) = (table_in(old, table), table_in(new, table)) else {
        return Err(wrong(alloc, name, "is no column that is added"));
    };
    if place_of(before.columns(), column).is_some() {
        return Err(wrong(alloc, name, "is no column that is added"));
    }
    let Some(place) = place_of(after.columns(), column) else {
        return Err(wrong(alloc, name, "is no column that is added"));
    };
    match after.columns().get(place) {
        Some(at) if can_hold(at, cell) => Ok(Filling {
            table: Text::copy_of(alloc, table)?,
            fill: Fill {
                column: Text::copy_of(alloc, column)?,
                cell: cell.copy()?,
            },
        }),
        _ => Err(wrong(alloc, name, "can't hold its value")),
    }
}

/// The table of this name, if the schema has it.
pub(crate) fn table_in<'a>(schema: &'a Schema, name: &str) -> Option<&'a TableSpec> {
    for table in schema.tables() {
        if table.name() == name {
            return Some(table);
        }
    }
    None
}

// The fault of a value.
fn wrong(alloc: Global, name: &str, why: &str) -> Fault {
    match format!(in alloc; "error: --fill: {name} {why}\n") {
        Ok(text) => Fault::Words(text),
        Err(_) => Fault::Memory,
    }
}
