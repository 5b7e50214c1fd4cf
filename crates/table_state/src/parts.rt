//! The commands whose texts are the lines of a state.

ghost use Rattle.std.specs.Prelude.{◌≡◌, IfOk, map, option_map};
ghost use Rattle.table_state.specs.State.{columns_command, count_command, index_command, order_command, part_text, record_command};

use key_extract::{Cell, KeySpec, Part, Text};
use std::alloc::{AllocError, Global};
use table_cmd::{Command, Handle, HandleText, Items, Names, Value};
use table_schema::{Column, IndexSpec, TableSpec};

/// The name of what is said of all columns.
const COLUMNS: &str = "columns";

/// A number of a state under its name.
pub(crate) fn count_command(
    alloc: Global,
    spec: &TableSpec,
    name: &str,
    count: u64,
) -> Result<Command, AllocError>
    ensures { IfOk result (λ command. command ≡ count_command spec.now name.now count) }
{
    Ok(Command::Nth {
        table: Text::copy_of(alloc, spec.name())?,
        index: Text::copy_of(alloc, name)?,
        place: count,
    })
}

// The names of columns.
fn names_of(alloc: Global, columns: &[Column]) -> Result<Names, AllocError>
    ensures { IfOk result (λ names. names ≡ map (λ c. c.name) columns.now) }
{
    let mut names = Vec::with_capacity(alloc, columns.len())?;
    for column in columns {
        names.push(column.name.copy()?)?;
    }
    Ok(Items::new(names))
}

/// The names of the columns, in their order.
pub(crate) fn columns_command(alloc: Global, spec: &TableSpec) -> Result<Command, AllocError>
    ensures { IfOk result (λ command. command ≡ columns_command spec.now) }
{
    Ok(Command::Sort {
        table: Text::copy_of(alloc, spec.name())?,
        index: Text::copy_of(alloc, COLUMNS)?,
        by: names_of(alloc, spec.columns())?,
    })
}

// The name of a part's column, with a `-` before it where the part falls.
fn part_text(alloc: Global, columns: &[Column], part: Part) -> Result<Text, AllocError>
    ensures { IfOk result (λ text. text ≡ part_text columns.now part) }
{
    let name = match columns.get(part.column) {
        Some(column) => column.name.as_str(),
        None => "",
    };
    if !part.falling {
        return Text::copy_of(alloc, name);
    }
    let mut text = String::from_str(alloc, "-")?;
    text.push_str(name)?;
    Ok(Text::new(text))
}

// The texts of a key's parts.
fn key_texts(alloc: Global, columns: &[Column], key: &KeySpec) -> Result<Names, AllocError>
    ensures { IfOk result (λ names. names ≡ map (part_text columns.now) key.now) }
{
    let parts = key.parts();
    let mut names = Vec::with_capacity(alloc, parts.len())?;
    for part in parts {
        names.push(part_text(alloc, columns, *part)?)?;
    }
    Ok(Items::new(names))
}

// The texts of the parts of a key, if there is one.
fn texts_if_keyed(
    alloc: Global,
    columns: &[Column],
    key: &Option<KeySpec>,
) -> Result<Option<Names>, AllocError>
    ensures { IfOk result (λ names. names ≡ option_map (map (part_text columns.now)) key.now) }
{
    match key {
        Some(key) => Ok(Some(key_texts(alloc, columns, key)?)),
        None => Ok(None),
    }
}

/// An index of a table.
pub(crate) fn index_command(
    alloc: Global,
    spec: &TableSpec,
    index: &IndexSpec,
) -> Result<Command, AllocError>
    ensures { IfOk result (λ command. command ≡ index_command spec.now index.now) }
{
    Ok(Command::AddIndex {
        table: Text::copy_of(alloc, spec.name())?,
        index: index.name.copy()?,
        kind: index.kind,
        unique: index.unique,
        key: texts_if_keyed(alloc, spec.columns(), &index.key)?,
    })
}

// Cells as values.
fn values_of(alloc: Global, cells: &[Cell]) -> Result<Items<Value>, AllocError>
    ensures { IfOk result (λ values. values ≡ map Value.Cell cells.now) }
{
    let mut values = Vec::with_capacity(alloc, cells.len())?;
    for cell in cells {
        values.push(Value::Cell(cell.copy()?))?;
    }
    Ok(Items::new(values))
}

/// A record: its handle, and its cells in the order of the columns.
pub(crate) fn record_command(
    alloc: Global,
    spec: &TableSpec,
    handle: Handle,
    cells: &[Cell],
) -> Result<Command, AllocError>
    ensures { IfOk result (λ command. command ≡ record_command spec.now (record { handle = handle; row = cells.now })) }
{
    Ok(Command::ModifyKey {
        table: Text::copy_of(alloc, spec.name())?,
        index: Text::copy_of(alloc, COLUMNS)?,
        handle: HandleText::Handle(handle),
        key: values_of(alloc, cells)?,
        rollback: false,
    })
}

// Handles as texts say them.
fn handles_of(alloc: Global, handles: &[Handle]) -> Result<Items<HandleText>, AllocError>
    ensures { IfOk result (λ texts. texts ≡ map HandleText.Handle handles.now) }
{
    let mut texts = Vec::with_capacity(alloc, handles.len())?;
    for handle in handles {
        texts.push(HandleText::Handle(*handle))?;
    }
    Ok(Items::new(texts))
}

/// The order of an index.
pub(crate) fn order_command(
    alloc: Global,
    spec: &TableSpec,
    index: &str,
    handles: &[Handle],
) -> Result<Command, AllocError>
    ensures { IfOk result (λ command. command ≡ order_command spec.now index.now handles.now) }
{
    Ok(Command::Rearrange {
        table: Text::copy_of(alloc, spec.name())?,
        index: Text::copy_of(alloc, index)?,
        handles: handles_of(alloc, handles)?,
    })
}
