//! What is told of a table that gets another declaration.

use crate::fault::Fault;
use std::alloc::{AllocError, Global};
use table_alter::{Unalterable, column_goes, index_goes, is_same_column, place_before, place_of};
use table_schema::{Column, IndexSpec, TableSpec};

/// Tells the changes that lead from one declaration of a table to another, a line each, and whether there is one.
pub(crate) fn tell_changes(
    rt: &HostRuntime,
    before: &TableSpec,
    after: &TableSpec,
) -> Result<bool, Fault> {
    let mut told = Told::new(rt, after.name());
    for column in before.columns() {
        if column_goes(after.columns(), column) {
            told.tell("column", column.name.as_str(), "dropped")?;
        }
    }
    tell_columns(&mut told, before.columns(), after.columns())?;
    for index in before.indices() {
        if index_goes(before, after, index) {
            told.tell("index", index.name.as_str(), "dropped")?;
        }
    }
    tell_indices(&mut told, before, after)?;
    if before.max() != after.max() {
        let max = after.max();
        told.line(format!(in rt.alloc(); "max {max}")?)?;
    }
    Ok(told.is_any)
}

// Tells lines of one table.
#[derive(Drop)]
struct Told<'a> {
    rt: &'a HostRuntime,
    table: &'a str,
    is_any: bool,
}

impl<'a> Told<'a> {
    fn new(rt: &'a HostRuntime, table: &'a str) -> Told<'a> {
        Told {
            rt,
            table,
            is_any: false,
        }
    }

    // Tells what becomes of a part of the table.
    fn tell(&mut self, part: &str, name: &str, becomes: &str) -> Result<(), Fault> {
        self.line(format!(in self.rt.alloc(); "{part} {name} {becomes}")?)
    }

    // Tells a change.
    fn line(&mut self, change: String) -> Result<(), Fault> {
        self.is_any = true;
        let (rt, table) = (self.rt, self.table);
        match println!(rt; "{table}: {change}") {
            Ok(()) => Ok(()),
            Err(_) => Err(Fault::Output),
        }
    }
}

// Tells which columns are added, change their type or stand elsewhere.
fn tell_columns(told: &mut Told<'_>, before: &[Column], after: &[Column]) -> Result<(), Fault> {
    let mut next = 0;
    for column in after {
        let name = column.name.as_str();
        match place_of(before, name) {
            None => told.tell("column", name, "added")?,
            Some(place) => {
                match before.get(place) {
                    Some(had) if is_same_column(had, column) => {}
                    _ => told.tell("column", name, "changed")?,
                }
                if place < next {
                    told.tell("column", name, "moved")?;
                }
                next = place;
            }
        }
    }
    Ok(())
}

// Tells which indices are added or stand elsewhere.
fn tell_indices(told: &mut Told<'_>, before: &TableSpec, after: &TableSpec) -> Result<(), Fault> {
    let mut next = 0;
    for index in after.indices() {
        let name = index.name.as_str();
        match place_before(before, after, index) {
            None => told.tell("index", name, "added")?,
            Some(place) => {
                if place < next {
                    told.tell("index", name, "moved")?;
                }
                next = place;
            }
        }
    }
    Ok(())
}

/// The fault of a table that can't have this declaration.
pub(crate) fn unaltered(alloc: Global, after: &TableSpec, why: Unalterable) -> Fault {
    match reason(alloc, after, why) {
        Ok(Some(text)) => Fault::Unaltered(text),
        _ => Fault::Memory,
    }
}

// Why a table can't have this declaration; none where memory was refused.
fn reason(
    alloc: Global,
    after: &TableSpec,
    why: Unalterable,
) -> Result<Option<String>, AllocError> {
    let table = after.name();
    let max = after.max();
    Ok(Some(match why {
        Unalterable::Memory => return Ok(None),
        Unalterable::Full => format!(in alloc; "{table}: max {max}: there are more records")?,
        Unalterable::Slot(handle) => {
            format!(in alloc; "{table}: max {max}: record {handle} lies in a later slot")?
        }
        Unalterable::Cell { column, handle } => {
            let name = column_at(after, column);
            format!(in alloc; "{table}: column {name} can't hold the cell of record {handle}")?
        }
        Unalterable::Clash {
            index,
            first,
            second,
        } => {
            let name = index_at(after, index);
            format!(in alloc; "{table}: index {name}: records {first} and {second} have one key")?
        }
        Unalterable::Unfit => format!(in alloc; "{table}: its records are those of no such table")?,
    }))
}

// The name of a column.
fn column_at(table: &TableSpec, place: usize) -> &str {
    match table.columns().get(place) {
        Some(Column { name, .. }) => name.as_str(),
        None => "",
    }
}

// The name of an index.
fn index_at(table: &TableSpec, place: usize) -> &str {
    match table.indices().get(place) {
        Some(IndexSpec { name, .. }) => name.as_str(),
        None => "",
    }
}
