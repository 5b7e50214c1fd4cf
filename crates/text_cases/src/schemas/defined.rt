//! Indices of a table that come and go. A line is `add NAME KIND`, then `unique` if it is, and then `key` with the texts of its
//! parts, if it has one; or `drop PLACE`.

use super::spelled::table_line;
use std::alloc::{AllocError, Global};
use table_schema::{DefineFault, TableSpec, Text, define_index, kind_of};

// The texts behind the word `key`, if it is there.
fn key_in(alloc: Global, words: &str) -> Result<Option<Vec<Text>>, AllocError> {
    let Some(words) = words.strip_prefix("key") else {
        return Ok(None);
    };
    let mut texts = Vec::new(alloc);
    for word in words.split_whitespace() {
        texts.push(Text::copy_of(alloc, word)?)?;
    }
    Ok(Some(texts))
}

// Adds the index to the table; none where it may not be.
fn added(alloc: Global, table: &TableSpec, words: &str) -> Result<Option<TableSpec>, AllocError> {
    let (name, words) = words.split_once(' ').unwrap_or((words, ""));
    let (kind, words) = words.split_once(' ').unwrap_or((words, ""));
    let Some(kind) = kind_of(kind) else {
        return Ok(None);
    };
    let (unique, words) = match words.strip_prefix("unique") {
        Some(words) => (true, words.trim_start()),
        None => (false, words),
    };
    let name = Text::copy_of(alloc, name)?;
    let key = key_in(alloc, words)?;
    let texts = match &key {
        Some(texts) => Some(texts.as_slice()),
        None => None,
    };
    match define_index(table.columns(), table.indices(), &name, kind, unique, texts) {
        Ok(index) => Ok(Some(table.with_index(index)?)),
        Err(DefineFault::Definition) => Ok(None),
        Err(DefineFault::Memory) => Err(AllocError),
    }
}

// Drops the index at the place, if it is one of several.
fn is_dropped(table: &mut TableSpec, place: &str) -> bool {
    let Ok(place) = place.parse::<usize>() else {
        return false;
    };
    if place >= table.indices().len() || table.indices().len() < 2 {
        return false;
    }
    table.drop_index(place);
    true
}

/// The table as the line makes it, or `definition`.
pub(crate) fn tell_change(
    alloc: Global,
    table: &mut TableSpec,
    line: &str,
) -> Result<String, AllocError> {
    let (word, words) = line.split_once(' ').unwrap_or((line, ""));
    let is_changed = if word == "add" {
        match added(alloc, table, words)? {
            Some(made) => {
                *table = made;
                true
            }
            None => false,
        }
    } else {
        is_dropped(table, words)
    };
    if is_changed {
        table_line(alloc, table)
    } else {
        String::from_str(alloc, "definition")
    }
}
