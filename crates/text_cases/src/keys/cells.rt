//! Cells and keys from words.

use super::signs::agreed;
use arrayvec::ArrayVec;
use key_extract::{Cell, KeySpec, Part, Text};
use std::alloc::{AllocError, Global};
use std::cmp::Ordering;

// The text between two quotes.
fn quoted(word: &str) -> Option<&str> {
    word.strip_prefix('\'')?.strip_suffix('\'')
}

fn cell_of(alloc: Global, word: &str) -> Result<Option<Cell>, AllocError> {
    if let Some(text) = quoted(word) {
        return Ok(Some(Cell::Text(Text::copy_of(alloc, text)?)));
    }
    Ok(match word {
        "null" => Some(Cell::Null),
        "true" => Some(Cell::Bool(true)),
        "false" => Some(Cell::Bool(false)),
        _ => match word.parse::<i64>() {
            Ok(number) => Some(Cell::Int(number)),
            Err(_) => None,
        },
    })
}

/// The cells of the words.
pub(crate) fn cells_of(alloc: Global, words: &str) -> Result<Vec<Cell>, AllocError> {
    let mut cells = Vec::new(alloc);
    for word in words.split_whitespace() {
        if let Some(cell) = cell_of(alloc, word)? {
            cells.push(cell)?;
        }
    }
    Ok(cells)
}

fn part_of(word: &str) -> Option<Part> {
    let (falling, digits) = match word.strip_prefix('-') {
        Some(digits) => (true, digits),
        None => (false, word),
    };
    let column = digits.parse::<usize>().ok()?;
    Some(Part { column, falling })
}

/// The key of the words' columns, if there is one.
pub(crate) fn key_of(words: &str) -> Option<KeySpec> {
    let mut parts = ArrayVec::<Part, 4>::new();
    for word in words.split_whitespace() {
        let part = part_of(word)?;
        if parts.is_full() {
            return None;
        }
        parts.push(part);
    }
    if parts.is_empty() {
        return None;
    }
    Some(KeySpec::new(parts))
}

// How two cells compare.
fn sign(a: &Cell, b: &Cell) -> char {
    let order = a.compare(b);
    agreed(order, (a == b) == (order == Ordering::Equal))
}

// Adds the length of a text, and whether it is empty.
fn push_length(alloc: Global, said: &mut String, cell: &Cell) -> Result<(), AllocError> {
    if let Cell::Text(text) = cell {
        let copy = text.copy()?;
        let length = format!(in alloc; " '{}' {}", copy.as_str(), text.len())?;
        said.push_str(length.as_str())?;
        said.push_str(if text.is_empty() { " empty" } else { "" })?;
    }
    Ok(())
}

fn push_cell(
    alloc: Global,
    said: &mut String,
    cells: &[Cell],
    cell: &Cell,
) -> Result<(), AllocError> {
    said.push_str("  ")?;
    for other in cells {
        said.push(sign(cell, other))?;
    }
    said.push_str(if cell.copy()? == *cell {
        ""
    } else {
        " no copy"
    })?;
    push_length(alloc, said, cell)?;
    said.push('\n')
}

/// How each cell compares to each, and what texts and copies are like.
pub(crate) fn tell_cells(alloc: Global, cells: &[Cell]) -> Result<String, AllocError> {
    let mut said = String::new(alloc);
    for cell in cells {
        push_cell(alloc, &mut said, cells, cell)?;
    }
    Ok(said)
}
