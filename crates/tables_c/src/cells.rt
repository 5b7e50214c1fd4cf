//! Cells as a C program has them: a kind and a number each, and the bytes of all texts one after another.

ghost use Rattle.std.specs.Prelude.{◌≡◌, ◌≤◌, ◌<◌, ◌++◌, IfOk, MatchOption, drop, length, map, option_map};
ghost use Rattle.tables_c.specs.Cells.{all_texts, behind, behind_text, cell_told, cut, first_cell, first_text, length_told, most, natural, plain_cell, spelled, text_bytes, text_length, text_of, truth};

use key_extract::{Cell, Text};
use std::alloc::{AllocError, Global};

/// No value. The number says nothing.
pub const NULL: u8 = 0;

/// A whole number.
pub const INTEGER: u8 = 1;

/// A text. The number is its length in bytes.
pub const TEXT: u8 = 2;

/// A truth value. The number is 0 or 1.
pub const BOOLEAN: u8 = 3;

/// A cell. The bytes of a text stand elsewhere.
#[repr(C)]
#[derive(Clone, Copy)]
pub struct RowCell {
    pub number: i64,
    pub kind: u8,
}

// The natural number that a number is.
fn natural(number: i64) -> Option<usize>
    ensures { result ≡ natural number }
{
    if number < 0 {
        None
    } else {
        Some(number as usize)
    }
}

// The truth value of a number.
fn truth(number: i64) -> Option<bool>
    ensures { result ≡ truth number }
{
    match number {
        0 => Some(false),
        1 => Some(true),
        _ => None,
    }
}

// So many bytes in front, and those behind them.
fn cut(bytes: &[u8], length: usize) -> Option<(&[u8], &[u8])>
    ensures { option_map (λ parts. (parts.0.now, parts.1.now)) result ≡ cut bytes.now length }
{
    if length <= bytes.len() {
        Some(bytes.split_at(length))
    } else {
        None
    }
}

// The text that bytes are.
fn text_of(alloc: Global, bytes: &[u8]) -> Result<Option<Cell>, AllocError>
    ensures { IfOk result (λ text. text ≡ text_of bytes.now) }
{
    match std::str::from_utf8(bytes) {
        Ok(text) => Ok(Some(Cell::Text(Text::copy_of(alloc, text)?))),
        Err(_) => Ok(None),
    }
}

// The text of so many bytes in front, and the bytes behind it.
fn first_text(alloc: Global, number: i64, texts: &[u8]) -> Result<Option<(Cell, &[u8])>, AllocError>
    ensures { IfOk result (λ first. option_map (λ parts. (parts.0, parts.1.now)) first ≡ first_text number texts.now) }
{
    let Some(length) = natural(number) else {
        return Ok(None);
    };
    let Some((front, behind)) = cut(texts, length) else {
        return Ok(None);
    };
    match text_of(alloc, front)? {
        Some(text) => Ok(Some((text, behind))),
        None => Ok(None),
    }
}

// The cell that a kind and a number are without a text.
fn plain_cell(cell: RowCell) -> Option<Cell>
    ensures { result ≡ plain_cell cell }
{
    if cell.kind == NULL {
        Some(Cell::Null)
    } else if cell.kind == INTEGER {
        Some(Cell::Int(cell.number))
    } else if cell.kind == BOOLEAN {
        truth(cell.number).map(Cell::Bool)
    } else {
        None
    }
}

// The cell that a kind and a number are, with its text in front of these bytes, and the bytes behind it.
fn first_cell(
    alloc: Global,
    cell: RowCell,
    texts: &[u8],
) -> Result<Option<(Cell, &[u8])>, AllocError>
    ensures { IfOk result (λ first. option_map (λ parts. (parts.0, parts.1.now)) first ≡ first_cell cell texts.now) }
{
    if cell.kind == TEXT {
        return first_text(alloc, cell.number, texts);
    }
    match plain_cell(cell) {
        Some(cell) => Ok(Some((cell, texts))),
        None => Ok(None),
    }
}

// How many bytes the text of a cell has.
fn text_length(cell: RowCell) -> usize
    ensures { result ≡ text_length cell }
{
    if cell.kind == TEXT {
        natural(cell.number).unwrap_or(0)
    } else {
        0
    }
}

// The bytes behind the text of a cell. None where it has more than there are.
fn behind_text(cell: RowCell, texts: &[u8]) -> &[u8]
    ensures { result.now ≡ behind_text cell texts.now }
{
    match cut(texts, text_length(cell)) {
        Some((_, behind)) => behind,
        None => &[],
    }
}

/// The bytes behind the texts of cells. None where these have more than there are. O(cells).
#[tactic(auto, using(crate::proofs::Spelled::behind_more))]
pub(crate) fn behind<'t>(cells: &[RowCell], texts: &'t [u8]) -> &'t [u8]
    ensures { result.now ≡ behind cells.now texts.now }
{
    let mut rest = texts;
    for cell in cells {
        rest = behind_text(*cell, rest);
    }
    rest
}

/// The cells that these are with their texts, where each is one and no byte is left. O(cells + bytes).
pub(crate) fn read_cells(
    alloc: Global,
    cells: &[RowCell],
    texts: &[u8],
) -> Result<Option<Vec<Cell>>, AllocError>
    ensures { IfOk result (λ read. option_map (λ cells. cells.items) read ≡ spelled cells.now texts.now) }
{
    let mut read = Vec::with_capacity(alloc, cells.len())?;
    let mut rest = texts;
    for cell in cells {
        let Some((cell, behind)) = first_cell(alloc, *cell, rest)? else {
            return Ok(None);
        };
        read.push(cell)?;
        rest = behind;
    }
    if rest.is_empty() {
        Ok(Some(read))
    } else {
        Ok(None)
    }
}

// The length of a text as a number.
fn length_told(length: usize) -> i64
    ensures { result ≡ length_told length }
{
    if length <= i64::MAX as usize {
        length as i64
    } else {
        i64::MAX
    }
}

// The kind and the number of a cell.
fn cell_told(cell: &Cell) -> RowCell
    ensures { result ≡ cell_told cell.now }
{
    let (kind, number) = match cell {
        Cell::Null => (NULL, 0),
        Cell::Int(number) => (INTEGER, *number),
        Cell::Text(text) => (TEXT, length_told(text.len())),
        Cell::Bool(false) => (BOOLEAN, 0),
        Cell::Bool(true) => (BOOLEAN, 1),
    };
    RowCell { number, kind }
}

// The bytes of a cell's text.
fn text_bytes(cell: &Cell) -> &[u8]
    ensures { result.now ≡ text_bytes cell.now }
{
    match cell {
        Cell::Text(text) => text.as_str().as_bytes(),
        Cell::Null | Cell::Int(_) | Cell::Bool(_) => &[],
    }
}

/// How many bytes the texts of the cells have, where that has 64 bits. O(cells).
pub(crate) fn texts_length(cells: &[Cell]) -> Option<usize>
    ensures { MatchOption result (most < length (all_texts cells.now)) (λ length'. length' ≡ length (all_texts cells.now)) }
{
    let mut length = 0usize;
    for cell in cells {
        let Some(sum) = length.checked_add(text_bytes(cell).len()) else {
            return None;
        };
        length = sum;
    }
    Some(length)
}

/// Puts the cells at the front of a room that they fit in. O(cells).
pub(crate) fn write_cells(row: &[Cell], cells: &mut [RowCell])
    requires { length row.now ≤ length cells.old }
    ensures { cells.new ≡ map cell_told row.now ++ drop (length row.now) cells.old }
{
    for place in 0..row.len() {
        cells[place] = cell_told(&row[place]);
    }
}

/// Puts their texts at the front of a room that they fit in, one after another. O(cells + bytes).
pub(crate) fn write_texts(row: &[Cell], texts: &mut [u8])
    requires { length (all_texts row.now) ≤ length texts.old }
    ensures { texts.new ≡ all_texts row.now ++ drop (length (all_texts row.now)) texts.old }
{
    let mut begin = 0usize;
    for cell in row {
        let text = text_bytes(cell);
        let (_, rest) = texts.split_at_mut(begin);
        let (front, _) = rest.split_at_mut(text.len());
        front.copy_from_slice(text);
        begin += text.len();
    }
}
