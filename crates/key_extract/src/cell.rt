//! Rows and their cells.
ghost use Rattle.std.specs.Prelude.{◌≡◌, ◌<◌, ◌↔◌, IfOk, IsTrue, [], length, string_bytes, slice_get, slice_set, fold, Some};
ghost use Rattle.std.specs.Option.{option_copied};
ghost use Rattle.std.specs.Hash.FoldHasher as folding;
ghost use Rattle.key_extract.specs.Cells.{cell_cmp, optional_cell_cmp};
ghost use Rattle.key_extract.specs.Hashes.{optional_cell_writes};

use arrayvec::ArrayString;
use std::alloc::{AllocError, Global};
use std::cmp::Ordering;
use std::fmt;
use std::hash::{FoldHasher, Hash, Hasher};
use std::marker::Model;
use std::mem::replace;

// The bytes of a text: in the value itself where they are few, and else in memory of their own.
#[derive(Drop)]
enum Stored {
    Short(ArrayString<16>),
    Long(String),
}

/// A text, which compares by its bytes. Those of a text of at most 16 bytes stand in the value itself, and it allocates nothing.
#[derive(Drop)]
pub struct Text {
    stored: Stored,
}

impl Model for Text {
    ghost use Rattle.std.specs.Prelude.{List, ℕ};

    ghost Value = { List ℕ };

    ghost use Rattle.key_extract.specs.Texts.{stored_bytes};

    ghost view = { λ t. stored_bytes t.stored };
}

impl Text {
    /// The text of a string, which it takes. O(1); of a text of at most 16 bytes the string's memory is freed.
    pub fn new(text: String) -> Text
        ensures { result ≡ string_bytes text }
    {
        let stored = match ArrayString::from(text.as_str()) {
            Ok(short) => Stored::Short(short),
            Err(_) => Stored::Long(text),
        };
        Text { stored }
    }

    /// A text of these bytes, newly allocated where they are more than 16. O(length).
    pub fn copy_of(alloc: Global, text: &str) -> Result<Text, AllocError>
        ensures { IfOk result (λ copy. copy ≡ text.now) }
    {
        let stored = match ArrayString::from(text) {
            Ok(short) => Stored::Short(short),
            Err(_) => Stored::Long(String::from_str(alloc, text)?),
        };
        Ok(Text { stored })
    }

    /// An equal text, newly allocated where its bytes are more than 16. O(length).
    pub fn copy(&self) -> Result<Text, AllocError>
        ensures { IfOk result (λ copy. copy ≡ self.now) }
    {
        let stored = match &self.stored {
            Stored::Short(text) => Stored::Short(*text),
            Stored::Long(text) => Stored::Long(text.clone()?),
        };
        Ok(Text { stored })
    }

    /// The text, as long as it is borrowed. O(1).
    pub fn as_str(&self) -> &str
        ensures { result.now ≡ self.now }
    {
        match &self.stored {
            Stored::Short(text) => text.as_str(),
            Stored::Long(text) => text.as_str(),
        }
    }

    /// The length in bytes, which is not the number of characters. O(1).
    pub fn len(&self) -> usize
        ensures { result ≡ length self.now }
    {
        self.as_str().len()
    }

    /// Whether the text has no byte. O(1).
    pub fn is_empty(&self) -> bool
        ensures { IsTrue result ↔ (self.now ≡ []) }
    {
        self.as_str().is_empty()
    }
}

impl PartialEq for Text {
    ghost use Rattle.std.specs.Prelude.{nat_eq};
    ghost use Rattle.std.specs.Cmp.{partial_equiv_from_equiv};
    ghost use Rattle.std.specs.Cmp.Lexicographic.{nat_list_eq_equiv, pointwise};

    ghost eq = { pointwise nat_eq };

    ghost laws = { partial_equiv_from_equiv nat_list_eq_equiv };

    fn eq(&self, other: &Text) -> bool {
        self.as_str() == other.as_str()
    }
}

impl Eq for Text {
    ghost use Rattle.std.specs.Cmp.Lexicographic.{nat_list_eq_equiv};

    ghost laws = { nat_list_eq_equiv };
}

impl Hash for Text {
    ghost use Rattle.std.specs.Hash.{str, same_Alike};
    ghost use Rattle.std.specs.Cmp.Lexicographic.{bytes_decides};

    ghost hash_input = { str };

    ghost respects_eq = { (same_Alike str bytes_decides).fed };

    fn hash<H: Hasher>(&self, state: &mut H) {
        self.as_str().hash(state);
    }
}

impl fmt::Debug for Text {
    fn fmt<W: fmt::Write>(&self, f: &mut fmt::Formatter<W>) -> fmt::Result {
        fmt::Debug::fmt(&self.as_str(), f)
    }
}

/// A value of a row in one column.
#[derive(Debug, Drop, PartialEq, Eq, Hash)]
pub enum Cell {
    /// No value.
    Null,
    /// A whole number.
    Int(i64),
    /// A text.
    Text(Text),
    /// A truth value.
    Bool(bool),
}

impl Cell {
    /// An equal cell; a text of more than 16 bytes is newly allocated. O(length of the text).
    pub fn copy(&self) -> Result<Cell, AllocError>
        ensures { IfOk result (λ copy. copy ≡ self.now) }
    {
        Ok(match self {
            Cell::Null => Cell::Null,
            Cell::Int(value) => Cell::Int(*value),
            Cell::Text(text) => Cell::Text(text.copy()?),
            Cell::Bool(value) => Cell::Bool(*value),
        })
    }

    /// Null comes before whole numbers, these before texts, and texts before truth values; false comes before true.
    /// Two nulls are equal. O(length of the texts).
    pub fn compare(&self, other: &Cell) -> Ordering
        ensures { result ≡ cell_cmp self.now other.now }
    {
        match (self, other) {
            (Cell::Null, Cell::Null) => Ordering::Equal,
            (Cell::Int(a), Cell::Int(b)) => a.cmp(b),
            (Cell::Text(a), Cell::Text(b)) => a.as_str().cmp(b.as_str()),
            (Cell::Bool(a), Cell::Bool(b)) => a.cmp(b),
            (Cell::Null, _) => Ordering::Less,
            (_, Cell::Null) => Ordering::Greater,
            (Cell::Int(_), _) | (Cell::Text(_), Cell::Bool(_)) => Ordering::Less,
            (Cell::Text(_), Cell::Int(_)) | (Cell::Bool(_), _) => Ordering::Greater,
        }
    }
}

/// A row of cells, one for each column.
#[derive(Drop)]
pub struct Row {
    cells: Vec<Cell>,
}

impl Model for Row {
    ghost use Rattle.std.specs.Prelude.{List};
    ghost use Rattle.key_extract.specs.declared.cell.Cell.{Cell as CellValue};

    ghost Value = { List CellValue };

    ghost view = { λ r. r.cells.items };
}

impl Row {
    /// A row of these cells, which it takes. O(1).
    pub fn new(cells: Vec<Cell>) -> Row
        ensures { result ≡ cells.items }
    {
        Row { cells }
    }

    /// The cells, in column order. O(1).
    pub fn cells(&self) -> &[Cell]
        ensures { result.now ≡ self.now }
    {
        &self.cells
    }

    /// Puts a cell in a column, from 0, that the row has, and answers the cell that was there. The others stay. O(1).
    pub fn set(&mut self, column: usize, cell: Cell) -> Cell
        requires { column < length self.old }
        ensures answer { slice_get self.old column ≡ Some result }
        ensures row { self.new ≡ slice_set self.old column cell }
    {
        replace(&mut self.cells[column], cell)
    }

    /// An equal row, newly allocated. O(length of all cells).
    pub fn copy(&self) -> Result<Row, AllocError>
        ensures { IfOk result (λ copy. copy ≡ self.now) }
    {
        Ok(Row::new(copy_cells(*self.cells.allocator(), self.cells())?))
    }
}

// Equal cells, newly allocated.
pub(crate) fn copy_cells(alloc: Global, cells: &[Cell]) -> Result<Vec<Cell>, AllocError>
    ensures { IfOk result (λ copies. copies.items ≡ cells.now) }
{
    let mut copies = Vec::with_capacity(alloc, cells.len())?;
    for cell in cells {
        copies.push(cell.copy()?)?;
    }
    Ok(copies)
}

// The cell of a column, which a row may lack.
pub(crate) fn cell_at(cells: &[Cell], column: usize) -> Option<&Cell>
    ensures { option_copied result ≡ slice_get cells.now column }
{
    if column < cells.len() {
        Some(&cells[column])
    } else {
        None
    }
}

// A cell that a row lacks comes before all.
pub(crate) fn compare_optional(a: Option<&Cell>, b: Option<&Cell>) -> Ordering
    ensures { result ≡ optional_cell_cmp (option_copied a.entry) (option_copied b.entry) }
{
    match (a, b) {
        (None, None) => Ordering::Equal,
        (None, Some(_)) => Ordering::Less,
        (Some(_), None) => Ordering::Greater,
        (Some(a), Some(b)) => a.compare(b),
    }
}

// Feeds a cell, or that there is none.
pub(crate) fn feed_optional(cell: Option<&Cell>, state: &mut FoldHasher)
    ensures { state.new ≡ fold folding.write state.old (optional_cell_writes (option_copied cell.entry)) }
{
    cell.hash(state);
}
