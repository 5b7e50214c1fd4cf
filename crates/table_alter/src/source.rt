//! Where the cells of a table's columns come from under another declaration.

ghost use Rattle.std.specs.Prelude.{◌≡◌, IfOk};
ghost use Rattle.std.specs.Option.{option_copied};
ghost use Rattle.table_alter.specs.Sources.{cell_from, first_unheld, given_for, place_of as the_place_of, row_from, source_of, sources_of};

use key_extract::{Cell, Row, Text};
use std::alloc::{AllocError, Global};
use table_schema::Column;
use table_terms::can_hold;

/// A value for a column that is added.
#[derive(Drop)]
pub struct Fill {
    /// The column's name.
    pub column: Text,
    /// What each record gets there.
    pub cell: Cell,
}

/// Where a column's cells come from.
#[derive(Drop)]
pub(crate) enum Source {
    /// From the column of this place, as it was.
    Kept(usize),
    /// From this value.
    Given(Cell),
}

/// The place of the column of this name. O(columns).
pub fn place_of(columns: &[Column], name: &str) -> Option<usize>
    ensures { result ≡ the_place_of columns.now name.now }
{
    columns
        .iter()
        .position(|column| column.name.as_str() == name)
}

// The value that is given for a column.
fn given_for<'a>(fills: &'a [Fill], name: &str) -> Option<&'a Cell>
    ensures { option_copied result ≡ given_for fills.now name.now }
{
    for fill in fills {
        if fill.column.as_str() == name {
            return Some(&fill.cell);
        }
    }
    None
}

// Where the cells of a column come from.
fn source_of(before: &[Column], fills: &[Fill], column: &Column) -> Result<Source, AllocError>
    ensures { IfOk result (λ source. source ≡ source_of before.now fills.now column.now) }
{
    let name = column.name.as_str();
    match place_of(before, name) {
        Some(place) => Ok(Source::Kept(place)),
        None => match given_for(fills, name) {
            Some(cell) => Ok(Source::Given(cell.copy()?)),
            None => Ok(Source::Given(Cell::Null)),
        },
    }
}

/// Where the cells of all columns come from.
pub(crate) fn sources_of(
    alloc: Global,
    before: &[Column],
    fills: &[Fill],
    after: &[Column],
) -> Result<Vec<Source>, AllocError>
    ensures { IfOk result (λ sources. sources.items ≡ sources_of before.now fills.now after.now) }
{
    let mut sources = Vec::with_capacity(alloc, after.len())?;
    for column in after {
        sources.push(source_of(before, fills, column)?)?;
    }
    Ok(sources)
}

// The cell of a column.
fn cell_from(cells: &[Cell], source: &Source) -> Result<Cell, AllocError>
    ensures { IfOk result (λ cell. cell ≡ cell_from cells.now source.now) }
{
    match source {
        Source::Kept(place) => match cells.get(*place) {
            Some(cell) => cell.copy(),
            None => Ok(Cell::Null),
        },
        Source::Given(cell) => cell.copy(),
    }
}

/// The row that a record gets which has these cells.
pub(crate) fn row_from(alloc: Global, sources: &[Source], cells: &[Cell]) -> Result<Row, AllocError>
    ensures { IfOk result (λ row. row ≡ row_from sources.now cells.now) }
{
    let mut all = Vec::with_capacity(alloc, sources.len())?;
    for source in sources {
        all.push(cell_from(cells, source)?)?;
    }
    Ok(Row::new(all))
}

/// The first column that can't hold its cell.
pub(crate) fn first_unheld(columns: &[Column], cells: &[Cell]) -> Option<usize>
    ensures { result ≡ first_unheld columns.now cells.now }
{
    columns
        .iter()
        .zip(cells)
        .position(|(column, cell)| !can_hold(column, cell))
}
