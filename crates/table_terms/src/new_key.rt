//! Rows with another key.

ghost use Rattle.std.specs.Prelude.{◌≡◌, ◌==◌, ◌<◌, IfOk, length, position};
ghost use Rattle.key_extract.specs.Keys.{parts_at};
ghost use Rattle.table_terms.specs.Edits.{keyed_cell, keyed_row};
ghost use Rattle.table_terms.specs.Table.{keys_of};

use crate::keys::parts_at;
use key_extract::{Cell, Part, Probe, Row};
use std::alloc::{AllocError, Global};
use table_schema::TableSpec;

// The part of a key that is this column, counted from 0.
fn part_of(parts: &[Part], column: usize) -> Option<usize>
    ensures { result ≡ position (λ part. part.column == column) parts.now }
{
    parts.iter().position(|part| part.column == column)
}

// The cell of a column with a key put in.
fn keyed_cell<'a>(parts: &[Part], key: &'a [Cell], place: usize, cell: &'a Cell) -> &'a Cell
    ensures { result.now ≡ keyed_cell parts.now key.now place cell.now }
{
    match part_of(parts, place) {
        Some(part) if part < key.len() => &key[part],
        _ => cell,
    }
}

/// The row with a key of the index of a number put into the columns of its parts. O(columns · parts), and the length of the
/// cells.
#[tactic(auto, unfolding(crate::specs::Edits::keyed_row))]
pub fn keyed_row(
    alloc: Global,
    spec: &TableSpec,
    index: usize,
    key: &Probe,
    row: &Row,
) -> Result<Row, AllocError>
    requires { index < length spec.now.indices }
    ensures { IfOk result (λ keyed. keyed ≡ keyed_row (parts_at (keys_of spec.now) index) key.now row.now) }
{
    let parts = parts_at(spec, index);
    let cells = row.cells();
    let mut keyed = Vec::with_capacity(alloc, cells.len())?;
    for (column, cell) in cells.iter().enumerate() {
        keyed.push(keyed_cell(parts, key.cells(), column, cell).copy()?)?;
    }
    Ok(Row::new(keyed))
}
