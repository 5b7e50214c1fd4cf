//! Searches by keys.

ghost use Rattle.std.specs.Prelude.{◌≡◌, ◌⊎◌, Err, IfOk, IfSome, true};
ghost use Rattle.table_terms.specs.Values.{parts_of};
ghost use Rattle.table_terms.specs.Words.{IsKeyAt};
ghost use Rattle.tables_c.specs.Cells.{hold_key, is_key, key_spelled, part_holds};
ghost use Rattle.tables_c.specs.Rows.{key_there, search_found, search_step, search_takes, status_told};
ghost use Rattle.tables_c.specs.declared.status.TheConstants.{MEMORY};

use crate::cells::{RowCell, read_cells};
use crate::status::{KIND, MEMORY, SEARCH};
use crate::told::Told;
use container_model::{Handle, Kind, Why};
use key_extract::{Cell, Part, Probe};
use std::alloc::{AllocError, Global};
use table_records::Records;
use table_schema::{Column, IndexSpec};
use table_terms::can_hold;

/// What a search by a key finds.
#[derive(Clone, Copy, Debug, PartialEq, Eq)]
pub(crate) enum Search {
    /// The first record that has the key.
    Find,
    /// The first that does not come before it.
    Lower,
    /// The first that comes after it.
    Upper,
}

impl Search {
    // Whether an index of the kind is searched so.
    fn takes(self, kind: Kind) -> bool
        ensures { result ≡ search_takes self kind }
    {
        match kind {
            Kind::Ordered | Kind::Ranked => true,
            Kind::Hashed => self == Search::Find,
            Kind::Sequenced | Kind::Random => false,
        }
    }
}

// The parts of an index's key.
fn parts_of(index: &IndexSpec) -> &[Part]
    ensures { result.now ≡ parts_of index.now }
{
    match &index.key {
        Some(key) => key.parts(),
        None => &[],
    }
}

// Whether the cell is one of the column of the part at a place.
fn part_holds(columns: &[Column], parts: &[Part], place: usize, cell: &Cell) -> bool
    ensures { result ≡ part_holds columns.now parts.now place cell.now }
{
    if place < parts.len() {
        let part = parts[place];
        if part.column < columns.len() {
            return can_hold(&columns[part.column], cell);
        }
    }
    false
}

// Whether each cell is one of the column of its part.
fn hold_key(columns: &[Column], parts: &[Part], cells: &[Cell]) -> bool
    ensures { result ≡ hold_key columns.now parts.now cells.now }
{
    for place in 0..cells.len() {
        if !part_holds(columns, parts, place, &cells[place]) {
            return false;
        }
    }
    true
}

// Whether the cells search the index: some leading parts of its key, and all where it is hashed.
fn is_key(columns: &[Column], index: &IndexSpec, cells: &[Cell]) -> bool
    ensures { result ≡ is_key columns.now index.now cells.now }
{
    let parts = parts_of(index);
    1 <= cells.len()
        && (index.kind != Kind::Hashed || cells.len() == parts.len())
        && hold_key(columns, parts, cells)
}

// The search key that the cells are at an index.
#[tactic(auto, unfolding(crate::specs::Cells::key_spelled))]
fn key_of(
    alloc: Global,
    columns: &[Column],
    index: &IndexSpec,
    cells: &[RowCell],
    texts: &[u8],
) -> Result<Option<Probe>, AllocError>
    ensures key { IfOk result (λ key. key ≡ key_spelled columns.now index.now cells.now texts.now) }
    ensures searches { IfOk result (λ key. IfSome key (λ key. is_key columns.now index.now key ≡ true)) }
{
    let Some(key) = read_cells(alloc, cells, texts)? else {
        return Ok(None);
    };
    if is_key(columns, index, &key) {
        Ok(Some(Probe::new(key)))
    } else {
        Ok(None)
    }
}

/// The search key that the cells are at the index of a number, or the status of why there is none.
pub(crate) fn key_there(
    alloc: Global,
    records: &Records,
    search: Search,
    index: usize,
    cells: &[RowCell],
    texts: &[u8],
) -> Result<Probe, u8>
    ensures key { (result ≡ key_there records.now search index cells.now texts.now) ⊎ (result ≡ Err MEMORY) }
    ensures searches { IfOk result (IsKeyAt records.now.shape index) }
{
    let indices = records.spec().indices();
    if index >= indices.len() {
        return Err(KIND);
    }
    let declared = &indices[index];
    if !search.takes(declared.kind) {
        return Err(KIND);
    }
    match key_of(alloc, records.spec().columns(), declared, cells, texts) {
        Ok(Some(key)) => Ok(key),
        Ok(None) => Err(SEARCH),
        Err(_) => Err(MEMORY),
    }
}

// What a search finds.
fn search_found(
    records: &Records,
    search: Search,
    index: usize,
    key: &Probe,
) -> Result<Option<Handle>, Why>
    requires { IsKeyAt records.now.shape index key.now }
    ensures { result ≡ search_found records.now search index key.now }
{
    let container = records.container();
    match search {
        Search::Find => container.find(index, key),
        Search::Lower => container.lower(index, key),
        Search::Upper => container.upper(index, key),
    }
}

/// Finds a record by the key that the cells are at the index of a number.
pub(crate) fn search_step(
    alloc: Global,
    records: &Records,
    search: Search,
    index: usize,
    cells: &[RowCell],
    texts: &[u8],
) -> Told
    ensures { (result ≡ search_step records.now search index cells.now texts.now) ⊎ (result ≡ status_told MEMORY) }
{
    match key_there(alloc, records, search, index, cells, texts) {
        Ok(key) => Told::found(search_found(records, search, index, &key)),
        Err(status) => Told::status(status),
    }
}
