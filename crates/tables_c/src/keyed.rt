//! All records of a key.

ghost use Rattle.std.specs.Prelude.{◌≡◌, ◌⊎◌};
ghost use Rattle.table_terms.specs.Words.{IsKeyAt};
ghost use Rattle.tables_c.specs.Rows.{DoesCounted, count_found, count_step, erase_found, erase_key_step};
ghost use Rattle.tables_c.specs.declared.status.TheConstants.{MEMORY};

use crate::cells::RowCell;
use crate::search::{Search, key_there};
use crate::walk::number_told;
use key_extract::Probe;
use std::alloc::Global;
use table_records::Records;

// Tells how many records have a key.
fn count_found(records: &Records, index: usize, key: &Probe) -> (u8, u64)
    requires { IsKeyAt records.now.shape index key.now }
    ensures { result ≡ count_found records.now index key.now }
{
    number_told(records.container().count(index, key))
}

/// Tells how many records have the key that the cells are at the index of a number.
pub(crate) fn count_step(
    alloc: Global,
    records: &Records,
    index: usize,
    cells: &[RowCell],
    texts: &[u8],
) -> (u8, u64)
    ensures { (result ≡ count_step records.now index cells.now texts.now) ⊎ (result ≡ (MEMORY, 0)) }
{
    match key_there(alloc, records, Search::Find, index, cells, texts) {
        Ok(key) => count_found(records, index, &key),
        Err(status) => (status, 0),
    }
}

// Takes the records of a key out.
fn erase_found(records: &mut Records, index: usize, key: &Probe) -> (u8, u64)
    requires { IsKeyAt records.old.shape index key.now }
    ensures { (result, records.new) ≡ erase_found records.old index key.now }
{
    number_told(records.erase_key(index, key))
}

/// Takes the records out that have the key that the cells are at the index of a number, and tells how many they were.
pub(crate) fn erase_key_step(
    alloc: Global,
    records: &mut Records,
    index: usize,
    cells: &[RowCell],
    texts: &[u8],
) -> (u8, u64)
    ensures { DoesCounted records.old (erase_key_step records.old index cells.now texts.now) result records.new }
{
    match key_there(alloc, records, Search::Find, index, cells, texts) {
        Ok(key) => erase_found(records, index, &key),
        Err(status) => (status, 0),
    }
}
