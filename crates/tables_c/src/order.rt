//! The order of a sequence changed.

ghost use Rattle.std.specs.Prelude.{◌≡◌, ◌<◌, ◌≤◌, IsTrue, length, map};
ghost use Rattle.container_model.specs.State.{is_sequence_kind};
ghost use Rattle.table_schema.specs.Draft.{all_of};
ghost use Rattle.tables_c.specs.Rows.{Does, is_sequenced, key_of_parts, move_step, moved_row, part_of, sort_step, sorted_rows};

use crate::status::{KIND, OK, SEARCH};
use crate::told::Told;
use arrayvec::ArrayVec;
use container_model::{Handle, Kind};
use key_extract::{KeySpec, Part, RowSort};
use table_records::Records;
use table_schema::Column;

/// A column of an order, from its least cell up, or from its greatest down.
#[repr(C)]
#[derive(Clone, Copy)]
pub struct RowPart {
    pub column: usize,
    pub falls: bool,
}

// Whether the order of an index of the kind may be changed.
fn is_sequence(kind: Kind) -> bool
    ensures { result ≡ is_sequence_kind kind }
{
    match kind {
        Kind::Sequenced | Kind::Random => true,
        Kind::Ordered | Kind::Ranked | Kind::Hashed => false,
    }
}

// Whether there is an index of the number whose order may be changed.
fn is_sequenced(records: &Records, index: usize) -> bool
    ensures is { result ≡ is_sequenced records.now index }
    ensures within { IsTrue result → index < length records.now.shape.indices }
{
    let indices = records.spec().indices();
    index < indices.len() && is_sequence(indices[index].kind)
}

fn moved_row(records: &mut Records, index: usize, place: u64, handle: Handle) -> Told
    requires { index < length records.old.shape.indices }
    ensures { (result, records.new) ≡ moved_row records.old index place handle }
{
    match records.relocate(index, place, handle) {
        Ok(()) => Told::status(OK),
        Err(why) => Told::refusal(why),
    }
}

/// Moves a record before a place of the index of a number.
pub(crate) fn move_step(records: &mut Records, index: usize, place: u64, handle: Handle) -> Told
    ensures { (result, records.new) ≡ move_step records.old index place handle }
{
    if is_sequenced(records, index) {
        moved_row(records, index, place, handle)
    } else {
        Told::status(KIND)
    }
}

// The part of a key, where there is such a column.
fn part_of(columns: &[Column], part: RowPart) -> Option<Part>
    ensures { result ≡ part_of columns.now part }
{
    if part.column < columns.len() {
        Some(Part {
            column: part.column,
            falling: part.falls,
        })
    } else {
        None
    }
}

// The key of one to four parts, where there are such columns.
#[tactic(auto, using(table_schema::proofs::Readings::reads))]
fn key_of_some(columns: &[Column], parts: &[RowPart]) -> Option<KeySpec>
    requires some { 1 ≤ length parts.now }
    requires few { length parts.now ≤ 4 }
    ensures { result ≡ all_of (map (part_of columns.now) parts.now) }
{
    let mut key = ArrayVec::new();
    for part in parts {
        key.push(part_of(columns, *part)?);
    }
    Some(KeySpec::new(key))
}

// The key of the parts, where they are one.
fn key_of_parts(columns: &[Column], parts: &[RowPart]) -> Option<KeySpec>
    ensures { result ≡ key_of_parts columns.now parts.now }
{
    if 1 <= parts.len() && parts.len() <= 4 {
        key_of_some(columns, parts)
    } else {
        None
    }
}

fn sorted_rows(records: &mut Records, index: usize, key: KeySpec) -> Told
    requires { index < length records.old.shape.indices }
    ensures { Does records.old (sorted_rows records.old index key) result records.new }
{
    match records.sort(index, &RowSort::new(key)) {
        Ok(()) => Told::status(OK),
        Err(why) => Told::refusal(why),
    }
}

/// Puts the records of the index of a number into the order of columns; those that are equal by it stay as they stand.
pub(crate) fn sort_step(records: &mut Records, index: usize, parts: &[RowPart]) -> Told
    ensures { Does records.old (sort_step records.old index parts.now) result records.new }
{
    if !is_sequenced(records, index) {
        return Told::status(KIND);
    }
    match key_of_parts(records.spec().columns(), parts) {
        Some(key) => sorted_rows(records, index, key),
        None => Told::status(SEARCH),
    }
}
