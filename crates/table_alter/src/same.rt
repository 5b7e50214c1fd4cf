//! What of a declaration stands in another one too.

ghost use Rattle.std.specs.Prelude.{◌≡◌};
ghost use Rattle.table_alter.specs.Same.{are_both, are_same_parts, column_goes as the_column_goes, first_other as the_first_other, index_goes as the_index_goes, is_same_cell, is_same_column as are_same_columns, is_same_index, is_same_key, is_same_kind, is_same_part, name_at, place_after as the_place_after, place_before as the_place_before};

use crate::source::place_of;
use key_extract::{KeySpec, Part};
use table_schema::{CellKind, Column, IndexSpec, Kind, TableSpec};

// Whether both are so, or neither.
fn are_both(a: bool, b: bool) -> bool
    ensures { result ≡ are_both a b }
{
    if a { b } else { !b }
}

fn is_same_kind(a: Kind, b: Kind) -> bool
    ensures { result ≡ is_same_kind a b }
{
    matches!(
        (a, b),
        (Kind::Sequenced, Kind::Sequenced)
            | (Kind::Random, Kind::Random)
            | (Kind::Ordered, Kind::Ordered)
            | (Kind::Ranked, Kind::Ranked)
            | (Kind::Hashed, Kind::Hashed)
    )
}

fn is_same_cell(a: CellKind, b: CellKind) -> bool
    ensures { result ≡ is_same_cell a b }
{
    matches!(
        (a, b),
        (CellKind::Int, CellKind::Int)
            | (CellKind::Text, CellKind::Text)
            | (CellKind::Bool, CellKind::Bool)
    )
}

// The name of a column.
fn name_at(columns: &[Column], place: usize) -> &str
    ensures { result.now ≡ name_at columns.now place }
{
    match columns.get(place) {
        Some(column) => column.name.as_str(),
        None => "",
    }
}

// Whether parts of keys are the same under two declarations.
fn is_same_part(before: &[Column], after: &[Column], a: &Part, b: &Part) -> bool
    ensures { result ≡ is_same_part before.now after.now a.now b.now }
{
    are_both(a.falling, b.falling) && name_at(before, a.column) == name_at(after, b.column)
}

// The place of the first parts that are not the same.
fn first_other(before: &[Column], after: &[Column], a: &[Part], b: &[Part]) -> Option<usize>
    ensures { result ≡ the_first_other before.now after.now a.now b.now }
{
    a.iter()
        .zip(b)
        .position(|(one, other)| !is_same_part(before, after, one, other))
}

fn are_same_parts(before: &[Column], after: &[Column], a: &[Part], b: &[Part]) -> bool
    ensures { result ≡ are_same_parts before.now after.now a.now b.now }
{
    a.len() == b.len() && first_other(before, after, a, b).is_none()
}

fn is_same_key(
    before: &[Column],
    after: &[Column],
    a: &Option<KeySpec>,
    b: &Option<KeySpec>,
) -> bool
    ensures { result ≡ is_same_key before.now after.now a.now b.now }
{
    match (a, b) {
        (Some(a), Some(b)) => are_same_parts(before, after, a.parts(), b.parts()),
        (None, None) => true,
        _ => false,
    }
}

fn is_same_index(before: &[Column], after: &[Column], a: &IndexSpec, b: &IndexSpec) -> bool
    ensures { result ≡ is_same_index before.now after.now a.now b.now }
{
    a.name.as_str() == b.name.as_str()
        && is_same_kind(a.kind, b.kind)
        && are_both(a.unique, b.unique)
        && is_same_key(before, after, &a.key, &b.key)
}

/// The place of an index of a new declaration in the one before, where it has the same name, kind and key, and is as unique. O(indices · parts).
pub fn place_before(before: &TableSpec, after: &TableSpec, index: &IndexSpec) -> Option<usize>
    ensures { result ≡ the_place_before before.now after.now index.now }
{
    let (had, has) = (before.columns(), after.columns());
    before
        .indices()
        .iter()
        .position(|other| is_same_index(had, has, other, index))
}

// The place of an index of the declaration before in the new one.
fn place_after(before: &TableSpec, after: &TableSpec, index: &IndexSpec) -> Option<usize>
    ensures { result ≡ the_place_after before.now after.now index.now }
{
    let (had, has) = (before.columns(), after.columns());
    after
        .indices()
        .iter()
        .position(|other| is_same_index(had, has, index, other))
}

/// Whether an index of the declaration before is not in the new one. O(indices · parts).
pub fn index_goes(before: &TableSpec, after: &TableSpec, index: &IndexSpec) -> bool
    ensures { result ≡ the_index_goes before.now after.now index.now }
{
    place_after(before, after, index).is_none()
}

/// Whether a column of the declaration before is not in the new one. O(columns).
pub fn column_goes(after: &[Column], column: &Column) -> bool
    ensures { result ≡ the_column_goes after.now column.now }
{
    place_of(after, column.name.as_str()).is_none()
}

/// Whether two columns are of one type, both with null or neither. O(1).
pub fn is_same_column(a: &Column, b: &Column) -> bool
    ensures { result ≡ are_same_columns a.now b.now }
{
    is_same_cell(a.cell, b.cell) && are_both(a.null, b.null)
}
