//! Finds the columns that the keys of a schema file name.
ghost use Rattle.std.specs.Prelude.{◌≡◌, ℕ, List, ◌≤◌, ◌<◌, ◌==◌, nat_lt, not, true, IfOk, IsTrue, length, map, option_map, position, bytes_eq, unsigned_abs};
ghost use Rattle.std.specs.List.{list_all, list_any};
ghost use Rattle.std.specs.Option.{option_map_or};
ghost use Rattle.table_schema.specs.Draft.{all_of};
ghost use Rattle.table_schema.specs.Resolved.{part_at, part_of, parts_of, index_for, table_for, tables_for};
ghost use Rattle.table_schema.specs.Tests.{index_is_within_limits, max_is_within_limits, table_is_within_limits, is_within_limits, has_good_names, have_good_names};
ghost use Rattle.table_schema.specs.Valid.{is_within, is_name, is_key, names_columns, has_good_key, are_distinct};

use crate::column::{Column, IndexSpec};
use crate::draft::{DraftIndex, DraftTable};
use crate::limits::{MOST_PARTS, is_within};
use crate::table::{TableSpec, copy_columns};
use arrayvec::ArrayVec;
use container_model::Kind;
use key_extract::{KeySpec, Part, Text};
use std::alloc::{AllocError, Global};

// The tables with their keys resolved; none where a key is not good.
#[tactic(auto, using(crate::proofs::Placed::stands))]
pub(crate) fn tables(
    alloc: Global,
    drafts: &[DraftTable],
) -> Result<Option<Vec<TableSpec>>, AllocError>
    requires limits { IsTrue (is_within_limits drafts.now) }
    requires names { IsTrue (have_good_names drafts.now) }
    ensures { IfOk result (λ tables. option_map (λ v. v.items) tables ≡ tables_for drafts.now) }
{
    let mut tables = Vec::with_capacity(alloc, drafts.len())?;
    for (place, draft) in drafts.iter().enumerate() {
        let Some(table) = table(alloc, draft, place, drafts.len())? else {
            return Ok(None);
        };
        tables.push(table)?;
    }
    Ok(Some(tables))
}

#[tactic(auto, unfolding(crate::specs::Resolved::table_for))]
fn table(
    alloc: Global,
    draft: &DraftTable,
    place: usize,
    tables: usize,
) -> Result<Option<TableSpec>, AllocError>
    requires limits { IsTrue (table_is_within_limits draft.now) }
    requires names { IsTrue (has_good_names draft.now) }
    requires name { IsTrue (is_name draft.now.name) }
    requires place { place < tables }
    requires tables { tables ≤ 16 }
    ensures { IfOk result (λ table. table ≡ table_for tables place draft.now) }
{
    let Some(indices) = indices(alloc, &draft.columns, &draft.indices)? else {
        return Ok(None);
    };
    let name = draft.name.copy()?;
    let max = most_records(draft.max);
    let columns = copy_columns(alloc, &draft.columns)?;
    Ok(Some(TableSpec::new(name, max, columns, indices, place, tables)))
}

fn most_records(max: i64) -> u32
    requires { IsTrue (max_is_within_limits max) }
    ensures { result ≡ unsigned_abs max }
{
    max.unsigned_abs() as u32
}

#[tactic(auto, using(crate::proofs::Readings::reads))]
fn indices(
    alloc: Global,
    columns: &[Column],
    drafts: &[DraftIndex],
) -> Result<Option<Vec<IndexSpec>>, AllocError>
    requires { IsTrue (list_all index_is_within_limits drafts.now) }
    ensures { IfOk result (λ indices. option_map (λ v. v.items) indices ≡ all_of (map (index_for columns.now) drafts.now)) }
{
    let mut indices = Vec::with_capacity(alloc, drafts.len())?;
    for draft in drafts {
        let Some(index) = index(alloc, columns, draft)? else {
            return Ok(None);
        };
        indices.push(index)?;
    }
    Ok(Some(indices))
}

#[tactic(auto, unfolding(crate::specs::Resolved::index_for))]
fn index(
    alloc: Global,
    columns: &[Column],
    draft: &DraftIndex,
) -> Result<Option<IndexSpec>, AllocError>
    requires { IsTrue (index_is_within_limits draft.now) }
    ensures { IfOk result (λ index. index ≡ index_for columns.now draft.now) }
{
    let Some(key) = resolved_key(columns, &draft.key) else {
        return Ok(None);
    };
    let index = IndexSpec {
        name: draft.name.copy()?,
        kind: draft.kind,
        unique: draft.unique,
        key,
    };
    if has_good_key(columns.len(), &index) {
        Ok(Some(index))
    } else {
        Ok(None)
    }
}

fn resolved_key(columns: &[Column], key: &Option<Vec<Text>>) -> Option<Option<KeySpec>>
    requires { IsTrue (option_map_or (λ texts. is_within 1 4 (length texts.items)) key.now true) }
    ensures { result ≡ parts_of columns.now (option_map (λ texts. texts.items) key.now) }
{
    match key {
        Some(texts) => key_of_texts(columns, texts).map(Some),
        None => Some(None),
    }
}

/// The key whose parts the texts name: a column each, falling where a `-` stands before it. None where a text names no
/// column. O(texts · columns).
#[tactic(auto, using(crate::proofs::Readings::reads))]
pub fn key_of_texts(columns: &[Column], texts: &[Text]) -> Option<KeySpec>
    requires some { 1 ≤ length texts.now }
    requires few { length texts.now ≤ 4 }
    ensures { result ≡ all_of (map (part_of columns.now) texts.now) }
{
    let mut parts = ArrayVec::new();
    for text in texts {
        parts.push(part(columns, text.as_str())?);
    }
    Some(KeySpec::new(parts))
}

fn part(columns: &[Column], text: &str) -> Option<Part>
    ensures { result ≡ part_of columns.now text.now }
{
    match text.as_bytes() {
        [b'-', name @ ..] => part_at(columns, true, name),
        name => part_at(columns, false, name),
    }
}

fn part_at(columns: &[Column], falling: bool, name: &[u8]) -> Option<Part>
    ensures { result ≡ part_at columns.now falling name.now }
{
    match place_of(columns, name) {
        Some(column) => Some(Part { column, falling }),
        None => None,
    }
}

fn place_of(columns: &[Column], name: &[u8]) -> Option<usize>
    ensures { result ≡ position (λ column. bytes_eq column.name name.now) columns.now }
{
    columns
        .iter()
        .position(|column| column.name.as_str().as_bytes() == name)
}

fn has_good_key(columns: usize, index: &IndexSpec) -> bool
    ensures { result ≡ has_good_key columns index.now }
{
    is_good_key(columns, index.kind, index.unique, &index.key)
}

// Whether an index of the kind, unique or not, may have the key.
pub(crate) fn is_good_key(columns: usize, kind: Kind, unique: bool, key: &Option<KeySpec>) -> bool
    ensures { (name : List ℕ) → result ≡ has_good_key columns (record { name = name; kind = kind; unique = unique; key = key.now }) }
{
    match kind {
        Kind::Ordered | Kind::Ranked | Kind::Hashed => match key {
            Some(key) => is_key(columns, kind, key.parts()),
            None => false,
        },
        Kind::Sequenced | Kind::Random => key.is_none() && !unique,
    }
}

fn is_key(columns: usize, kind: Kind, parts: &[Part]) -> bool
    ensures { result ≡ is_key columns kind parts.now }
{
    is_within(1, MOST_PARTS, parts.len())
        && names_columns(columns, parts)
        && (kind != Kind::Hashed || none_falls(parts))
}

fn names_columns(columns: usize, parts: &[Part]) -> bool
    ensures { result ≡ names_columns columns parts.now }
{
    each_is_below(columns, parts) && are_distinct(parts)
}

fn each_is_below(columns: usize, parts: &[Part]) -> bool
    ensures { result ≡ list_all (λ part. nat_lt part.column columns) parts.now }
{
    parts.iter().all(|part| part.column < columns)
}

fn none_falls(parts: &[Part]) -> bool
    ensures { result ≡ list_all (λ part. not part.falling) parts.now }
{
    parts.iter().all(|part| !part.falling)
}

fn are_distinct(parts: &[Part]) -> bool
    ensures { result ≡ are_distinct (λ a b. a.column == b.column) parts.now }
{
    let mut rest = parts;
    while let [first, later @ ..] = rest {
        if has_column(first.column, later) {
            return false;
        }
        rest = later;
    }
    true
}

fn has_column(column: usize, parts: &[Part]) -> bool
    ensures { result ≡ list_any (λ part. column == part.column) parts.now }
{
    parts.iter().any(|part| column == part.column)
}
