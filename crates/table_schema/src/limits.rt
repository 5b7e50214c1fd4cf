//! Tests whether the numbers of a schema file are within their limits.
ghost use Rattle.std.specs.Prelude.{◌≡◌};
ghost use Rattle.std.specs.List.{list_all};
ghost use Rattle.table_schema.specs.Tests.{index_is_within_limits, max_is_within_limits, table_is_within_limits, is_within_limits};
ghost use Rattle.table_schema.specs.Valid.{is_within};

use crate::draft::{DraftIndex, DraftTable};

const MOST_TABLES: usize = 16;

const MOST_COLUMNS: usize = 16;

pub(crate) const MOST_INDICES: usize = 8;

pub(crate) const MOST_PARTS: usize = 4;

const MOST_RECORDS: i64 = 4294967295;

#[tactic(auto, unfolding(crate::specs::Tests::is_within_limits))]
pub(crate) fn is_within_limits(tables: &[DraftTable]) -> bool
    ensures { result ≡ is_within_limits tables.now }
{
    is_within(1, MOST_TABLES, tables.len()) && tables_are_within_limits(tables)
}

fn tables_are_within_limits(tables: &[DraftTable]) -> bool
    ensures { result ≡ list_all table_is_within_limits tables.now }
{
    tables.iter().all(|table| table_is_within_limits(table))
}

#[tactic(auto, unfolding(crate::specs::Tests::table_is_within_limits))]
fn table_is_within_limits(table: &DraftTable) -> bool
    ensures { result ≡ table_is_within_limits table.now }
{
    max_is_within_limits(table.max)
        && is_within(1, MOST_COLUMNS, table.columns.len())
        && is_within(1, MOST_INDICES, table.indices.len())
        && indices_are_within_limits(&table.indices)
}

fn indices_are_within_limits(indices: &[DraftIndex]) -> bool
    ensures { result ≡ list_all index_is_within_limits indices.now }
{
    indices.iter().all(|index| index_is_within_limits(index))
}

fn max_is_within_limits(max: i64) -> bool
    ensures { result ≡ max_is_within_limits max }
{
    1 <= max && max <= MOST_RECORDS
}

fn index_is_within_limits(index: &DraftIndex) -> bool
    ensures { result ≡ index_is_within_limits index.now }
{
    match &index.key {
        Some(texts) => is_within(1, MOST_PARTS, texts.len()),
        None => true,
    }
}

pub(crate) fn is_within(low: usize, high: usize, number: usize) -> bool
    ensures { result ≡ is_within low high number }
{
    low <= number && number <= high
}
