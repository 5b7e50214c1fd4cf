//! Tests the names of a schema file.
ghost use Rattle.std.specs.Prelude.{◌≡◌, ℕ, List, map, bytes_eq};
ghost use Rattle.std.specs.List.{list_all, list_any};
ghost use Rattle.table_schema.specs.Tests.{has_good_names, have_good_names};
ghost use Rattle.table_schema.specs.Defined.{is_new_name};
ghost use Rattle.table_schema.specs.Valid.{is_name_byte, is_name, are_names, are_distinct};

use crate::column::{Column, IndexSpec};
use crate::draft::{DraftIndex, DraftTable};
use crate::limits::is_within;

const LONGEST_NAME: usize = 32;

// What has a name.
trait Named {
    ghost name_of: { Self → List ℕ };

    fn name(&self) -> &str
        ensures { result.now ≡ name_of self.now };
}

impl Named for Column {
    ghost name_of = { λ column. column.name };

    fn name(&self) -> &str {
        self.name.as_str()
    }
}

impl Named for DraftIndex {
    ghost name_of = { λ index. index.name };

    fn name(&self) -> &str {
        self.name.as_str()
    }
}

impl Named for IndexSpec {
    ghost name_of = { λ index. index.name };

    fn name(&self) -> &str {
        self.name.as_str()
    }
}

impl Named for DraftTable {
    ghost name_of = { λ table. table.name };

    fn name(&self) -> &str {
        self.name.as_str()
    }
}

#[tactic(auto, unfolding(crate::specs::Tests::have_good_names))]
pub(crate) fn have_good_names(tables: &[DraftTable]) -> bool
    ensures { result ≡ have_good_names tables.now }
{
    are_names(tables) && each_has_good_names(tables)
}

fn each_has_good_names(tables: &[DraftTable]) -> bool
    ensures { result ≡ list_all has_good_names tables.now }
{
    tables.iter().all(|table| has_good_names(table))
}

#[tactic(auto, unfolding(crate::specs::Tests::has_good_names))]
fn has_good_names(table: &DraftTable) -> bool
    ensures { result ≡ has_good_names table.now }
{
    are_names(&table.columns) && are_names(&table.indices)
}

fn are_names<T: Named>(items: &[T]) -> bool
    ensures { result ≡ are_names (map T.name_of items.now) }
{
    each_is_name(items) && are_distinct(items)
}

fn each_is_name<T: Named>(items: &[T]) -> bool
    ensures { result ≡ list_all is_name (map T.name_of items.now) }
{
    items.iter().all(|item| is_name(item.name()))
}

// Whether no name stands twice; compares each with each later one.
fn are_distinct<T: Named>(items: &[T]) -> bool
    ensures { result ≡ are_distinct bytes_eq (map T.name_of items.now) }
{
    let mut rest = items;
    while let [first, later @ ..] = rest {
        if has_name(first.name(), later) {
            return false;
        }
        rest = later;
    }
    true
}

fn has_name<T: Named>(name: &str, items: &[T]) -> bool
    ensures { result ≡ list_any (bytes_eq name.now) (map T.name_of items.now) }
{
    items.iter().any(|item| name == item.name())
}

// Whether a name is one that none of the indices has.
pub(crate) fn is_new_name(name: &str, indices: &[IndexSpec]) -> bool
    ensures { result ≡ is_new_name indices.now name.now }
{
    is_name(name) && !has_name(name, indices)
}

fn is_name(name: &str) -> bool
    ensures { result ≡ is_name name.now }
{
    is_within(1, LONGEST_NAME, name.len()) && are_name_bytes(name.as_bytes())
}

fn are_name_bytes(bytes: &[u8]) -> bool
    ensures { result ≡ list_all is_name_byte bytes.now }
{
    bytes.iter().all(|byte| is_name_byte(*byte))
}

fn is_name_byte(byte: u8) -> bool
    ensures { result ≡ is_name_byte byte }
{
    byte.is_ascii_alphanumeric() || byte == b'_'
}
