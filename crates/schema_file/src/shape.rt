//! Reads the tree of a schema file as the tables that it is to have.
ghost use Rattle.std.specs.Prelude.{◌≡◌, IfOk, [], ◌∷◌, map, codes, bytes_eq, option_map, option_and_then, Option, Some, None, pos, false};
ghost use Rattle.std.specs.List.{list_any};
ghost use Rattle.toml.specs.Data.{Data, get_member, as_str, as_integer, as_bool};
ghost use Rattle.toml.specs.View.{view, table_view};
ghost use Rattle.schema_file.specs.Tree.{has_only, table_with, each_of, text_at, cell_of, kind_at, column_of, max_of, truth_at, key_of, index_of, table_of, drafts_of};

use std::alloc::{AllocError, Global};
use table_schema::{CellKind, Column, DraftIndex, DraftTable, Kind, Text, kind_of};
use toml::{Table, Value};

// The tables of a document; none where it has another shape.
#[tactic(auto, unfolding(crate::specs::Tree::drafts_of))]
pub(crate) fn drafts_of(
    alloc: Global,
    document: &Table,
) -> Result<Option<Vec<DraftTable>>, AllocError>
    ensures { IfOk result (λ drafts. option_map (λ v. v.items) drafts ≡ drafts_of (table_view document.now)) }
{
    if has_only(document, &["table"]) {
        items_at(alloc, document, "table")
    } else {
        Ok(None)
    }
}

// What an item of an array can be read as.
trait Item: Drop {
    ghost read_of: { Data → Option Self };

    // None where the item has another shape.
    fn read(alloc: Global, value: &Value) -> Result<Option<Self>, AllocError>
        ensures { IfOk result (λ item. item ≡ read_of (view value.now)) };
}

// The items of the array at a key.
fn items_at<T: Item>(
    alloc: Global,
    members: &Table,
    key: &str,
) -> Result<Option<Vec<T>>, AllocError>
    ensures { IfOk result (λ items. option_map (λ v. v.items) items ≡ option_and_then (each_of T.read_of) (get_member key.now (table_view members.now))) }
{
    match value_at(members, key) {
        Some(value) => items(alloc, value),
        None => Ok(None),
    }
}

// The items of an array, each of which can be read.
#[tactic(auto, using(crate::proofs::Trees::reads))]
fn items<T: Item>(alloc: Global, value: &Value) -> Result<Option<Vec<T>>, AllocError>
    ensures { IfOk result (λ items. option_map (λ v. v.items) items ≡ each_of T.read_of (view value.now)) }
{
    let Value::Array(values) = value else {
        return Ok(None);
    };
    let mut items = Vec::with_capacity(alloc, values.len())?;
    for value in values {
        let Some(item) = T::read(alloc, value)? else {
            return Ok(None);
        };
        items.push(item)?;
    }
    Ok(Some(items))
}

impl Item for DraftTable {
    ghost read_of = { table_of };

    #[tactic(auto, unfolding(crate::specs::Tree::table_of))]
    fn read(alloc: Global, value: &Value) -> Result<Option<DraftTable>, AllocError> {
        let Some(members) = table_with(value, &["name", "max", "column", "index"]) else {
            return Ok(None);
        };
        let Some(name) = text_at(members, "name") else {
            return Ok(None);
        };
        let Some(max) = max_of(members) else {
            return Ok(None);
        };
        let Some(columns) = items_at(alloc, members, "column")? else {
            return Ok(None);
        };
        let Some(indices) = items_at(alloc, members, "index")? else {
            return Ok(None);
        };
        Ok(Some(DraftTable {
            name: Text::copy_of(alloc, name)?,
            max,
            columns,
            indices,
        }))
    }
}

impl Item for Column {
    ghost read_of = { column_of };

    #[tactic(auto, unfolding(crate::specs::Tree::column_of))]
    fn read(alloc: Global, value: &Value) -> Result<Option<Column>, AllocError> {
        let Some(members) = table_with(value, &["name", "cell", "null"]) else {
            return Ok(None);
        };
        let Some(name) = text_at(members, "name") else {
            return Ok(None);
        };
        let Some(cell) = text_at(members, "cell").and_then(cell_of) else {
            return Ok(None);
        };
        let Some(null) = truth_at(members, "null") else {
            return Ok(None);
        };
        Ok(Some(Column {
            name: Text::copy_of(alloc, name)?,
            cell,
            null,
        }))
    }
}

impl Item for DraftIndex {
    ghost read_of = { index_of };

    #[tactic(auto, unfolding(crate::specs::Tree::index_of))]
    fn read(alloc: Global, value: &Value) -> Result<Option<DraftIndex>, AllocError> {
        let Some(members) = table_with(value, &["name", "kind", "unique", "key"]) else {
            return Ok(None);
        };
        let Some(name) = text_at(members, "name") else {
            return Ok(None);
        };
        let Some(kind) = kind_at(members) else {
            return Ok(None);
        };
        let Some(unique) = truth_at(members, "unique") else {
            return Ok(None);
        };
        let Some(key) = key_of(alloc, members)? else {
            return Ok(None);
        };
        Ok(Some(DraftIndex {
            name: Text::copy_of(alloc, name)?,
            kind,
            unique,
            key,
        }))
    }
}

impl Item for Text {
    ghost read_of = { as_str };

    fn read(alloc: Global, value: &Value) -> Result<Option<Text>, AllocError> {
        match value.as_str() {
            Some(text) => Ok(Some(Text::copy_of(alloc, text)?)),
            None => Ok(None),
        }
    }
}

// The greatest number of records.
fn max_of(members: &Table) -> Option<i64>
    ensures { result ≡ max_of (table_view members.now) }
{
    match value_at(members, "max") {
        Some(value) => value.as_integer(),
        None => Some(4294967295),
    }
}

// The truth value at a key; false where the key is missing.
fn truth_at(members: &Table, key: &str) -> Option<bool>
    ensures { result ≡ truth_at key.now (table_view members.now) }
{
    match value_at(members, key) {
        Some(value) => value.as_bool(),
        None => Some(false),
    }
}

fn key_of(alloc: Global, members: &Table) -> Result<Option<Option<Vec<Text>>>, AllocError>
    ensures { IfOk result (λ key. option_map (λ texts. option_map (λ v. v.items) texts) key ≡ key_of (table_view members.now)) }
{
    match value_at(members, "key") {
        Some(value) => Ok(items(alloc, value)?.map(Some)),
        None => Ok(Some(None)),
    }
}

fn cell_of(text: &str) -> Option<CellKind>
    ensures { result ≡ cell_of text.now }
{
    if text == "int" {
        Some(CellKind::Int)
    } else if text == "text" {
        Some(CellKind::Text)
    } else if text == "bool" {
        Some(CellKind::Bool)
    } else {
        None
    }
}

fn kind_at(members: &Table) -> Option<Kind>
    ensures { result ≡ kind_at (table_view members.now) }
{
    match text_at(members, "kind") {
        Some(text) => kind_of(text),
        None => None,
    }
}

// The members of a table that has no other keys.
fn table_with<'a>(value: &'a Value, keys: &[&str]) -> Option<&'a Table>
    ensures { option_map (λ m. table_view m.now) result ≡ table_with (map (λ k. k.now) keys.now) (view value.now) }
{
    match value {
        Value::Table(members) if has_only(members, keys) => Some(members),
        _ => None,
    }
}

fn has_only(members: &Table, keys: &[&str]) -> bool
    ensures { result ≡ has_only (map (λ k. k.now) keys.now) (table_view members.now) }
{
    for (key, _value) in members {
        if !is_among(key.as_str(), keys) {
            return false;
        }
    }
    true
}

#[tactic(auto, using(table_schema::proofs::Readings::list_any_map))]
fn is_among(key: &str, keys: &[&str]) -> bool
    ensures { result ≡ list_any (λ k. bytes_eq k key.now) (map (λ k. k.now) keys.now) }
{
    keys.contains(&key)
}

fn text_at<'a>(members: &'a Table, key: &str) -> Option<&'a str>
    ensures { option_map (λ s. s.now) result ≡ text_at key.now (table_view members.now) }
{
    match value_at(members, key) {
        Some(value) => value.as_str(),
        None => None,
    }
}

#[tactic(auto, using(toml::proofs::Views::table_get))]
fn value_at<'a>(members: &'a Table, key: &str) -> Option<&'a Value>
    ensures { option_map (λ v. view v.now) result ≡ get_member key.now (table_view members.now) }
{
    members.get(key)
}
