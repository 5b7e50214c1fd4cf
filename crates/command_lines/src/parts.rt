//! Reads the parts of a command from its JSON object.

ghost use Rattle.std.specs.Prelude.{◌≡◌, IfOk, Some, option_map, codes};
ghost use Rattle.serde_json.specs.Find.{get, as_str};
ghost use Rattle.serde_json.specs.View.{view, items_view, members_view};
ghost use Rattle.command_lines.specs.Parts.{Gives, value_of, values_of, fields_of, text_at, as_key, as_fields, key_at, row_at, handle_at, end_at, count_at, each_read, as_handle, handles_at, names_at, as_names, names_if_given, kind_at, text_if_given, position_at, changes_at, truth_at, bound_at, or_fault};

use crate::fault::CommandFault;
use crate::handle::handle_said;
use key_extract::{Cell, Text};
use serde_json::{Map, Value as Json};
use std::alloc::{AllocError, Global};
use table_cmd::{
    Changes, Field, Fields, HandleText, Handles, Key, KeyBound, Kind, Names, Position, Value,
};
use table_schema::kind_of;

fn value_of(alloc: Global, json: &Json) -> Result<Value, AllocError>
    ensures { IfOk result (λ value. value ≡ value_of (view json.now)) }
{
    match json {
        Json::Null => Ok(Value::Cell(Cell::Null)),
        Json::Bool(truth) => Ok(Value::Cell(Cell::Bool(*truth))),
        Json::Number(number) => Ok(match number.as_i64() {
            Some(number) => Value::Cell(Cell::Int(number)),
            None => Value::Other,
        }),
        Json::String(text) => Ok(Value::Cell(Cell::Text(Text::copy_of(alloc, text.as_str())?))),
        Json::Array(_) | Json::Object(_) => Ok(Value::Other),
    }
}

fn values_of(alloc: Global, values: &Vec<Json>) -> Result<Key, AllocError>
    ensures { IfOk result (λ key. key ≡ values_of (items_view values.now.items)) }
{
    let mut key = Vec::with_capacity(alloc, values.len())?;
    for value in values {
        key.push(value_of(alloc, value)?)?;
    }
    Ok(Key::new(key))
}

fn fields_of(alloc: Global, members: &Map<String, Json>) -> Result<Fields, AllocError>
    ensures { IfOk result (λ row. row ≡ fields_of (members_view members.now.entries)) }
{
    let mut row = Vec::with_capacity(alloc, members.len())?;
    for (name, value) in members {
        row.push(Field {
            name: Text::copy_of(alloc, name.as_str())?,
            value: value_of(alloc, value)?,
        })?;
    }
    Ok(Fields::new(row))
}

// The text under a name.
pub(crate) fn text_at<'a>(value: &'a Json, name: &str) -> Option<&'a str>
    ensures { option_map (λ s. s.now) result ≡ text_at name.now (view value.now) }
{
    value.get(name).and_then(Json::as_str)
}

// The text under a name, where a command needs one.
pub(crate) fn text_of(alloc: Global, value: &Json, name: &str) -> Result<Text, CommandFault>
    ensures { Gives result (or_fault (text_at name.now (view value.now))) }
{
    match text_at(value, name) {
        Some(text) => Ok(Text::copy_of(alloc, text)?),
        None => Err(CommandFault::Command),
    }
}

fn key_from(alloc: Global, key: &Json) -> Result<Key, CommandFault>
    ensures { Gives result (or_fault (as_key (view key.now))) }
{
    match key.as_array() {
        Some(values) => Ok(values_of(alloc, values)?),
        None => Err(CommandFault::Command),
    }
}

pub(crate) fn key_of(alloc: Global, value: &Json) -> Result<Key, CommandFault>
    ensures { Gives result (or_fault (key_at (view value.now))) }
{
    match value.get("k") {
        Some(key) => key_from(alloc, key),
        None => Err(CommandFault::Command),
    }
}

fn fields_from(alloc: Global, fields: &Json) -> Result<Fields, CommandFault>
    ensures { Gives result (or_fault (as_fields (view fields.now))) }
{
    match fields.as_object() {
        Some(members) => Ok(fields_of(alloc, members)?),
        None => Err(CommandFault::Command),
    }
}

pub(crate) fn row_of(alloc: Global, value: &Json) -> Result<Fields, CommandFault>
    ensures { Gives result (or_fault (row_at (view value.now))) }
{
    match value.get("r") {
        Some(row) => fields_from(alloc, row),
        None => Err(CommandFault::Command),
    }
}

pub(crate) fn handle_of(value: &Json) -> Result<HandleText, CommandFault>
    ensures { Gives result (or_fault (handle_at (view value.now))) }
{
    match text_at(value, "h") {
        Some(text) => Ok(handle_said(text)),
        None => Err(CommandFault::Command),
    }
}

// A handle, or null for the end.
pub(crate) fn end_of(value: &Json) -> Result<Option<HandleText>, CommandFault>
    ensures { Gives result (or_fault (end_at (view value.now))) }
{
    match value.get("h") {
        Some(Json::Null) => Ok(None),
        Some(Json::String(text)) => Ok(Some(handle_said(text.as_str()))),
        _ => Err(CommandFault::Command),
    }
}

// The handles that texts say, in their order.
fn handles_said(alloc: Global, values: &Vec<Json>) -> Result<Handles, CommandFault>
    ensures { Gives result (or_fault (each_read as_handle (items_view values.now.items))) }
{
    let mut handles = Vec::with_capacity(alloc, values.len())?;
    for value in values {
        let Some(text) = value.as_str() else {
            return Err(CommandFault::Command);
        };
        handles.push(handle_said(text))?;
    }
    Ok(Handles::new(handles))
}

pub(crate) fn handles_of(alloc: Global, value: &Json) -> Result<Handles, CommandFault>
    ensures { Gives result (or_fault (handles_at (view value.now))) }
{
    match value.get("hs").and_then(Json::as_array) {
        Some(values) => handles_said(alloc, values),
        None => Err(CommandFault::Command),
    }
}

// The names that texts say, in their order.
fn names_said(alloc: Global, values: &Vec<Json>) -> Result<Names, CommandFault>
    ensures { Gives result (or_fault (each_read as_str (items_view values.now.items))) }
{
    let mut names = Vec::with_capacity(alloc, values.len())?;
    for value in values {
        let Some(text) = value.as_str() else {
            return Err(CommandFault::Command);
        };
        names.push(Text::copy_of(alloc, text)?)?;
    }
    Ok(Names::new(names))
}

fn names_from(alloc: Global, names: &Json) -> Result<Names, CommandFault>
    ensures { Gives result (or_fault (as_names (view names.now))) }
{
    match names.as_array() {
        Some(values) => names_said(alloc, values),
        None => Err(CommandFault::Command),
    }
}

pub(crate) fn names_of(alloc: Global, value: &Json) -> Result<Names, CommandFault>
    ensures { Gives result (or_fault (names_at (view value.now))) }
{
    match value.get("by") {
        Some(names) => names_from(alloc, names),
        None => Err(CommandFault::Command),
    }
}

// The names of a key's columns, which the object may leave out.
pub(crate) fn columns_if_given(alloc: Global, value: &Json) -> Result<Option<Names>, CommandFault>
    ensures { Gives result (or_fault (names_if_given (get (codes "key") (view value.now)))) }
{
    match value.get("key") {
        Some(names) => Ok(Some(names_from(alloc, names)?)),
        None => Ok(None),
    }
}

// The kind of a new index.
pub(crate) fn kind_at(value: &Json) -> Result<Kind, CommandFault>
    ensures { Gives result (or_fault (kind_at (view value.now))) }
{
    let Some(text) = text_at(value, "kind") else {
        return Err(CommandFault::Command);
    };
    match kind_of(text) {
        Some(kind) => Ok(kind),
        None => Err(CommandFault::Command),
    }
}

// The whole number under a name, where a command needs one.
pub(crate) fn count_of(value: &Json, name: &str) -> Result<u64, CommandFault>
    ensures { Gives result (or_fault (count_at name.now (view value.now))) }
{
    match value.get(name).and_then(Json::as_u64) {
        Some(count) => Ok(count),
        None => Err(CommandFault::Command),
    }
}

// The name of an index, which the object may leave out.
pub(crate) fn index_if_given(alloc: Global, value: &Json) -> Result<Option<Text>, CommandFault>
    ensures { Gives result (or_fault (text_if_given (get (codes "i") (view value.now)))) }
{
    match value.get("i") {
        Some(_) => Ok(Some(text_of(alloc, value, "i")?)),
        None => Ok(None),
    }
}

// Where an insertion is to go; `Err` where only one of index and place is given, or one is of another type.
pub(crate) fn position_of(alloc: Global, value: &Json) -> Result<Option<Position>, CommandFault>
    ensures { Gives result (or_fault (position_at (get (codes "i") (view value.now)) (get (codes "p") (view value.now)))) }
{
    match (value.get("i"), value.get("p")) {
        (None, None) => Ok(None),
        (Some(index), Some(place)) => position_at(alloc, index, place),
        (None, Some(_)) | (Some(_), None) => Err(CommandFault::Command),
    }
}

fn position_at(alloc: Global, index: &Json, place: &Json) -> Result<Option<Position>, CommandFault>
    ensures { Gives result (or_fault (position_at (Some (view index.now)) (Some (view place.now)))) }
{
    let Some(index) = index.as_str() else {
        return Err(CommandFault::Command);
    };
    let Some(place) = place.as_u64() else {
        return Err(CommandFault::Command);
    };
    Ok(Some(Position {
        index: Text::copy_of(alloc, index)?,
        place,
    }))
}

// What a modification sets and adds; `Err` where neither is given, or one is no object.
pub(crate) fn changes_of(alloc: Global, value: &Json) -> Result<Changes, CommandFault>
    ensures { Gives result (or_fault (changes_at (get (codes "set") (view value.now)) (get (codes "add") (view value.now)))) }
{
    match (value.get("set"), value.get("add")) {
        (None, None) => Err(CommandFault::Command),
        (Some(set), None) => Ok(Changes::Set(fields_from(alloc, set)?)),
        (None, Some(add)) => Ok(Changes::Add(fields_from(alloc, add)?)),
        (Some(set), Some(add)) => Ok(Changes::Both {
            set: fields_from(alloc, set)?,
            add: fields_from(alloc, add)?,
        }),
    }
}

// The truth value under a name, which the object may leave out: then it is false.
pub(crate) fn truth_of(value: &Json, name: &str) -> Result<bool, CommandFault>
    ensures { Gives result (or_fault (truth_at name.now (view value.now))) }
{
    match value.get(name) {
        None => Ok(false),
        Some(Json::Bool(truth)) => Ok(*truth),
        Some(_) => Err(CommandFault::Command),
    }
}

// A range's end on one side, by the name of the bound with its key and that of the one without; `Err` where both are
// given, or one is no array.
pub(crate) fn bound_of(
    alloc: Global,
    value: &Json,
    included: &str,
    excluded: &str,
) -> Result<KeyBound, CommandFault>
    ensures { Gives result (or_fault (bound_at (get included.now (view value.now)) (get excluded.now (view value.now)))) }
{
    match (value.get(included), value.get(excluded)) {
        (None, None) => Ok(KeyBound::Unbounded),
        (Some(included), None) => Ok(KeyBound::Included(key_from(alloc, included)?)),
        (None, Some(excluded)) => Ok(KeyBound::Excluded(key_from(alloc, excluded)?)),
        (Some(_), Some(_)) => Err(CommandFault::Command),
    }
}
