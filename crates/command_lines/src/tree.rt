//! A text as a JSON value, token by token, over memory that may be kept from text to text.

ghost use Rattle.std.specs.Prelude.{◌<◌, ◌≤◌, length, IfOk, IfSome};
ghost use Rattle.json.specs.Json.{items, members, value};
ghost use Rattle.serde_json.specs.Data.{no_members};
ghost use Rattle.serde_json.specs.Read.{of_items, of_json, of_members};
ghost use Rattle.serde_json.specs.View.{items_view, members_view, view};
ghost use Rattle.command_lines.specs.Tree.{IsTreeOf, Reads};

use crate::number::number_of;
use json::{Reader, Scratch, Token};
use serde_json::{Map, Value as Json};
use std::alloc::{AllocError, Global};

/// How deep arrays and objects may nest.
const DEPTH: usize = 127;

/// The value of a line, if it has one: the last of repeated names counts. O(n · log n) for n bytes.
pub(crate) fn tree_of(
    alloc: Global,
    line: &[u8],
    scratch: &mut Scratch,
) -> Result<Option<Json>, AllocError>
    ensures { IfOk result (IsTreeOf line.now) }
{
    let Ok(text) = str::from_utf8(line) else {
        return Ok(None);
    };
    let mut reader = Reader::new(text, scratch)?;
    let found = read_value(alloc, &mut reader, DEPTH)?;
    match reader.next() {
        Some(_) => Ok(None),
        None => Ok(found),
    }
}

// The next value, in which arrays and objects nest no deeper.
#[cycle(value)]
fn read_value(
    alloc: Global,
    reader: &mut Reader<'_>,
    depth: usize,
) -> Result<Option<Json>, AllocError>
    ensures reads { IfOk result (λ found. Reads of_json view (value depth reader.old) found reader.new) }
    ensures shorter { IfOk result (λ found. IfSome found (λ _. length reader.new < length reader.old)) }
{
    match reader.next() {
        Some(Token::Null) => Ok(Some(Json::Null)),
        Some(Token::Bool(truth)) => Ok(Some(Json::Bool(truth))),
        Some(Token::Number(text)) => Ok(number_of(text).map(Json::Number)),
        Some(Token::String(text)) => Ok(Some(Json::String(String::from_str(alloc, text)?))),
        Some(Token::BeginArray) if depth > 0 => {
            Ok(read_items(alloc, reader, depth - 1)?.map(Json::Array))
        }
        Some(Token::BeginObject) if depth > 0 => {
            Ok(read_members(alloc, reader, depth - 1)?.map(Json::Object))
        }
        _ => Ok(None),
    }
}

// The items of an array up to its end.
#[cycle(value)]
fn read_items(
    alloc: Global,
    reader: &mut Reader<'_>,
    depth: usize,
) -> Result<Option<Vec<Json>>, AllocError>
    ensures reads { IfOk result (λ found. Reads of_items (λ list. items_view list.items) (items (value depth) (length reader.old) reader.old) found reader.new) }
    ensures shorter { IfOk result (λ found. IfSome found (λ _. length reader.new ≤ length reader.old)) }
{
    let mut found = Vec::new(alloc);
    'items: while !reader.take_end_array() {
        let Some(item) = read_value(alloc, reader, depth)? else {
            return Ok(None);
        };
        found.push(item)?;
    }
    Ok(Some(found))
}

// The members of an object up to its end.
#[cycle(value)]
fn read_members(
    alloc: Global,
    reader: &mut Reader<'_>,
    depth: usize,
) -> Result<Option<Map<String, Json>>, AllocError>
    ensures reads { IfOk result (λ found. Reads (λ ms. of_members ms no_members) (λ map. members_view map.entries) (members (value depth) (length reader.old) reader.old) found reader.new) }
    ensures shorter { IfOk result (λ found. IfSome found (λ _. length reader.new ≤ length reader.old)) }
{
    let mut found = Map::new(alloc);
    'members: loop {
        let name = match reader.next_key() {
            Ok(Some(name)) => String::from_str(alloc, name)?,
            Ok(None) => return Ok(Some(found)),
            Err(_) => return Ok(None),
        };
        let Some(member) = read_value(alloc, reader, depth)? else {
            return Ok(None);
        };
        drop(found.insert(name, member)?);
    }
}
