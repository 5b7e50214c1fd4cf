//! What a command has under each key of its text, if it has it.

ghost use Rattle.std.specs.Prelude.{◌≡◌, option_map};
ghost use Rattle.command_text.specs.Text.{add_of, added, by_of, excluded, low_included_of, low_excluded_of, handle_of, handles_of, index_of, if_true, included, key_of, columns_of, new_kind_of, high_included_of, high_excluded_of, nth_of, op_name, place_of, row_of, rollback_of, unique_of, changed, set_of, end_data};
ghost use Rattle.command_text.specs.Part.{part_data};

use crate::part::Part;
use table_cmd::{Changes, Command, HandleText, KeyBound};
use table_schema::kind_text;

pub(crate) fn add_of(command: &Command) -> Option<Part<'_>>
    ensures { option_map part_data result ≡ add_of command.now }
{
    match command {
        Command::Modify { changes, .. } => added(changes),
        _ => None,
    }
}

fn added(changes: &Changes) -> Option<Part<'_>>
    ensures { option_map part_data result ≡ added changes.now }
{
    match changes {
        Changes::Add(add) | Changes::Both { add, .. } => Some(Part::Fields(add.as_slice())),
        Changes::Set(_) => None,
    }
}

pub(crate) fn by_of(command: &Command) -> Option<Part<'_>>
    ensures { option_map part_data result ≡ by_of command.now }
{
    match command {
        Command::Sort { by, .. } => Some(Part::Names(by.as_slice())),
        _ => None,
    }
}

fn included(bound: &KeyBound) -> Option<Part<'_>>
    ensures { option_map part_data result ≡ included bound.now }
{
    match bound {
        KeyBound::Included(key) => Some(Part::Key(key.as_slice())),
        KeyBound::Excluded(_) | KeyBound::Unbounded => None,
    }
}

fn excluded(bound: &KeyBound) -> Option<Part<'_>>
    ensures { option_map part_data result ≡ excluded bound.now }
{
    match bound {
        KeyBound::Excluded(key) => Some(Part::Key(key.as_slice())),
        KeyBound::Included(_) | KeyBound::Unbounded => None,
    }
}

pub(crate) fn low_included_of(command: &Command) -> Option<Part<'_>>
    ensures { option_map part_data result ≡ low_included_of command.now }
{
    match command {
        Command::Range { low, .. } => included(low),
        _ => None,
    }
}

pub(crate) fn low_excluded_of(command: &Command) -> Option<Part<'_>>
    ensures { option_map part_data result ≡ low_excluded_of command.now }
{
    match command {
        Command::Range { low, .. } => excluded(low),
        _ => None,
    }
}

fn end_part(position: Option<HandleText>) -> Part<'static>
    ensures { part_data result ≡ end_data position }
{
    match position {
        Some(handle) => Part::Handle(handle),
        None => Part::Null,
    }
}

pub(crate) fn handle_of(command: &Command) -> Option<Part<'_>>
    ensures { option_map part_data result ≡ handle_of command.now }
{
    match command {
        Command::Replace { handle, .. }
        | Command::Modify { handle, .. }
        | Command::ModifyKey { handle, .. }
        | Command::Erase { handle, .. }
        | Command::Move { handle, .. }
        | Command::Get { handle, .. }
        | Command::Place { handle, .. } => Some(Part::Handle(*handle)),
        Command::Rank { position, .. }
        | Command::Next { position, .. }
        | Command::Prev { position, .. } => Some(end_part(*position)),
        _ => None,
    }
}

pub(crate) fn handles_of(command: &Command) -> Option<Part<'_>>
    ensures { option_map part_data result ≡ handles_of command.now }
{
    match command {
        Command::Rearrange { handles, .. } => Some(Part::Handles(handles.as_slice())),
        _ => None,
    }
}

pub(crate) fn index_of(command: &Command) -> Option<Part<'_>>
    ensures { option_map part_data result ≡ index_of command.now }
{
    match command {
        Command::Insert {
            position: Some(position),
            ..
        } => Some(Part::Text(position.index.as_str())),
        Command::Erase {
            index: Some(index),
            ..
        }
        | Command::ModifyKey { index, .. }
        | Command::EraseKey { index, .. }
        | Command::Move { index, .. }
        | Command::Rearrange { index, .. }
        | Command::Reverse { index, .. }
        | Command::Sort { index, .. }
        | Command::AddIndex { index, .. }
        | Command::DropIndex { index, .. }
        | Command::Find { index, .. }
        | Command::Count { index, .. }
        | Command::Lower { index, .. }
        | Command::Upper { index, .. }
        | Command::Range { index, .. }
        | Command::Nth { index, .. }
        | Command::Rank { index, .. }
        | Command::Place { index, .. }
        | Command::FindRank { index, .. }
        | Command::LowerRank { index, .. }
        | Command::UpperRank { index, .. }
        | Command::Next { index, .. }
        | Command::Prev { index, .. }
        | Command::List { index, .. } => Some(Part::Text(index.as_str())),
        _ => None,
    }
}

pub(crate) fn key_of(command: &Command) -> Option<Part<'_>>
    ensures { option_map part_data result ≡ key_of command.now }
{
    match command {
        Command::ModifyKey { key, .. }
        | Command::EraseKey { key, .. }
        | Command::Find { key, .. }
        | Command::Count { key, .. }
        | Command::Lower { key, .. }
        | Command::Upper { key, .. }
        | Command::FindRank { key, .. }
        | Command::LowerRank { key, .. }
        | Command::UpperRank { key, .. } => Some(Part::Key(key.as_slice())),
        _ => None,
    }
}

pub(crate) fn columns_of(command: &Command) -> Option<Part<'_>>
    ensures { option_map part_data result ≡ columns_of command.now }
{
    match command {
        Command::AddIndex {
            key: Some(names),
            ..
        } => Some(Part::Names(names.as_slice())),
        _ => None,
    }
}

pub(crate) fn new_kind_of(command: &Command) -> Option<Part<'_>>
    ensures { option_map part_data result ≡ new_kind_of command.now }
{
    match command {
        Command::AddIndex { kind, .. } => Some(Part::Text(kind_text(*kind))),
        _ => None,
    }
}

pub(crate) fn high_included_of(command: &Command) -> Option<Part<'_>>
    ensures { option_map part_data result ≡ high_included_of command.now }
{
    match command {
        Command::Range { high, .. } => included(high),
        _ => None,
    }
}

pub(crate) fn high_excluded_of(command: &Command) -> Option<Part<'_>>
    ensures { option_map part_data result ≡ high_excluded_of command.now }
{
    match command {
        Command::Range { high, .. } => excluded(high),
        _ => None,
    }
}

pub(crate) fn nth_of(command: &Command) -> Option<Part<'_>>
    ensures { option_map part_data result ≡ nth_of command.now }
{
    match command {
        Command::Nth { place, .. } => Some(Part::Count(*place)),
        _ => None,
    }
}

pub(crate) fn op_name(command: &Command) -> &'static str
    ensures { result.now ≡ op_name command.now }
{
    match command {
        Command::Insert { .. } => "insert",
        Command::Replace { .. } => "replace",
        Command::Modify { .. } => "modify",
        Command::ModifyKey { .. } => "modify_key",
        Command::Erase { .. } => "erase",
        Command::EraseKey { .. } => "erase_key",
        Command::Clear { .. } => "clear",
        Command::Move { .. } => "move",
        Command::Rearrange { .. } => "rearrange",
        Command::Reverse { .. } => "reverse",
        Command::Sort { .. } => "sort",
        Command::AddIndex { .. } => "add_index",
        Command::DropIndex { .. } => "drop_index",
        Command::Get { .. } => "get",
        Command::Size { .. } => "size",
        Command::Find { .. } => "find",
        Command::Count { .. } => "count",
        Command::Lower { .. } => "lower",
        Command::Upper { .. } => "upper",
        Command::Range { .. } => "range",
        Command::Nth { .. } => "nth",
        Command::Rank { .. } => "rank",
        Command::Place { .. } => "place",
        Command::FindRank { .. } => "find_rank",
        Command::LowerRank { .. } => "lower_rank",
        Command::UpperRank { .. } => "upper_rank",
        Command::Next { .. } => "next",
        Command::Prev { .. } => "prev",
        Command::List { .. } => "list",
    }
}

pub(crate) fn place_of(command: &Command) -> Option<Part<'_>>
    ensures { option_map part_data result ≡ place_of command.now }
{
    match command {
        Command::Insert {
            position: Some(position),
            ..
        } => Some(Part::Count(position.place)),
        Command::Move { place, .. } => Some(Part::Count(*place)),
        _ => None,
    }
}

pub(crate) fn row_of(command: &Command) -> Option<Part<'_>>
    ensures { option_map part_data result ≡ row_of command.now }
{
    match command {
        Command::Insert { row, .. } | Command::Replace { row, .. } => {
            Some(Part::Fields(row.as_slice()))
        }
        _ => None,
    }
}

pub(crate) fn rollback_of(command: &Command) -> Option<Part<'_>>
    ensures { option_map part_data result ≡ rollback_of command.now }
{
    match command {
        Command::Modify { rollback, .. } | Command::ModifyKey { rollback, .. } => {
            if_true(*rollback)
        }
        _ => None,
    }
}

pub(crate) fn unique_of(command: &Command) -> Option<Part<'_>>
    ensures { option_map part_data result ≡ unique_of command.now }
{
    match command {
        Command::AddIndex { unique, .. } => if_true(*unique),
        _ => None,
    }
}

fn if_true(truth: bool) -> Option<Part<'static>>
    ensures { option_map part_data result ≡ if_true truth }
{
    if truth { Some(Part::True) } else { None }
}

pub(crate) fn set_of(command: &Command) -> Option<Part<'_>>
    ensures { option_map part_data result ≡ set_of command.now }
{
    match command {
        Command::Modify { changes, .. } => changed(changes),
        _ => None,
    }
}

fn changed(changes: &Changes) -> Option<Part<'_>>
    ensures { option_map part_data result ≡ changed changes.now }
{
    match changes {
        Changes::Set(set) | Changes::Both { set, .. } => Some(Part::Fields(set.as_slice())),
        Changes::Add(_) => None,
    }
}
