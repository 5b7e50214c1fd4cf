//! Reads a line as a command.

ghost use Rattle.std.specs.Prelude.{◌≡◌, IfOk, map, bytes_eq};
ghost use Rattle.std.specs.List.{list_any};
ghost use Rattle.serde_json.specs.View.{view, members_view};
ghost use Rattle.command_lines.specs.Fits.{CommandFits};
ghost use Rattle.command_lines.specs.Parts.{Gives, has_only, or_fault};
ghost use Rattle.command_lines.specs.Meaning.{insert_of, replace_of, modify_of, modify_key_of, erase_of, move_of, rearrange_of, sort_of, add_index_of, get_of, nth_of, place_of, range_of, on_table, table_command, on_index, index_command, on_key, key_command, on_position, position_command, shaped, command_of, meaning};

use crate::fault::CommandFault;
use crate::op::{IndexOp, KeyOp, Op, PositionOp, TableOp};
use crate::parts::{
    bound_of, changes_of, columns_if_given, count_of, end_of, handle_of, handles_of,
    index_if_given, key_of, kind_at, names_of, position_of, row_of, text_at, text_of, truth_of,
};
use crate::tree::tree_of;
use json::Scratch;
use key_extract::Text;
use serde_json::{Map, Value as Json};
use std::alloc::{AllocError, Global};
use table_cmd::{Command, HandleText, Key};

/// Reads lines as commands. What reading needs of memory is kept from line to line: 16 KiB, and as many bytes as the longest line.
#[derive(Drop)]
pub struct LineReader {
    alloc: Global,
    scratch: Box<Scratch>,
}

impl LineReader {
    /// A reader of lines.
    pub fn new(alloc: Global) -> Result<LineReader, AllocError> {
        let scratch = Box::new(alloc, Scratch::new(alloc))?;
        Ok(LineReader { alloc, scratch })
    }

    /// Reads a line as a command. The last of repeated names counts. O(n · log n) for n bytes.
    pub fn read(&mut self, line: &[u8]) -> Result<Command, CommandFault>
        ensures means { Gives result (meaning line.now) }
        ensures fits { IfOk result CommandFits }
    {
        read_with(self.alloc, line, &mut self.scratch)
    }
}

/// Reads a line as a command, as a `LineReader` does. Who reads many lines keeps such a reader.
pub fn read_command(alloc: Global, line: &[u8]) -> Result<Command, CommandFault>
    ensures means { Gives result (meaning line.now) }
    ensures fits { IfOk result CommandFits }
{
    let mut scratch = Scratch::new(alloc);
    read_with(alloc, line, &mut scratch)
}

// Reads a line as a command, over memory that is lent.
fn read_with(alloc: Global, line: &[u8], scratch: &mut Scratch) -> Result<Command, CommandFault>
    ensures means { Gives result (meaning line.now) }
    ensures fits { IfOk result CommandFits }
{
    match tree_of(alloc, line, scratch)? {
        Some(value) => command_of(alloc, &value),
        None => Err(CommandFault::Json),
    }
}

fn has_only(members: &Map<String, Json>, names: &[&str]) -> bool
    ensures { result ≡ has_only (map (λ s. s.now) names.now) (members_view members.now.entries) }
{
    for (name, _value) in members {
        if !is_among(name.as_str(), names) {
            return false;
        }
    }
    true
}

#[tactic(auto, using(crate::proofs::Cells::list_any_map))]
fn is_among(name: &str, names: &[&str]) -> bool
    ensures { result ≡ list_any (λ n. bytes_eq n name.now) (map (λ s. s.now) names.now) }
{
    names.contains(&name)
}

#[tactic(auto, unfolding(crate::specs::Meaning::insert_of))]
fn insert_of(alloc: Global, value: &Json) -> Result<Command, CommandFault>
    ensures { Gives result (or_fault (insert_of (view value.now))) }
{
    let table = text_of(alloc, value, "t")?;
    let row = row_of(alloc, value)?;
    let position = position_of(alloc, value)?;
    Ok(Command::Insert {
        table,
        row,
        position,
    })
}

#[tactic(auto, unfolding(crate::specs::Meaning::replace_of))]
fn replace_of(alloc: Global, value: &Json) -> Result<Command, CommandFault>
    ensures { Gives result (or_fault (replace_of (view value.now))) }
{
    let table = text_of(alloc, value, "t")?;
    let handle = handle_of(value)?;
    let row = row_of(alloc, value)?;
    Ok(Command::Replace { table, handle, row })
}

#[tactic(auto, unfolding(crate::specs::Meaning::modify_of))]
fn modify_of(alloc: Global, value: &Json) -> Result<Command, CommandFault>
    ensures { Gives result (or_fault (modify_of (view value.now))) }
{
    let table = text_of(alloc, value, "t")?;
    let handle = handle_of(value)?;
    let changes = changes_of(alloc, value)?;
    let rollback = truth_of(value, "rollback")?;
    Ok(Command::Modify {
        table,
        handle,
        changes,
        rollback,
    })
}

#[tactic(auto, unfolding(crate::specs::Meaning::modify_key_of))]
fn modify_key_of(alloc: Global, value: &Json) -> Result<Command, CommandFault>
    ensures { Gives result (or_fault (modify_key_of (view value.now))) }
{
    let table = text_of(alloc, value, "t")?;
    let index = text_of(alloc, value, "i")?;
    let handle = handle_of(value)?;
    let key = key_of(alloc, value)?;
    let rollback = truth_of(value, "rollback")?;
    Ok(Command::ModifyKey {
        table,
        index,
        handle,
        key,
        rollback,
    })
}

#[tactic(auto, unfolding(crate::specs::Meaning::erase_of))]
fn erase_of(alloc: Global, value: &Json) -> Result<Command, CommandFault>
    ensures { Gives result (or_fault (erase_of (view value.now))) }
{
    let table = text_of(alloc, value, "t")?;
    let handle = handle_of(value)?;
    let index = index_if_given(alloc, value)?;
    Ok(Command::Erase {
        table,
        handle,
        index,
    })
}

#[tactic(auto, unfolding(crate::specs::Meaning::move_of))]
fn move_of(alloc: Global, value: &Json) -> Result<Command, CommandFault>
    ensures { Gives result (or_fault (move_of (view value.now))) }
{
    let table = text_of(alloc, value, "t")?;
    let index = text_of(alloc, value, "i")?;
    let handle = handle_of(value)?;
    let place = count_of(value, "p")?;
    Ok(Command::Move {
        table,
        index,
        handle,
        place,
    })
}

#[tactic(auto, unfolding(crate::specs::Meaning::rearrange_of))]
fn rearrange_of(alloc: Global, value: &Json) -> Result<Command, CommandFault>
    ensures { Gives result (or_fault (rearrange_of (view value.now))) }
{
    let table = text_of(alloc, value, "t")?;
    let index = text_of(alloc, value, "i")?;
    let handles = handles_of(alloc, value)?;
    Ok(Command::Rearrange {
        table,
        index,
        handles,
    })
}

#[tactic(auto, unfolding(crate::specs::Meaning::sort_of))]
fn sort_of(alloc: Global, value: &Json) -> Result<Command, CommandFault>
    ensures { Gives result (or_fault (sort_of (view value.now))) }
{
    let table = text_of(alloc, value, "t")?;
    let index = text_of(alloc, value, "i")?;
    let by = names_of(alloc, value)?;
    Ok(Command::Sort { table, index, by })
}

#[tactic(auto, unfolding(crate::specs::Meaning::add_index_of))]
fn add_index_of(alloc: Global, value: &Json) -> Result<Command, CommandFault>
    ensures { Gives result (or_fault (add_index_of (view value.now))) }
{
    let table = text_of(alloc, value, "t")?;
    let index = text_of(alloc, value, "i")?;
    let kind = kind_at(value)?;
    let unique = truth_of(value, "unique")?;
    let key = columns_if_given(alloc, value)?;
    Ok(Command::AddIndex {
        table,
        index,
        kind,
        unique,
        key,
    })
}

#[tactic(auto, unfolding(crate::specs::Meaning::get_of))]
fn get_of(alloc: Global, value: &Json) -> Result<Command, CommandFault>
    ensures { Gives result (or_fault (get_of (view value.now))) }
{
    let table = text_of(alloc, value, "t")?;
    let handle = handle_of(value)?;
    Ok(Command::Get { table, handle })
}

#[tactic(auto, unfolding(crate::specs::Meaning::nth_of))]
fn nth_of(alloc: Global, value: &Json) -> Result<Command, CommandFault>
    ensures { Gives result (or_fault (nth_of (view value.now))) }
{
    let table = text_of(alloc, value, "t")?;
    let index = text_of(alloc, value, "i")?;
    let place = count_of(value, "n")?;
    Ok(Command::Nth {
        table,
        index,
        place,
    })
}

#[tactic(auto, unfolding(crate::specs::Meaning::place_of))]
fn place_of(alloc: Global, value: &Json) -> Result<Command, CommandFault>
    ensures { Gives result (or_fault (place_of (view value.now))) }
{
    let table = text_of(alloc, value, "t")?;
    let index = text_of(alloc, value, "i")?;
    let handle = handle_of(value)?;
    Ok(Command::Place {
        table,
        index,
        handle,
    })
}

#[tactic(auto, unfolding(crate::specs::Meaning::range_of))]
fn range_of(alloc: Global, value: &Json) -> Result<Command, CommandFault>
    ensures { Gives result (or_fault (range_of (view value.now))) }
{
    let table = text_of(alloc, value, "t")?;
    let index = text_of(alloc, value, "i")?;
    let low = bound_of(alloc, value, "ge", "gt")?;
    let high = bound_of(alloc, value, "le", "lt")?;
    Ok(Command::Range {
        table,
        index,
        low,
        high,
    })
}

#[tactic(auto, unfolding(crate::specs::Meaning::on_table))]
fn on_table(op: TableOp, table: Text) -> Command
    ensures { result ≡ on_table op table }
{
    match op {
        TableOp::Clear => Command::Clear { table },
        TableOp::Size => Command::Size { table },
    }
}

#[tactic(auto, unfolding(crate::specs::Meaning::table_command))]
fn table_command(alloc: Global, op: TableOp, value: &Json) -> Result<Command, CommandFault>
    ensures { Gives result (or_fault (table_command op (view value.now))) }
{
    let table = text_of(alloc, value, "t")?;
    Ok(on_table(op, table))
}

#[tactic(auto, unfolding(crate::specs::Meaning::on_index))]
fn on_index(op: IndexOp, table: Text, index: Text) -> Command
    ensures { result ≡ on_index op table index }
{
    match op {
        IndexOp::Reverse => Command::Reverse { table, index },
        IndexOp::DropIndex => Command::DropIndex { table, index },
        IndexOp::List => Command::List { table, index },
    }
}

#[tactic(auto, unfolding(crate::specs::Meaning::index_command))]
fn index_command(alloc: Global, op: IndexOp, value: &Json) -> Result<Command, CommandFault>
    ensures { Gives result (or_fault (index_command op (view value.now))) }
{
    let table = text_of(alloc, value, "t")?;
    let index = text_of(alloc, value, "i")?;
    Ok(on_index(op, table, index))
}

#[tactic(auto, unfolding(crate::specs::Meaning::on_key))]
fn on_key(op: KeyOp, table: Text, index: Text, key: Key) -> Command
    ensures { result ≡ on_key op table index key }
{
    match op {
        KeyOp::EraseKey => Command::EraseKey { table, index, key },
        KeyOp::Find => Command::Find { table, index, key },
        KeyOp::Count => Command::Count { table, index, key },
        KeyOp::Lower => Command::Lower { table, index, key },
        KeyOp::Upper => Command::Upper { table, index, key },
        KeyOp::FindRank => Command::FindRank { table, index, key },
        KeyOp::LowerRank => Command::LowerRank { table, index, key },
        KeyOp::UpperRank => Command::UpperRank { table, index, key },
    }
}

#[tactic(auto, unfolding(crate::specs::Meaning::key_command))]
fn key_command(alloc: Global, op: KeyOp, value: &Json) -> Result<Command, CommandFault>
    ensures { Gives result (or_fault (key_command op (view value.now))) }
{
    let table = text_of(alloc, value, "t")?;
    let index = text_of(alloc, value, "i")?;
    let key = key_of(alloc, value)?;
    Ok(on_key(op, table, index, key))
}

#[tactic(auto, unfolding(crate::specs::Meaning::on_position))]
fn on_position(op: PositionOp, table: Text, index: Text, position: Option<HandleText>) -> Command
    ensures { result ≡ on_position op table index position }
{
    match op {
        PositionOp::Rank => Command::Rank {
            table,
            index,
            position,
        },
        PositionOp::Next => Command::Next {
            table,
            index,
            position,
        },
        PositionOp::Prev => Command::Prev {
            table,
            index,
            position,
        },
    }
}

#[tactic(auto, unfolding(crate::specs::Meaning::position_command))]
fn position_command(alloc: Global, op: PositionOp, value: &Json) -> Result<Command, CommandFault>
    ensures { Gives result (or_fault (position_command op (view value.now))) }
{
    let table = text_of(alloc, value, "t")?;
    let index = text_of(alloc, value, "i")?;
    let position = end_of(value)?;
    Ok(on_position(op, table, index, position))
}

// The command of an operation, by the keys of its object.
fn shaped(alloc: Global, op: Op, value: &Json) -> Result<Command, CommandFault>
    ensures { Gives result (or_fault (shaped op (view value.now))) }
{
    match op {
        Op::Insert => insert_of(alloc, value),
        Op::Replace => replace_of(alloc, value),
        Op::Modify => modify_of(alloc, value),
        Op::ModifyKey => modify_key_of(alloc, value),
        Op::Erase => erase_of(alloc, value),
        Op::Move => move_of(alloc, value),
        Op::Rearrange => rearrange_of(alloc, value),
        Op::Sort => sort_of(alloc, value),
        Op::AddIndex => add_index_of(alloc, value),
        Op::Get => get_of(alloc, value),
        Op::Nth => nth_of(alloc, value),
        Op::Place => place_of(alloc, value),
        Op::Range => range_of(alloc, value),
        Op::OnTable(op) => table_command(alloc, op, value),
        Op::OnIndex(op) => index_command(alloc, op, value),
        Op::OnKey(op) => key_command(alloc, op, value),
        Op::OnPosition(op) => position_command(alloc, op, value),
    }
}

#[tactic(auto, unfolding(crate::specs::Meaning::command_of, crate::specs::Meaning::command_for))]
fn command_of(alloc: Global, value: &Json) -> Result<Command, CommandFault>
    ensures { Gives result (or_fault (command_of (view value.now))) }
{
    let Json::Object(members) = value else {
        return Err(CommandFault::Command);
    };
    let Some(op) = text_at(value, "op").and_then(Op::of) else {
        return Err(CommandFault::Command);
    };
    if !has_only(members, op.keys()) {
        return Err(CommandFault::Command);
    }
    shaped(alloc, op, value)
}
