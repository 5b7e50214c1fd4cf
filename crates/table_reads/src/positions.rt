//! Places and neighbours of records.

ghost use Rattle.std.specs.Prelude.{◌≡◌, ◌<◌, length};
ghost use Rattle.table_reads.specs.Found.{Reads};
ghost use Rattle.table_reads.specs.Positions.{nth_step, place_step, position_step, rank_step, walk_step, walked};

use crate::found::{Found, Refusal};
use container_model::{Handle, Why};
use key_extract::{Row, RowKeys, Text};
use multi_index::MultiIndex;
use table_cmd::{Command, HandleText};
use table_records::Records;
use table_reply::Fault;
use table_terms::{Kinds, index_named, position_for, record_for};

// Which neighbour of a position is asked for.
#[derive(Clone, Copy, Debug, PartialEq, Eq)]
enum Walk {
    /// The position after it.
    Next,
    /// The position before it.
    Prev,
}

/// Finds a place or a neighbour. A command that asks for neither is refused as `command`.
pub(crate) fn find_position<'a>(
    records: &'a Records,
    command: &Command,
) -> Result<Found<'a>, Refusal>
    ensures { Reads records.now result (position_step records.now command.now) }
{
    match command {
        Command::Nth { index, place, .. } => nth(records, index, *place),
        Command::Rank {
            index,
            position,
            ..
        } => rank(records, index, *position),
        Command::Place { index, handle, .. } => place_of(records, index, *handle),
        Command::Next {
            index,
            position,
            ..
        } => neighbour(records, Walk::Next, index, *position),
        Command::Prev {
            index,
            position,
            ..
        } => neighbour(records, Walk::Prev, index, *position),
        _ => Err(Refusal::Fault(Fault::Command)),
    }
}

// Finds the record at a place of the named index.
fn nth<'a>(records: &'a Records, name: &Text, n: u64) -> Result<Found<'a>, Refusal>
    ensures { Reads records.now result (nth_step records.now name.now n) }
{
    let index = index_named(records.spec().indices(), Kinds::Counted, name.as_str())?;
    Ok(Found::Position(records.container().nth(index, n)?))
}

// Finds the rank of a position in the named index.
fn rank<'a>(
    records: &'a Records,
    name: &Text,
    text: Option<HandleText>,
) -> Result<Found<'a>, Refusal>
    ensures { Reads records.now result (rank_step records.now name.now text) }
{
    let indices = records.spec().indices();
    let (index, position) = position_for(indices, Kinds::Ranked, name.as_str(), text)?;
    Ok(Found::Number(records.container().rank(index, position)?))
}

// Finds the place of a record in the named index.
fn place_of<'a>(records: &'a Records, name: &Text, text: HandleText) -> Result<Found<'a>, Refusal>
    ensures { Reads records.now result (place_step records.now name.now text) }
{
    let indices = records.spec().indices();
    let (index, handle) = record_for(indices, Kinds::Random, name.as_str(), text)?;
    Ok(Found::Number(records.container().place_of(index, handle)?))
}

// Finds the neighbour of a position in the named index.
fn neighbour<'a>(
    records: &'a Records,
    walk: Walk,
    name: &Text,
    text: Option<HandleText>,
) -> Result<Found<'a>, Refusal>
    ensures { Reads records.now result (walk_step records.now walk name.now text) }
{
    let indices = records.spec().indices();
    let (index, position) = position_for(indices, Kinds::Walked, name.as_str(), text)?;
    Ok(Found::Position(walked(records.container(), walk, index, position)?))
}

fn walked(
    container: &MultiIndex<Row, RowKeys>,
    walk: Walk,
    index: usize,
    position: Option<Handle>,
) -> Result<Option<Handle>, Why>
    requires { index < length container.now.specs }
    ensures { result ≡ walked walk container.now index position }
{
    match walk {
        Walk::Next => container.project_next(index, position),
        Walk::Prev => container.project_prev(index, position),
    }
}
