//! One read of a table.

ghost use Rattle.table_reads.specs.Found.{Reads};
ghost use Rattle.table_reads.specs.Read.{read_step};
ghost use Rattle.table_terms.specs.Step.{Steps};
ghost use Rattle.table_terms.specs.Telling.{IsTold};

use crate::found::{Found, Refusal};
use crate::list::list;
use crate::positions::find_position;
use crate::range::range;
use crate::search::{Search, find_by};
use crate::show::get;
use crate::tell::tell;
use std::alloc::Global;
use table_cmd::Command;
use table_records::Records;
use table_reply::{Ready, Told};
use table_terms::Outcome;

/// Carries out a command that reads the table, and appends the line of its answer, or that of a refusal, or the memory line.
/// A command that would change the table is refused as `command`.
///
/// A record is shown in O(columns) and a listing in O(records · columns), besides what the container's own call costs.
pub fn read<'o>(
    alloc: Global,
    records: &Records,
    command: &Command,
    out: Ready<'o>,
) -> Told<'o, Outcome>
    ensures answer { Steps result.what out.entry.out.now.bytes result.out.now.bytes records.now records.now
        (read_step records.now command.now) }
    ensures told { IsTold out.entry result }
{
    tell(alloc, records, find(alloc, records, command), out)
}

// Finds what the command asks for.
fn find<'a>(alloc: Global, records: &'a Records, command: &Command) -> Result<Found<'a>, Refusal>
    ensures { Reads records.now result (read_step records.now command.now) }
{
    match command {
        Command::Get { handle, .. } => get(records, *handle),
        Command::Size { .. } => Ok(Found::Number(records.container().len())),
        Command::Find { index, key, .. } => find_by(alloc, records, Search::Find, index, key),
        Command::Count { index, key, .. } => find_by(alloc, records, Search::Count, index, key),
        Command::Lower { index, key, .. } => find_by(alloc, records, Search::Lower, index, key),
        Command::Upper { index, key, .. } => find_by(alloc, records, Search::Upper, index, key),
        Command::FindRank { index, key, .. } => {
            find_by(alloc, records, Search::FindRank, index, key)
        }
        Command::LowerRank { index, key, .. } => {
            find_by(alloc, records, Search::LowerRank, index, key)
        }
        Command::UpperRank { index, key, .. } => {
            find_by(alloc, records, Search::UpperRank, index, key)
        }
        Command::Range {
            index,
            low,
            high,
            ..
        } => range(alloc, records, index, low, high),
        Command::List { index, .. } => list(records, index),
        _ => find_position(records, command),
    }
}
