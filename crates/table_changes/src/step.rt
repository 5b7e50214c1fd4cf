//! One change of a table.

ghost use Rattle.std.specs.Prelude.{◌≡◌};
ghost use Rattle.table_changes.specs.Change.{change_step, is_change};
ghost use Rattle.table_changes.specs.Changed.{Makes};
ghost use Rattle.table_terms.specs.Step.{Steps};
ghost use Rattle.table_terms.specs.Telling.{IsTold};

use crate::changed::{Changed, Refusal};
use crate::erase::{clear, erase, erase_key};
use crate::indices::{add_index, drop_index};
use crate::insert::insert;
use crate::modify::{modify, modify_key};
use crate::moves::{move_before, rearrange, reverse, sort};
use crate::replace::replace;
use crate::told::tell;
use std::alloc::Global;
use table_cmd::Command;
use table_records::Records;
use table_reply::{Fault, Ready, Told};
use table_terms::Outcome;

/// Whether a command changes the table, where it is not refused. O(1).
pub fn is_change(command: &Command) -> bool
    ensures { result ≡ is_change command.now }
{
    matches!(
        command,
        Command::Insert { .. }
            | Command::Replace { .. }
            | Command::Modify { .. }
            | Command::ModifyKey { .. }
            | Command::Erase { .. }
            | Command::EraseKey { .. }
            | Command::Clear { .. }
            | Command::Move { .. }
            | Command::Rearrange { .. }
            | Command::Sort { .. }
            | Command::Reverse { .. }
            | Command::AddIndex { .. }
            | Command::DropIndex { .. }
    )
}

// Carries out a command that changes the table.
fn carry_out(alloc: Global, records: &mut Records, command: &Command) -> Result<Changed, Refusal>
    ensures { Makes result records.old records.new (change_step records.old command.now) }
{
    match command {
        Command::Insert { row, position, .. } => insert(alloc, records, row, position.as_ref()),
        Command::Replace { handle, row, .. } => replace(alloc, records, *handle, row),
        Command::Modify {
            handle,
            changes,
            rollback,
            ..
        } => modify(alloc, records, *handle, changes, *rollback),
        Command::ModifyKey {
            index,
            handle,
            key,
            rollback,
            ..
        } => modify_key(alloc, records, index, *handle, key, *rollback),
        Command::Erase { handle, index, .. } => erase(records, *handle, index.as_ref()),
        Command::EraseKey { index, key, .. } => erase_key(alloc, records, index, key),
        Command::Clear { .. } => clear(records),
        Command::Move {
            index,
            handle,
            place,
            ..
        } => move_before(records, index, *handle, *place),
        Command::Rearrange { index, handles, .. } => rearrange(alloc, records, index, handles),
        Command::Sort { index, by, .. } => sort(records, index, by),
        Command::Reverse { index, .. } => reverse(records, index),
        Command::AddIndex {
            index,
            kind,
            unique,
            key,
            ..
        } => add_index(records, index, *kind, *unique, key),
        Command::DropIndex { index, .. } => drop_index(records, index),
        _ => Err(Refusal::Fault(Fault::Command)),
    }
}

/// Carries out a command that changes the table, and appends the line of its answer, or that of a refusal. A command that
/// changes none is refused as `command`. A refused command changes nothing. Where memory is refused nothing is changed and
/// the memory line is appended; an accepted write is always answered.
///
/// An insertion, a replacement and a modification read their row in O(columns · fields), besides what the container's own call costs.
pub fn change<'o>(
    alloc: Global,
    records: &mut Records,
    command: &Command,
    out: Ready<'o>,
) -> Told<'o, Outcome>
    ensures answer { Steps result.what out.entry.out.now.bytes result.out.now.bytes records.old records.new
        (change_step records.old command.now) }
    ensures told { IsTold out.entry result }
{
    let changed = carry_out(alloc, records, command);
    tell(records, changed, out)
}
