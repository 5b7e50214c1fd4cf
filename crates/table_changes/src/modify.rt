//! Changing a row in place.

ghost use Rattle.std.specs.Prelude.{◌<◌, length};
ghost use Rattle.table_changes.specs.Changed.{Makes};
ghost use Rattle.table_changes.specs.Modify.{change_row, edit_record, modify_key_step, modify_row, modify_step, put_key};
ghost use Rattle.table_cmd.specs.Command.{added_in, set_in};

use crate::changed::{Changed, Refusal};
use crate::replace::replace_row;
use container_model::Handle;
use key_extract::{Probe, Row, Text};
use std::alloc::Global;
use table_cmd::{Changes, HandleText, Key};
use table_records::Records;
use table_reply::Fault;
use table_terms::{edited_row, handle_for, is_edit, keyed_row, whole_key_for};

/// Changes cells of a record. Memory is refused before anything is changed.
pub(crate) fn modify(
    alloc: Global,
    records: &mut Records,
    text: HandleText,
    changes: &Changes,
    rollback: bool,
) -> Result<Changed, Refusal>
    ensures { Makes result records.old records.new
        (modify_step records.old text (set_in changes.now) (added_in changes.now) rollback) }
{
    if !is_edit(records.spec().columns(), changes.set(), changes.added()) {
        return Err(Refusal::Fault(Fault::Row));
    }
    let handle = handle_for(text)?;
    edit_record(alloc, records, changes, rollback, handle)
}

#[tactic(auto, unfolding(crate::specs::Modify::edit_record))]
fn edit_record(
    alloc: Global,
    records: &mut Records,
    changes: &Changes,
    rollback: bool,
    handle: Handle,
) -> Result<Changed, Refusal>
    ensures { Makes result records.old records.new
        (edit_record records.old (set_in changes.now) (added_in changes.now) rollback handle) }
{
    let Ok(row) = records.container().get(handle) else {
        return Err(Refusal::Fault(Fault::Handle));
    };
    let columns = records.spec().columns();
    let row = edited_row(alloc, columns, changes.set(), changes.added(), row)?;
    change_row(records, rollback, handle, row.ok_or(Fault::Overflow)?)
}

/// Gives a record the key of the values at the named index. Memory is refused before anything is changed.
pub(crate) fn modify_key(
    alloc: Global,
    records: &mut Records,
    name: &Text,
    text: HandleText,
    key: &Key,
    rollback: bool,
) -> Result<Changed, Refusal>
    ensures { Makes result records.old records.new
        (modify_key_step records.old name.now text key.now rollback) }
{
    let (index, key) = whole_key_for(alloc, records.spec(), name.as_str(), key.as_slice())??;
    let handle = handle_for(text)?;
    put_key(alloc, records, index, &key, rollback, handle)
}

#[tactic(auto, unfolding(crate::specs::Modify::put_key))]
fn put_key(
    alloc: Global,
    records: &mut Records,
    index: usize,
    key: &Probe,
    rollback: bool,
    handle: Handle,
) -> Result<Changed, Refusal>
    requires { index < length records.old.shape.indices }
    ensures { Makes result records.old records.new
        (put_key records.old index key.now rollback handle) }
{
    let Ok(row) = records.container().get(handle) else {
        return Err(Refusal::Fault(Fault::Handle));
    };
    let row = keyed_row(alloc, records.spec(), index, key, row)?;
    change_row(records, rollback, handle, row)
}

// Changes a record's row; with rollback it is refused where the record would be lost.
fn change_row(
    records: &mut Records,
    rollback: bool,
    handle: Handle,
    row: Row,
) -> Result<Changed, Refusal>
    ensures { Makes result records.old records.new (change_row records.old rollback handle row) }
{
    if rollback {
        replace_row(records, handle, row)
    } else {
        modify_row(records, handle, row)
    }
}

#[tactic(auto, unfolding(crate::specs::Modify::modify_row))]
fn modify_row(records: &mut Records, handle: Handle, row: Row) -> Result<Changed, Refusal>
    ensures { Makes result records.old records.new (modify_row records.old handle row) }
{
    match records.modify(handle, row)? {
        None => Ok(Changed::Done),
        Some((index, by)) => Ok(Changed::Lost { index, by }),
    }
}
