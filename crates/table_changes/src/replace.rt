//! Replacing a row.

ghost use Rattle.table_changes.specs.Changed.{Makes};
ghost use Rattle.table_changes.specs.Changes.{replace_row, replace_step};

use crate::changed::{Changed, Refusal};
use container_model::Handle;
use key_extract::Row;
use std::alloc::Global;
use table_cmd::{Fields, HandleText};
use table_records::Records;
use table_reply::Fault;
use table_terms::{handle_for, row_from};

/// Puts the row of the fields in the place of the row of a record.
pub(crate) fn replace(
    alloc: Global,
    records: &mut Records,
    text: HandleText,
    fields: &Fields,
) -> Result<Changed, Refusal>
    ensures { Makes result records.old records.new (replace_step records.old text fields.now) }
{
    let row = row_from(alloc, records.spec().columns(), fields.as_slice())?;
    let row = row.ok_or(Fault::Row)?;
    let handle = handle_for(text)?;
    replace_row(records, handle, row)
}

#[tactic(auto, unfolding(crate::specs::Changes::replace_row))]
pub(crate) fn replace_row(
    records: &mut Records,
    handle: Handle,
    row: Row,
) -> Result<Changed, Refusal>
    ensures { Makes result records.old records.new (replace_row records.old handle row) }
{
    records.replace(handle, row)?;
    Ok(Changed::Done)
}
