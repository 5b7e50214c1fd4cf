//! Putting a row in.

ghost use Rattle.std.specs.Prelude.{◌<◌, IfSome, length};
ghost use Rattle.std.specs.Option.{option_copied};
ghost use Rattle.table_changes.specs.Changed.{Makes};
ghost use Rattle.table_changes.specs.Changes.{insert_fields, insert_step};

use crate::changed::{Changed, Refusal};
use std::alloc::Global;
use table_cmd::{Fields, Position};
use table_records::Records;
use table_reply::Fault;
use table_terms::{Kinds, index_named, row_from};

/// Puts the row of the fields in, before the position where there is one. Memory is refused before anything is changed.
pub(crate) fn insert(
    alloc: Global,
    records: &mut Records,
    fields: &Fields,
    position: Option<&Position>,
) -> Result<Changed, Refusal>
    ensures { Makes result records.old records.new
        (insert_step records.old fields.now (option_copied position.entry)) }
{
    let Some(position) = position else {
        return insert_fields(alloc, records, None, fields);
    };
    let name = position.index.as_str();
    let index = index_named(records.spec().indices(), Kinds::Sequence, name)?;
    insert_fields(alloc, records, Some((index, position.place)), fields)
}

#[tactic(auto, unfolding(crate::specs::Changes::insert_row))]
fn insert_fields(
    alloc: Global,
    records: &mut Records,
    at: Option<(usize, u64)>,
    fields: &Fields,
) -> Result<Changed, Refusal>
    requires { IfSome at (λ at. at.0 < length records.old.shape.indices) }
    ensures { Makes result records.old records.new (insert_fields records.old at fields.now) }
{
    let row = row_from(alloc, records.spec().columns(), fields.as_slice())?;
    let handle = records.insert(at, row.ok_or(Fault::Row)?)?;
    Ok(Changed::Inserted(handle))
}
