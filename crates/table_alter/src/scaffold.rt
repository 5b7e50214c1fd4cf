//! Records under the order of their insertion alone, to which an index may be added.

ghost use Rattle.std.specs.Prelude.{◌≡◌, IfErr, IfOk, map};
ghost use Rattle.table_alter.specs.Scaffold.{IsNoTable, IsScaffold, StandsAlone};

use crate::entries::copy_entries;
use crate::fault::Unalterable;
use container_model::{Entry, Handle};
use key_extract::{Row, Text};
use std::alloc::{AllocError, Global};
use table_records::{Records, Saved, Unrestorable};
use table_schema::{IndexSpec, Kind, TableSpec};

// A sequence of another name than this one.
fn sequence(alloc: Global, name: &str) -> Result<IndexSpec, AllocError>
    ensures { IfOk result (IsScaffold name.now) }
{
    let other = if name == "a" { "b" } else { "a" };
    Ok(IndexSpec {
        name: Text::copy_of(alloc, other)?,
        kind: Kind::Sequenced,
        unique: false,
        key: None,
    })
}

// The handles of records.
fn handles_of(alloc: Global, entries: &[Entry<Row>]) -> Result<Vec<Handle>, AllocError>
    ensures { IfOk result (λ handles. handles.items ≡ map (λ e. e.handle) entries.now) }
{
    let mut handles = Vec::with_capacity(alloc, entries.len())?;
    for entry in entries {
        handles.push(entry.handle)?;
    }
    Ok(handles)
}

/// Records of a table with these columns, under a sequence alone, which has another name than this one.
pub(crate) fn scaffold(
    alloc: Global,
    after: &TableSpec,
    name: &str,
    writes: u64,
    entries: &[Entry<Row>],
) -> Result<Records, Unalterable>
    ensures stands { IfOk result (StandsAlone after.now name.now entries.now) }
    ensures why { IfErr result IsNoTable }
{
    let spec = after.with_only_index(sequence(alloc, name)?)?;
    let mut orders = Vec::with_capacity(alloc, 1)?;
    orders.push(handles_of(alloc, entries)?)?;
    let saved = Saved {
        writes,
        entries: copy_entries(alloc, entries)?,
        orders,
    };
    match Records::restored(alloc, spec, saved) {
        Ok(records) => Ok(records),
        Err(Unrestorable::Memory) => Err(Unalterable::Memory),
        Err(_) => Err(Unalterable::Unfit),
    }
}
