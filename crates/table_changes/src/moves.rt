//! Changing the order of a sequence.

ghost use Rattle.std.specs.Prelude.{◌≡◌};
ghost use Rattle.table_changes.specs.Changed.{Makes};
ghost use Rattle.table_changes.specs.Moves.{move_step, parts_named, rearrange_step, reverse_step, sort_step};
ghost use Rattle.table_terms.specs.Words.{or_fault};

use crate::changed::{Changed, Refusal};
use key_extract::{KeySpec, RowSort, Text};
use std::alloc::Global;
use table_cmd::{HandleText, Handles, Names};
use table_records::Records;
use table_reply::Fault;
use table_schema::{Column, key_of_texts};
use table_terms::{Kinds, handles_for, index_named, record_for};

/// Moves a record before a place of the named sequence.
#[tactic(auto, unfolding(crate::specs::Moves::move_record))]
pub(crate) fn move_before(
    records: &mut Records,
    name: &Text,
    text: HandleText,
    place: u64,
) -> Result<Changed, Refusal>
    ensures { Makes result records.old records.new
        (move_step records.old name.now text place) }
{
    let indices = records.spec().indices();
    let (index, handle) = record_for(indices, Kinds::Sequence, name.as_str(), text)?;
    records.relocate(index, place, handle)?;
    Ok(Changed::Done)
}

/// Puts the records of the named sequence into the order of the handles that texts spell.
#[tactic(auto, unfolding(crate::specs::Moves::rearrange_in))]
pub(crate) fn rearrange(
    alloc: Global,
    records: &mut Records,
    name: &Text,
    texts: &Handles,
) -> Result<Changed, Refusal>
    ensures { Makes result records.old records.new
        (rearrange_step records.old name.now texts.now) }
{
    let index = index_named(records.spec().indices(), Kinds::Sequence, name.as_str())?;
    let handles = handles_for(alloc, texts.as_slice())?;
    let handles = handles.ok_or(Fault::Handle)?;
    records.rearrange(index, &handles)?;
    Ok(Changed::Done)
}

/// Puts the records of the named sequence into the order of the key whose parts the names are.
#[tactic(auto, unfolding(crate::specs::Moves::sort_in))]
pub(crate) fn sort(records: &mut Records, name: &Text, names: &Names) -> Result<Changed, Refusal>
    ensures { Makes result records.old records.new (sort_step records.old name.now names.now) }
{
    let index = index_named(records.spec().indices(), Kinds::Sequence, name.as_str())?;
    let key = key_named(records.spec().columns(), names.as_slice())?;
    records.sort(index, &RowSort::new(key))?;
    Ok(Changed::Done)
}

// The key whose parts one to four texts name.
#[tactic(auto, unfolding(crate::specs::Moves::parts_named))]
fn key_named(columns: &[Column], names: &[Text]) -> Result<KeySpec, Fault>
    ensures { result ≡ or_fault Fault.Key (parts_named columns.now names.now) }
{
    if 1 <= names.len() && names.len() <= 4 {
        key_of_texts(columns, names).ok_or(Fault::Key)
    } else {
        Err(Fault::Key)
    }
}

/// Turns the order of the named sequence round.
#[tactic(auto, unfolding(crate::specs::Moves::reverse_in))]
pub(crate) fn reverse(records: &mut Records, name: &Text) -> Result<Changed, Refusal>
    ensures { Makes result records.old records.new (reverse_step records.old name.now) }
{
    let index = index_named(records.spec().indices(), Kinds::Sequence, name.as_str())?;
    records.reverse(index)?;
    Ok(Changed::Done)
}
