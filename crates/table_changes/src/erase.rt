//! Taking records out.

ghost use Rattle.std.specs.Prelude.{◌<◌, IfSome, length};
ghost use Rattle.std.specs.Option.{option_copied};
ghost use Rattle.table_changes.specs.Changed.{Makes};
ghost use Rattle.table_changes.specs.Changes.{clear_step, erase_key_step, erase_step, erase_text};

use crate::changed::{Changed, Refusal};
use key_extract::Text;
use std::alloc::Global;
use table_cmd::{HandleText, Key};
use table_records::Records;
use table_terms::{Kinds, handle_for, index_named, key_for};

/// Takes a record out, and where an index is named tells the record that came next there.
pub(crate) fn erase(
    records: &mut Records,
    text: HandleText,
    name: Option<&Text>,
) -> Result<Changed, Refusal>
    ensures { Makes result records.old records.new
        (erase_step records.old text (option_copied name.entry)) }
{
    let Some(name) = name else {
        return erase_text(records, text, None);
    };
    let index = index_named(records.spec().indices(), Kinds::Walked, name.as_str())?;
    erase_text(records, text, Some(index))
}

#[tactic(auto, unfolding(crate::specs::Changes::erase_record))]
fn erase_text(
    records: &mut Records,
    text: HandleText,
    index: Option<usize>,
) -> Result<Changed, Refusal>
    requires { IfSome index (λ i. i < length records.old.shape.indices) }
    ensures { Makes result records.old records.new (erase_text records.old text index) }
{
    let handle = handle_for(text)?;
    let next = records.erase(handle, index)?;
    match index {
        Some(_) => Ok(Changed::Next(next)),
        None => Ok(Changed::Done),
    }
}

/// Takes out the records of the named index that have the key of the values, and tells how many.
#[tactic(auto, unfolding(crate::specs::Changes::erase_probe))]
pub(crate) fn erase_key(
    alloc: Global,
    records: &mut Records,
    name: &Text,
    key: &Key,
) -> Result<Changed, Refusal>
    ensures { Makes result records.old records.new
        (erase_key_step records.old name.now key.now) }
{
    let spec = records.spec();
    let (index, probe) = key_for(alloc, spec, Kinds::Keyed, name.as_str(), key.as_slice())??;
    let number = records.erase_key(index, &probe)?;
    Ok(Changed::Erased(number))
}

/// Takes all records out.
#[tactic(auto, unfolding(crate::specs::Changes::clear_step))]
pub(crate) fn clear(records: &mut Records) -> Result<Changed, Refusal>
    ensures { Makes result records.old records.new (clear_step records.old) }
{
    records.clear()?;
    Ok(Changed::Done)
}
