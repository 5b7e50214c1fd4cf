//! Adding and dropping indices.

ghost use Rattle.table_changes.specs.Changed.{Makes};
ghost use Rattle.table_changes.specs.Indices.{add_index_step, drop_index_step};

use crate::changed::{Changed, Refusal};
use key_extract::Text;
use table_cmd::{Kind, Names};
use table_records::Records;
use table_schema::define_index;
use table_terms::{Kinds, index_named};

/// Adds an index of this name, kind and key, the last.
#[tactic(auto, unfolding(crate::specs::Indices::add_defined))]
pub(crate) fn add_index(
    records: &mut Records,
    name: &Text,
    kind: Kind,
    unique: bool,
    key: &Option<Names>,
) -> Result<Changed, Refusal>
    ensures { Makes result records.old records.new
        (add_index_step records.old name.now kind unique key.now) }
{
    let texts = match key {
        Some(names) => Some(names.as_slice()),
        None => None,
    };
    let spec = records.spec();
    let index = define_index(spec.columns(), spec.indices(), name, kind, unique, texts)?;
    records.add_index(index)?;
    Ok(Changed::Done)
}

/// Drops the named index.
#[tactic(auto, unfolding(crate::specs::Indices::drop_at))]
pub(crate) fn drop_index(records: &mut Records, name: &Text) -> Result<Changed, Refusal>
    ensures { Makes result records.old records.new (drop_index_step records.old name.now) }
{
    let index = index_named(records.spec().indices(), Kinds::All, name.as_str())?;
    records.drop_index(index)?;
    Ok(Changed::Done)
}
