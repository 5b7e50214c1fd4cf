//! Indices of a table that is there.
ghost use Rattle.std.specs.Prelude.{◌≡◌, IfOk, IfErr, Some, option_map};
ghost use Rattle.table_schema.specs.declared.define.DefineFault.TheVariants.{Memory as OutOfMemory};
ghost use Rattle.table_schema.specs.Defined.{given_key, defined, IsFault, IsNewIndex};

use crate::column::{Column, IndexSpec};
use crate::limits::{MOST_INDICES, MOST_PARTS, is_within};
use crate::names::is_new_name;
use crate::resolve::{is_good_key, key_of_texts};
use container_model::Kind;
use key_extract::{KeySpec, Text};
use std::alloc::AllocError;
use thiserror::Error;

/// Why an index is not defined.
#[derive(Clone, Copy, Debug, PartialEq, Eq, Error)]
pub enum DefineFault {
    /// There are eight indices, the name is none or an index's, or the key is none for the kind.
    #[error("there are eight indices, the name is none or an index's, or the key is none for the kind")]
    Definition,
    /// Memory was refused.
    #[error("out of memory")]
    Memory,
}

impl From<AllocError> for DefineFault {
    ghost from_gives = { λ _ why. why ≡ OutOfMemory };

    fn from(_error: AllocError) -> DefineFault {
        DefineFault::Memory
    }
}

// The key that the texts name, where they may be the parts of one, or that there is none.
fn given_key(columns: &[Column], key: Option<&[Text]>) -> Option<Option<KeySpec>>
    ensures { result ≡ given_key columns.now (option_map (λ texts. texts.now) key.entry) }
{
    match key {
        Some(texts) if is_within(1, MOST_PARTS, texts.len()) => {
            key_of_texts(columns, texts).map(Some)
        }
        Some(_) => None,
        None => Some(None),
    }
}

/// An index for a table that has these columns and indices: of this name, kind and key, whose texts each name a column, with
/// a `-` before it for a falling part. The name is to be new, and what a schema asks of names, keys and their number is asked
/// here. What may not be is told before memory is taken. O(indices + texts · columns).
pub fn define_index(
    columns: &[Column],
    indices: &[IndexSpec],
    name: &Text,
    kind: Kind,
    unique: bool,
    key: Option<&[Text]>,
) -> Result<IndexSpec, DefineFault>
    ensures defined { IfOk result (λ index. defined columns.now indices.now (record { name = name.now; kind = kind; unique = unique; key = option_map (λ texts. texts.now) key.entry }) ≡ Some index) }
    ensures fits { IfOk result (λ index. IsNewIndex columns.now indices.now index) }
    ensures fault { IfErr result (λ why. IsFault (defined columns.now indices.now (record { name = name.now; kind = kind; unique = unique; key = option_map (λ texts. texts.now) key.entry })) why) }
{
    if indices.len() >= MOST_INDICES || !is_new_name(name.as_str(), indices) {
        return Err(DefineFault::Definition);
    }
    let Some(key) = given_key(columns, key) else {
        return Err(DefineFault::Definition);
    };
    if !is_good_key(columns.len(), kind, unique, &key) {
        return Err(DefineFault::Definition);
    }
    let Ok(name) = name.copy() else {
        return Err(DefineFault::Memory);
    };
    Ok(IndexSpec {
        name,
        kind,
        unique,
        key,
    })
}
