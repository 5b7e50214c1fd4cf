//! The indices of a table, as its container takes them.

ghost use Rattle.std.specs.Prelude.{◌≡◌, IfOk, map};
ghost use Rattle.table_terms.specs.Table.{spec_of};

use container_model::Spec;
use key_extract::RowKeys;
use std::alloc::{AllocError, Global};
use table_schema::IndexSpec;

/// The keys of the indices in their order.
pub(crate) fn keys_of(alloc: Global, indices: &[IndexSpec]) -> Result<RowKeys, AllocError>
    ensures { IfOk result (λ keys. keys ≡ map (λ i. i.key) indices.now) }
{
    let mut keys = Vec::with_capacity(alloc, indices.len())?;
    for index in indices {
        keys.push(index.key.as_ref().map(|key| key.copy()))?;
    }
    RowKeys::new(alloc, &keys)
}

/// The kinds of the indices in their order.
pub(crate) fn specs_of(alloc: Global, indices: &[IndexSpec]) -> Result<Vec<Spec>, AllocError>
    ensures { IfOk result (λ specs. specs.items ≡ map spec_of indices.now) }
{
    let mut specs = Vec::with_capacity(alloc, indices.len())?;
    for index in indices {
        specs.push(Spec {
            kind: index.kind,
            unique: index.unique,
        })?;
    }
    Ok(specs)
}
