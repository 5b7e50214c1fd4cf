//! The index that a command names.

ghost use Rattle.std.specs.Prelude.{◌≡◌, ◌<◌, ◌-◌, [], IfOk, IfSome, IsTrue, length, slice_get};
ghost use Rattle.std.specs.List.{list_all};
ghost use Rattle.std.specs.Option.{option_map_or};
ghost use Rattle.table_reply.specs.Plain.{is_plain};
ghost use Rattle.table_schema.specs.Valid.{IsValidTable};
ghost use Rattle.table_terms.specs.Words.{index_at, index_named};

use crate::kinds::Kinds;
use table_reply::{Fault, PlainText};
use table_schema::{IndexSpec, TableSpec};

// The number of the index of a name.
fn index_at(indices: &[IndexSpec], name: &str) -> Option<usize>
    ensures index { result ≡ index_at indices.now name.now }
    ensures within { IfSome result (λ index. index < length indices.now) }
{
    indices.iter().position(|index| index.name.as_str() == name)
}

/// The number of the index of a name, counted from 0. The fault is `index` where no index has the name, and `kind` where
/// the index is of none of the kinds. O(indices).
pub fn index_named(indices: &[IndexSpec], kinds: Kinds, name: &str) -> Result<usize, Fault>
    ensures index { result ≡ index_named kinds indices.now name.now }
    ensures within { IfOk result (λ index. index < length indices.now) }
{
    let Some(index) = index_at(indices, name) else {
        return Err(Fault::Index);
    };
    if kinds.takes(indices[index].kind) {
        Ok(index)
    } else {
        Err(Fault::Kind)
    }
}

// The name of the index of a number; an empty one where there is none.
#[tactic(auto, using(std::proofs::lemmas::Option::slice_get_past))]
fn name_at(spec: &TableSpec, index: usize) -> &str
    ensures name { result.now ≡ option_map_or (λ i. i.name) (slice_get spec.now.indices index) [] }
    ensures valid { IsValidTable spec.now }
{
    let indices = spec.indices();
    if index < indices.len() {
        indices[index].name.as_str()
    } else {
        ""
    }
}

/// The name of the index of a number.
pub(crate) fn index_name(spec: &TableSpec, index: usize) -> PlainText<'_>
    ensures name { result ≡ option_map_or (λ i. i.name) (slice_get spec.now.indices index) [] }
    ensures plain { IsTrue (list_all is_plain result) }
    ensures valid { IsValidTable spec.now }
{
    match PlainText::new(name_at(spec, index)) {
        Some(name) => name,
        None => unreachable!(),
    }
}

/// The name of the last index.
#[tactic(auto, using(table_schema::proofs::Facts::within_low))]
pub(crate) fn last_index_name(spec: &TableSpec) -> PlainText<'_>
    ensures name { result ≡ option_map_or (λ i. i.name)
        (slice_get spec.now.indices (length spec.now.indices - 1)) [] }
    ensures plain { IsTrue (list_all is_plain result) }
    ensures valid { IsValidTable spec.now }
{
    index_name(spec, spec.indices().len() - 1)
}
