//! Search keys at named indices.

ghost use Rattle.std.specs.Prelude.{◌≡◌, ◌<◌, Err, IfOk, Ok, length};
ghost use Rattle.key_extract.specs.Keys.{parts_at};
ghost use Rattle.table_terms.specs.Table.{keys_of};
ghost use Rattle.table_terms.specs.Words.{IsKeyAt, key_for, whole_key_for};

use crate::indices::index_named;
use crate::kinds::Kinds;
use crate::values::{parts_of, probe_from};
use key_extract::{Part, Probe};
use std::alloc::{AllocError, Global};
use table_cmd::Value;
use table_reply::Fault;
use table_schema::TableSpec;

/// The number of the index of a name, where it is of one of the kinds, and the search key that the values are there. The
/// faults are `index`, `kind` and `key`. O(indices + values · longest text).
pub fn key_for(
    alloc: Global,
    spec: &TableSpec,
    kinds: Kinds,
    name: &str,
    values: &[Value],
) -> Result<Result<(usize, Probe), Fault>, AllocError>
    ensures key { IfOk result (λ key. key ≡ key_for spec.now kinds name.now values.now) }
    ensures searches { IfOk result (λ key. IfOk key (λ at. IsKeyAt spec.now at.0 at.1)) }
{
    let index = match index_named(spec.indices(), kinds, name) {
        Ok(index) => index,
        Err(why) => return Ok(Err(why)),
    };
    match probe_from(alloc, spec.columns(), &spec.indices()[index], values)? {
        Some(probe) => Ok(Ok((index, probe))),
        None => Ok(Err(Fault::Key)),
    }
}

// The parts of the key of the index of a number.
pub(crate) fn parts_at(spec: &TableSpec, index: usize) -> &[Part]
    requires { index < length spec.now.indices }
    ensures { result.now ≡ parts_at (keys_of spec.now) index }
{
    parts_of(&spec.indices()[index])
}

/// The number of the index of a name, where it has a key, and that key whole, which the values are. The faults are `index`,
/// `kind` and `key`. O(indices + values · longest text).
pub fn whole_key_for(
    alloc: Global,
    spec: &TableSpec,
    name: &str,
    values: &[Value],
) -> Result<Result<(usize, Probe), Fault>, AllocError>
    ensures key { IfOk result (λ key. key ≡ whole_key_for spec.now name.now values.now) }
    ensures within { IfOk result (λ key. IfOk key (λ at. at.0 < length spec.now.indices)) }
{
    let (index, probe) = match key_for(alloc, spec, Kinds::Keyed, name, values)? {
        Ok(key) => key,
        Err(why) => return Ok(Err(why)),
    };
    if probe.cells().len() == parts_at(spec, index).len() {
        Ok(Ok((index, probe)))
    } else {
        Ok(Err(Fault::Key))
    }
}
