//! Bounds of ranges.

ghost use Rattle.std.specs.Prelude.{◌≡◌, ◌<◌, IfOk, IfSome, length};
ghost use Rattle.std.specs.Range.Bound.{bound_map};
ghost use Rattle.table_terms.specs.Bounds.{IsBoundAt, bound_at, bounds_at, end_of, probe_there};
ghost use Rattle.table_terms.specs.Words.{IsKeyAt};

use crate::values::probe_from;
use key_extract::Probe;
use std::alloc::{AllocError, Global};
use std::ops::Bound;
use table_cmd::{KeyBound, Value};
use table_schema::TableSpec;

/// Where a range of an index ends on one side, by the records whose key a search key is or begins.
#[derive(Drop)]
pub enum ProbeBound {
    /// They are still in the range.
    Included(Probe),
    /// They are no longer in the range.
    Excluded(Probe),
    /// There is no bound on this side.
    Unbounded,
}

impl ProbeBound {
    /// The bound as the container takes it, as long as it is borrowed. O(1).
    pub fn as_bound(&self) -> Bound<&Probe>
        ensures { bound_map (λ p. p.now) result ≡ end_of self.now }
    {
        match self {
            ProbeBound::Included(probe) => Bound::Included(probe),
            ProbeBound::Excluded(probe) => Bound::Excluded(probe),
            ProbeBound::Unbounded => Bound::Unbounded,
        }
    }
}

// The search key that values are at the index of a number.
fn probe_there(
    alloc: Global,
    spec: &TableSpec,
    index: usize,
    values: &[Value],
) -> Result<Option<Probe>, AllocError>
    requires { index < length spec.now.indices }
    ensures probe { IfOk result (λ probe. probe ≡ probe_there spec.now index values.now) }
    ensures searches { IfOk result (λ probe. IfSome probe (IsKeyAt spec.now index)) }
{
    probe_from(alloc, spec.columns(), &spec.indices()[index], values)
}

// A bound with the search key that its values are at the index of a number.
fn bound_at(
    alloc: Global,
    spec: &TableSpec,
    index: usize,
    bound: &KeyBound,
) -> Result<Option<ProbeBound>, AllocError>
    requires { index < length spec.now.indices }
    ensures bound { IfOk result (λ found. found ≡ bound_at spec.now index bound.now) }
    ensures searches { IfOk result (λ found. IfSome found (IsBoundAt spec.now index)) }
{
    match bound {
        KeyBound::Included(key) => {
            let probe = probe_there(alloc, spec, index, key.as_slice())?;
            Ok(probe.map(ProbeBound::Included))
        }
        KeyBound::Excluded(key) => {
            let probe = probe_there(alloc, spec, index, key.as_slice())?;
            Ok(probe.map(ProbeBound::Excluded))
        }
        KeyBound::Unbounded => Ok(Some(ProbeBound::Unbounded)),
    }
}

/// Two bounds with the search keys that their values are at the index of a number, where each that has values has one.
/// O(values · longest text).
pub fn bounds_for(
    alloc: Global,
    spec: &TableSpec,
    index: usize,
    low: &KeyBound,
    high: &KeyBound,
) -> Result<Option<(ProbeBound, ProbeBound)>, AllocError>
    requires { index < length spec.now.indices }
    ensures bounds { IfOk result (λ found. found ≡ bounds_at spec.now index low.now high.now) }
    ensures searches { IfOk result (λ found. IfSome found (λ ends. IsBoundAt spec.now index ends.0 × IsBoundAt spec.now index ends.1)) }
{
    let Some(low) = bound_at(alloc, spec, index, low)? else {
        return Ok(None);
    };
    let Some(high) = bound_at(alloc, spec, index, high)? else {
        return Ok(None);
    };
    Ok(Some((low, high)))
}
