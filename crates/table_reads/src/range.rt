//! Listing a part of an index.

ghost use Rattle.std.specs.Prelude.{◌<◌, length};
ghost use Rattle.table_reads.specs.Found.{Reads};
ghost use Rattle.table_reads.specs.Ranges.{range_in, range_step};
ghost use Rattle.table_terms.specs.Bounds.{IsBoundAt};

use crate::found::{Found, Refusal};
use key_extract::Text;
use std::alloc::Global;
use table_cmd::KeyBound;
use table_records::Records;
use table_reply::Fault;
use table_terms::{Kinds, ProbeBound, bounds_for, index_named};

/// Finds the records of the named index between two bounds, in its order.
pub(crate) fn range<'a>(
    alloc: Global,
    records: &'a Records,
    name: &Text,
    low: &KeyBound,
    high: &KeyBound,
) -> Result<Found<'a>, Refusal>
    ensures { Reads records.now result (range_step records.now name.now low.now high.now) }
{
    let index = index_named(records.spec().indices(), Kinds::Sorted, name.as_str())?;
    let Some((low, high)) = bounds_for(alloc, records.spec(), index, low, high)? else {
        return Err(Refusal::Fault(Fault::Key));
    };
    range_in(records, index, &low, &high)
}

#[tactic(auto, unfolding(crate::specs::Ranges::range_in))]
fn range_in<'a>(
    records: &'a Records,
    index: usize,
    low: &ProbeBound,
    high: &ProbeBound,
) -> Result<Found<'a>, Refusal>
    requires within { index < length records.now.shape.indices }
    requires low { IsBoundAt records.now.shape index low.now }
    requires high { IsBoundAt records.now.shape index high.now }
    ensures { Reads records.now result (range_in records.now index low.now high.now) }
{
    let container = records.container();
    let handles = container.range(index, low.as_bound(), high.as_bound())?;
    Ok(Found::Records(handles))
}
