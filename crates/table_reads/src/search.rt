//! Searching an index by a key.

ghost use Rattle.std.specs.Prelude.{◌≡◌};
ghost use Rattle.table_reads.specs.Found.{Reads};
ghost use Rattle.table_reads.specs.Searches.{search_kinds, search_probe, search_step};
ghost use Rattle.table_terms.specs.Words.{IsKeyAt};

use crate::found::{Found, Refusal};
use key_extract::{Probe, Text};
use std::alloc::Global;
use table_cmd::Key;
use table_records::Records;
use table_terms::{Kinds, key_for};

/// What a search by a key finds.
#[derive(Clone, Copy, Debug, PartialEq, Eq)]
pub(crate) enum Search {
    /// The first record that has the key.
    Find,
    /// How many have it.
    Count,
    /// The first that does not come before it.
    Lower,
    /// The first that comes after it.
    Upper,
    /// The rank of the first that has it.
    FindRank,
    /// The rank of the first that does not come before it.
    LowerRank,
    /// The rank of the first that comes after it.
    UpperRank,
}

impl Search {
    fn kinds(self) -> Kinds
        ensures { result ≡ search_kinds self }
    {
        match self {
            Search::Find | Search::Count => Kinds::Keyed,
            Search::Lower | Search::Upper => Kinds::Sorted,
            Search::FindRank | Search::LowerRank | Search::UpperRank => Kinds::Ranked,
        }
    }
}

/// Finds what the search asks for by the key of the values at the named index.
pub(crate) fn find_by<'a>(
    alloc: Global,
    records: &'a Records,
    search: Search,
    name: &Text,
    key: &Key,
) -> Result<Found<'a>, Refusal>
    ensures { Reads records.now result (search_step records.now search name.now key.now) }
{
    let (index, probe) = key_for(
        alloc,
        records.spec(),
        search.kinds(),
        name.as_str(),
        key.as_slice(),
    )??;
    find_at(records, search, index, &probe)
}

#[tactic(auto, unfolding(crate::specs::Searches::search_probe))]
fn find_at<'a>(
    records: &'a Records,
    search: Search,
    index: usize,
    probe: &Probe,
) -> Result<Found<'a>, Refusal>
    requires { IsKeyAt records.now.shape index probe.now }
    ensures { Reads records.now result (search_probe records.now search index probe.now) }
{
    let container = records.container();
    match search {
        Search::Find => Ok(Found::Position(container.find(index, probe)?)),
        Search::Count => Ok(Found::Number(container.count(index, probe)?)),
        Search::Lower => Ok(Found::Position(container.lower(index, probe)?)),
        Search::Upper => Ok(Found::Position(container.upper(index, probe)?)),
        Search::FindRank => Ok(Found::Number(container.find_rank(index, probe)?)),
        Search::LowerRank => Ok(Found::Number(container.lower_rank(index, probe)?)),
        Search::UpperRank => Ok(Found::Number(container.upper_rank(index, probe)?)),
    }
}
