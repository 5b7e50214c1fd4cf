//! Searches by a key.
ghost use Rattle.std.specs.Prelude.{◌<◌, IsTrue, length, ⊤};
ghost use Rattle.std.specs.Range.Bound.{MatchBound};
ghost use Rattle.container_model.specs.State.{is_sorted_kind};
ghost use Rattle.container_model.specs.Find.{kind_at};
ghost use Rattle.key_extract.specs.Keys.{parts_at, probe_fits};

use super::Watched;
use crate::lists::{Cut, IN_ORDER, WITH_KEYS, WITH_RANKS, answer_of, at};
use crate::tally::{Call, Tallies};
use container_model::{Handle, Why};
use key_extract::Probe;
use std::cmp::Ordering;
use std::ops::Bound;

/// A search by a key that a record answers, or the end.
#[derive(Clone, Copy)]
pub(crate) enum Search {
    Find,
    Lower,
    Upper,
}

/// A search by a key that a number answers.
#[derive(Clone, Copy)]
pub(crate) enum Measure {
    Count,
    FindRank,
    LowerRank,
    UpperRank,
}

impl Watched {
    /// Compares the answers to a search that a record answers, where the index can be searched by the key.
    pub(crate) fn search(
        &self,
        search: Search,
        index: usize,
        probe: &Probe,
        tallies: &mut Tallies,
    ) {
        if !self.may_search(index, probe) {
            return;
        }
        let list = self.list(index);
        let cut = self.cut(index, list, probe);
        let (container, kind) = (&self.container, self.specs[index].kind);
        match search {
            Search::Find => tallies.compare_records(
                Call::Find,
                container.find(index, probe),
                answer_of(&WITH_KEYS, kind, cut.first),
            ),
            Search::Lower => tallies.compare_records(
                Call::Lower,
                container.lower(index, probe),
                answer_of(&IN_ORDER, kind, at(list, cut.below)),
            ),
            Search::Upper => tallies.compare_records(
                Call::Upper,
                container.upper(index, probe),
                answer_of(&IN_ORDER, kind, at(list, cut.up_to())),
            ),
        }
    }

    /// Compares the answers to a search that a number answers, where the index can be searched by the key.
    pub(crate) fn measure(
        &self,
        measure: Measure,
        index: usize,
        probe: &Probe,
        tallies: &mut Tallies,
    ) {
        if !self.may_search(index, probe) {
            return;
        }
        let list = self.list(index);
        let cut = self.cut(index, list, probe);
        let (container, kind) = (&self.container, self.specs[index].kind);
        match measure {
            Measure::Count => tallies.compare_numbers(
                Call::Count,
                container.count(index, probe),
                answer_of(&WITH_KEYS, kind, cut.equal as u64),
            ),
            Measure::FindRank => tallies.compare_numbers(
                Call::FindRank,
                container.find_rank(index, probe),
                answer_of(&WITH_RANKS, kind, cut.rank(list) as u64),
            ),
            Measure::LowerRank => tallies.compare_numbers(
                Call::LowerRank,
                container.lower_rank(index, probe),
                answer_of(&WITH_RANKS, kind, cut.below as u64),
            ),
            Measure::UpperRank => tallies.compare_numbers(
                Call::UpperRank,
                container.upper_rank(index, probe),
                answer_of(&WITH_RANKS, kind, cut.up_to() as u64),
            ),
        }
    }

    /// Compares the records between two bounds, where the index can be searched by them.
    pub(crate) fn range(
        &self,
        index: usize,
        low: Bound<&Probe>,
        high: Bound<&Probe>,
        tallies: &mut Tallies,
    )
        requires { index < length self.now.specs }
    {
        if !self.may_bound(index, low) || !self.may_bound(index, high) {
            return;
        }
        let wanted = answer_of(&IN_ORDER, self.specs[index].kind, ());
        let same = match &self.container.range(index, low, high) {
            Ok(handles) => wanted.is_ok() && handles.as_slice() == self.between(index, low, high),
            Err(why) => wanted == Err(*why),
        };
        tallies.count(Call::Range, wanted.err(), same);
    }

    // The records between two bounds.
    fn between(&self, index: usize, low: Bound<&Probe>, high: Bound<&Probe>) -> &[Handle] {
        let list = self.list(index);
        let start = match low {
            Bound::Included(probe) => self.cut(index, list, probe).below,
            Bound::Excluded(probe) => self.cut(index, list, probe).up_to(),
            Bound::Unbounded => 0,
        };
        let end = match high {
            Bound::Included(probe) => self.cut(index, list, probe).up_to(),
            Bound::Excluded(probe) => self.cut(index, list, probe).below,
            Bound::Unbounded => list.len(),
        };
        list.get(start..end).unwrap_or(&[])
    }

    // Whether the index can be searched by the bound.
    fn may_bound(&self, index: usize, bound: Bound<&Probe>) -> bool
        ensures { IsTrue result → IsTrue (is_sorted_kind (kind_at self.now index)) →
            MatchBound bound.entry (λ p. IsTrue (probe_fits (parts_at self.now.keys index) p.now))
            (λ p. IsTrue (probe_fits (parts_at self.now.keys index) p.now)) ⊤ }
    {
        match bound {
            Bound::Included(probe) | Bound::Excluded(probe) => self.may_search(index, probe),
            Bound::Unbounded => true,
        }
    }

    // How a list stands to a search, where the index has a key.
    fn cut(&self, index: usize, list: &[Handle], probe: &Probe) -> Cut {
        let mut cut = Cut {
            below: 0,
            equal: 0,
            first: None,
        };
        for handle in list {
            match self.side(index, *handle, probe) {
                Some(Ordering::Less) => cut.below = cut.below.saturating_add(1),
                Some(Ordering::Equal) => {
                    cut.equal = cut.equal.saturating_add(1);
                    cut.first = cut.first.or(Some(*handle));
                }
                Some(Ordering::Greater) | None => {}
            }
        }
        cut
    }
}
