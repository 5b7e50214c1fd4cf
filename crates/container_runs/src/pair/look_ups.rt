//! The look-ups by an index that was added, beside those by the same index of a container that was made with it.
ghost use Rattle.std.specs.Prelude.{◌<◌, IsTrue, length, ⊤};
ghost use Rattle.std.specs.Range.Bound.{MatchBound};
ghost use Rattle.container_model.specs.State.{is_sorted_kind};
ghost use Rattle.container_model.specs.Find.{kind_at};
ghost use Rattle.key_extract.specs.Keys.{parts_at, probe_fits};

use super::Pair;
use crate::index_tally::Event;
use crate::indices::{Index, Indices};
use crate::limits::Limits;
use crate::tally::Tally;
use container_model::{Handle, Why};
use key_extract::{Part, Probe, Row};
use std::alloc::{AllocError, Global};
use std::ops::Bound;

const ALONE: Limits = Limits {
    most: 1,
    max: u32::MAX,
    first_write: 0,
};

// A handle of no record.
const NONE: Handle = Handle {
    slot: u32::MAX,
    stamp: 0,
};

// What an index answers to a search by a key, or at a position.
#[derive(Clone, Copy)]
struct Answers {
    records: [Result<Option<Handle>, Why>; 3],
    numbers: [Result<u64, Why>; 4],
}

// The record that came as that of a container which was given all of them by age.
fn renamed(answer: Result<Option<Handle>, Why>, ages: &[Handle]) -> Result<Option<Handle>, Why> {
    match answer {
        Ok(Some(handle)) => Ok(ages.get(handle.slot as usize).copied()),
        _ => answer,
    }
}

// Whether they are those of such a container.
fn are_renamed(answers: &Answers, made: &Answers, ages: &[Handle]) -> bool {
    for at in 0..3 {
        if answers.records[at] != renamed(made.records[at], ages) {
            return false;
        }
    }
    answers.numbers == made.numbers
}

// The same of a list.
fn is_renamed(
    answer: Result<Vec<Handle>, Why>,
    made: Result<Vec<Handle>, Why>,
    ages: &[Handle],
) -> bool {
    match (&answer, &made) {
        (Ok(list), Ok(made)) => list.len() == made.len() && is_list_renamed(list, made, ages),
        (Err(why), Err(other)) => why == other,
        _ => false,
    }
}

fn is_list_renamed(list: &[Handle], made: &[Handle], ages: &[Handle]) -> bool {
    for (place, handle) in made.iter().enumerate() {
        if list.get(place) != ages.get(handle.slot as usize) {
            return false;
        }
    }
    true
}

// A search by the first so many parts of a row's key, or by those before the first that it lacks.
fn probe_of(alloc: Global, row: &Row, parts: &[Part], count: usize) -> Result<Probe, AllocError> {
    let mut cells = Vec::new(alloc);
    for part in parts.iter().take(count) {
        match row.cells().get(part.column) {
            Some(cell) => cells.push(cell.copy()?)?,
            None => return Ok(Probe::new(cells)),
        }
    }
    Ok(Probe::new(cells))
}

// A pair without records, under the index alone.
fn alone_with(alloc: Global, index: &Index) -> Result<Option<Pair>, AllocError> {
    let indices = Indices::read(alloc, "")?.with(index)?;
    Pair::new(alloc, &indices, ALONE)
}

impl Pair {
    // Compares the look-ups by the last index, of each place, of each record's key and its leading part, and of these keys.
    pub(super) fn same_look_ups(
        &self,
        index: &Index,
        probes: &[Probe],
        tally: &mut Tally,
    ) -> Result<bool, AllocError> {
        let Some(ages) = self.plain.by_age(self.alloc()) else {
            return Ok(false);
        };
        let own = self.own_probes(index, &ages)?;
        let at = self.indices().saturating_sub(1);
        match self.made_with(index, &ages)? {
            Some(made) => Ok(
                self.same_order(at, &made, &ages, tally)
                    && self.same_searches(at, &made, &ages, probes, tally)
                    && self.same_searches(at, &made, &ages, &own, tally),
            ),
            None => Ok(false),
        }
    }

    // Compares the views and the answers at each place, where there are such indices.
    fn same_order(&self, at: usize, made: &Pair, ages: &[Handle], tally: &mut Tally) -> bool {
        if at >= self.indices() || made.indices() < 1 {
            return false;
        }
        is_renamed(self.container.view(at), made.container.view(0), ages)
            && self.same_places(at, made, ages, tally)
    }

    // A pair that was made with the index alone, whose container is given the records by age.
    fn made_with(&self, index: &Index, ages: &[Handle]) -> Result<Option<Pair>, AllocError> {
        let Some(mut made) = alone_with(self.alloc(), index)? else {
            return Ok(None);
        };
        match made.copy_each(self, ages) {
            Ok(true) => Ok(Some(made)),
            Ok(false) => Ok(None),
            Err(why) => Err(why),
        }
    }

    // Puts copies of another pair's records into the container alone. Answers whether it took each.
    fn copy_each(&mut self, other: &Pair, handles: &[Handle]) -> Result<bool, AllocError> {
        for handle in handles {
            if !self.copy_in(other, *handle)? {
                return Ok(false);
            }
        }
        Ok(true)
    }

    // Puts a copy of one of them in. Answers whether it was taken.
    fn copy_in(&mut self, other: &Pair, handle: Handle) -> Result<bool, AllocError> {
        match other.container.get(handle) {
            Ok(row) => Ok(self.insert_in_container(None, row.copy()?).is_ok()),
            Err(_) => Ok(false),
        }
    }

    // Each record's whole key, and its leading part.
    fn own_probes(&self, index: &Index, ages: &[Handle]) -> Result<Vec<Probe>, AllocError> {
        let mut probes = Vec::new(self.alloc());
        let Some(key) = &index.key else {
            return Ok(probes);
        };
        for handle in ages {
            if let Ok(row) = self.container.get(*handle) {
                probes.push(probe_of(self.alloc(), row, key.parts(), 1)?)?;
                probes.push(probe_of(self.alloc(), row, key.parts(), key.parts().len())?)?;
            }
        }
        Ok(probes)
    }

    // Compares the answers at each place and at the end.
    fn same_places(&self, at: usize, made: &Pair, ages: &[Handle], tally: &mut Tally) -> bool
        requires in_range { at < length self.now.specs }
        requires made { 0 < length made.now.specs }
    {
        for (place, handle) in ages.iter().enumerate() {
            let number = place as u64;
            let other = Handle {
                slot: u32::try_from(place).unwrap_or(u32::MAX),
                stamp: number.wrapping_add(1),
            };
            tally.index(Event::Place);
            let made = made.at_place(0, number, Some(other));
            if !are_renamed(&self.at_place(at, number, Some(*handle)), &made, ages) {
                return false;
            }
        }
        let end = ages.len() as u64;
        are_renamed(
            &self.at_place(at, end, None),
            &made.at_place(0, end, None),
            ages,
        )
    }

    // The answers at a place and at a position.
    fn at_place(&self, index: usize, place: u64, position: Option<Handle>) -> Answers
        requires { index < length self.now.specs }
    {
        let container = &self.container;
        Answers {
            records: [
                container.nth(index, place),
                container.project_next(index, position),
                container.project_prev(index, position),
            ],
            numbers: [
                container.rank(index, position),
                container.place_of(index, position.unwrap_or(NONE)),
                container.rank(index, None),
                Ok(container.len()),
            ],
        }
    }

    // Compares the answers to searches by these keys, where the index can be searched by them.
    fn same_searches(
        &self,
        at: usize,
        made: &Pair,
        ages: &[Handle],
        probes: &[Probe],
        tally: &mut Tally,
    ) -> bool {
        for probe in probes {
            let same = match (&self.searched(at, probe), &made.searched(0, probe)) {
                (Some(answers), Some(made)) => are_renamed(answers, made, ages),
                (None, None) => true,
                _ => false,
            };
            tally.index(Event::Key);
            if !same || !self.same_ranges(at, made, ages, probe) {
                return false;
            }
        }
        true
    }

    // The answers to a search, where the index can be searched by the key.
    fn searched(&self, index: usize, probe: &Probe) -> Option<Answers> {
        if !self.may_search(index, probe) {
            return None;
        }
        let container = &self.container;
        Some(Answers {
            records: [
                container.find(index, probe),
                container.lower(index, probe),
                container.upper(index, probe),
            ],
            numbers: [
                container.count(index, probe),
                container.find_rank(index, probe),
                container.lower_rank(index, probe),
                container.upper_rank(index, probe),
            ],
        })
    }

    // Compares the records up to a key, from it on, and with it.
    fn same_ranges(&self, at: usize, made: &Pair, ages: &[Handle], probe: &Probe) -> bool {
        let bounds = [
            (Bound::Unbounded, Bound::Excluded(probe)),
            (Bound::Unbounded, Bound::Included(probe)),
            (Bound::Included(probe), Bound::Included(probe)),
            (Bound::Included(probe), Bound::Unbounded),
            (Bound::Excluded(probe), Bound::Unbounded),
        ];
        for (low, high) in bounds {
            let same = match (self.between(at, low, high), made.between(0, low, high)) {
                (Some(answer), Some(made)) => is_renamed(answer, made, ages),
                (None, None) => true,
                _ => false,
            };
            if !same {
                return false;
            }
        }
        true
    }

    // The records between two bounds, where the index can be searched by them.
    fn between(
        &self,
        index: usize,
        low: Bound<&Probe>,
        high: Bound<&Probe>,
    ) -> Option<Result<Vec<Handle>, Why>> {
        if index >= self.indices() || !self.may_bound(index, low) || !self.may_bound(index, high) {
            return None;
        }
        Some(self.container.range(index, low, high))
    }

    // Whether the index can be searched by the bound.
    fn may_bound(&self, index: usize, bound: Bound<&Probe>) -> bool
        ensures { IsTrue result → IsTrue (is_sorted_kind (kind_at self.now index)) →
            MatchBound bound.entry (λ p. IsTrue (probe_fits (parts_at self.now.keys index) p.now))
            (λ p. IsTrue (probe_fits (parts_at self.now.keys index) p.now)) ⊤ }
    {
        match bound {
            Bound::Included(probe) | Bound::Excluded(probe) => self.may_search(index, probe),
            Bound::Unbounded => true,
        }
    }
}
