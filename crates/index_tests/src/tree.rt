//! A thousand ids put in from one end, from both or in the middle, and the comparisons that find each.

use crate::lone::{Lone, Search};
use crate::numbers::{End, Numbers, a_thousand};
use crate::rows::{keys, probe, row};
use container_model::Kind;
use key_extract::{Probe, Row, RowKeys};
use std::alloc::Global;

// The most comparisons that find one of these, where all are there.
fn most_compared(tree: &Lone<Row, RowKeys>, probes: &[Probe]) -> Option<u64> {
    let mut most = 0;
    for probe in probes {
        let (found, compared) = tree.searched(Search::Find, probe)?;
        if found.is_none() {
            return None;
        }
        most = most.max(compared);
    }
    Some(most)
}

// The most comparisons that find one of a thousand ids.
fn most_at(end: End, alloc: Global) -> Option<u64> {
    let mut rows = Vec::new(alloc);
    let mut probes = Vec::new(alloc);
    for id in &a_thousand(end, alloc)? {
        rows.push(row(alloc, i64::from(*id)).ok()?).ok()?;
        probes.push(probe(alloc, i64::from(*id)).ok()?).ok()?;
    }
    let mut tree = Lone::new(alloc, Kind::Ordered, 0, 0, keys(alloc).ok()?)?;
    tree.fill(rows)?;
    most_compared(&tree, &probes)
}

/// Whether each of a thousand ids is found by twenty comparisons, and some by ten, whatever the end at which they came.
pub(crate) fn are_found_by_few(alloc: Global) -> Option<bool> {
    for end in End::EACH {
        let most = most_at(end, alloc)?;
        if !(10..=20).contains(&most) {
            return Some(false);
        }
    }
    Some(true)
}

// The most comparisons that a search for a number up to the count took, where those below it alone are found and the
// calls of the keys are as many as the search says.
fn most_counted(tree: &Lone<u64, Numbers>, count: u64) -> Option<u64> {
    let mut most = 0u64;
    for id in 0..count.saturating_add(1) {
        tree.keys().restart();
        let (found, comparisons) = tree.searched(Search::Find, &id)?;
        if found.is_some() != (id < count) || tree.keys().compared() != comparisons {
            return None;
        }
        most = most.max(comparisons);
    }
    Some(most)
}

// The most comparisons that a search takes in a tree of so many numbers.
fn most_of(alloc: Global, count: u64) -> Option<u64> {
    let mut values = Vec::new(alloc);
    for id in 0..count {
        values.push(id).ok()?;
    }
    let mut tree = Lone::new(alloc, Kind::Ordered, 2, 5, Numbers::new())?;
    tree.fill(values)?;
    most_counted(&tree, count)
}

/// Whether a search makes as many comparisons as it says, and no more than these among so many numbers.
pub(crate) fn comparisons_are_counted(alloc: Global) -> Option<bool> {
    for (count, bound) in [(0, 0), (1, 2), (100, 14)] {
        if most_of(alloc, count)? > bound {
            return Some(false);
        }
    }
    Some(true)
}
