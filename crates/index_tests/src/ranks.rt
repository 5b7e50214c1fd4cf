//! A thousand ids: each place and its node are found by few links, also once every second id has gone.

use crate::lone::Lone;
use crate::rows::{keys, row};
use container_model::Kind;
use key_extract::{Extract, Row, RowKeys};
use std::alloc::Global;

// Takes the node after each of so many places out, as long as there is one.
fn thin(tree: &mut Lone<Row, RowKeys>, places: u64) {
    for place in 0..places {
        if !tree.leave_at(place.saturating_add(1)) {
            return;
        }
    }
}

/// The most links that lead to one of so many places, where to the root alone leads none.
pub(crate) fn most_followed<R: Drop, E: Extract<R> + Drop>(
    tree: &Lone<R, E>,
    places: u64,
) -> Option<u64> {
    let mut most = 0;
    let mut roots = 0u64;
    for place in 0..places {
        let (_, links) = tree.links_to(place)?;
        if links == 0 {
            roots = roots.wrapping_add(1);
        }
        most = most.max(links);
    }
    if roots == 1 { Some(most) } else { None }
}

// Whether each of so many places has its node: the one at place p was put in as the (143 p % 1000)th, with steps of 7.
fn is_in_steps(tree: &Lone<Row, RowKeys>, places: u64, step: u64) -> bool {
    for place in 0..places {
        let expected = place.wrapping_mul(step).wrapping_mul(143) % 1000;
        match tree.links_to(place) {
            Some((number, _)) if number == expected => {}
            _ => return false,
        }
    }
    true
}

// A tree of so many ids, the multiples of the step but for thousands.
fn filled(alloc: Global, ids: u16, step: u16) -> Option<Lone<Row, RowKeys>> {
    let mut rows = Vec::new(alloc);
    for left in 0..ids {
        let id = u32::from(ids - 1 - left).wrapping_mul(u32::from(step)) % 1000;
        rows.push(row(alloc, i64::from(id)).ok()?).ok()?;
    }
    let mut tree = Lone::new(alloc, Kind::Ranked, 0, 0, keys(alloc).ok()?)?;
    tree.fill(rows)?;
    Some(tree)
}

// The most links that are followed among a thousand ids, and among every second of them.
fn most_among(alloc: Global) -> Option<(u64, u64)> {
    let mut tree = filled(alloc, 1000, 7)?;
    if !is_in_steps(&tree, 1000, 1) {
        return None;
    }
    let all = most_followed(&tree, 1000)?;
    thin(&mut tree, 500);
    if !is_in_steps(&tree, 500, 2) {
        return None;
    }
    let half = most_followed(&tree, 500)?;
    Some((all, half))
}

// Whether each place of a tree of nine full levels, and its node, takes as many links as the node has above it, and the
// place after the last one step beyond the last node.
fn counts_each_link(tree: &Lone<Row, RowKeys>) -> Option<bool> {
    for place in 0..511u64 {
        let (_, links) = tree.links_to(place)?;
        if links != 8u64.saturating_sub(u64::from((place + 1).trailing_zeros())) {
            return Some(false);
        }
    }
    Some(tree.links_beyond(511) == Some(9))
}

/// The same where the ids rise, as they make each level full before the next.
pub(crate) fn counts_rising(alloc: Global) -> Option<bool> {
    counts_each_link(&filled(alloc, 511, 1)?)
}

/// Whether twenty links lead to each place of a thousand ids, and eighteen to each of every second one; nine and eight to
/// some.
pub(crate) fn links_are_few(alloc: Global) -> Option<bool> {
    let (all, half) = most_among(alloc)?;
    Some((9..=20).contains(&all) && (8..=18).contains(&half))
}
