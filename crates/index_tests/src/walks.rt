//! Walks along each index that has an order: from its end, from both ends, and from a record.

use crate::items::{BY_GROUP, Item, RANKS, ROW, SEQUENCE, no_items};
use indexed::{FieldKeys, Handle, Indexed, Iter, Search, View, Walked};
use std::alloc::Global;

// Whether the next record of a walk, from its front or its back, is the one that is due there, and those that are due after it.
fn step<'a>(
    walk: &mut Iter<'_, Item, FieldKeys>,
    left: &'a [Handle],
    is_front: bool,
) -> Option<(bool, &'a [Handle])> {
    if is_front {
        let (due, rest) = left.split_first()?;
        let (met, _) = walk.next()?;
        Some((met == *due, rest))
    } else {
        let (due, rest) = left.split_last()?;
        let (met, _) = walk.next_back()?;
        Some((met == *due, rest))
    }
}

// Whether a walk meets these records and no more, where each bit of `ends` says from which end the next one is taken.
fn meets(mut walk: Iter<'_, Item, FieldKeys>, records: &[Handle], ends: u64) -> Option<bool> {
    let mut left = records;
    for place in 0..records.len() {
        let (is_due, rest) = step(&mut walk, left, ends >> (place % 64) & 1 == 0)?;
        if !is_due {
            return Some(false);
        }
        left = rest;
    }
    Some(walk.next().is_none() && walk.next_back().is_none() && walk.next().is_none())
}

// Whether a walk meets these records, the last first.
fn meets_back(alloc: Global, walk: Iter<'_, Item, FieldKeys>, records: &[Handle]) -> Option<bool> {
    let mut met = Vec::new(alloc);
    for (handle, _) in walk.rev() {
        met.push(handle).ok()?;
    }
    met.reverse();
    Some(met.as_slice() == records)
}

// Whether the walks from each record on, and up to it, meet what they should, and so do those of all.
fn agrees<K: Walked>(alloc: Global, index: &View<'_, Item, K>) -> Option<bool> {
    let all = index.list().ok()?;
    for place in 0..=all.len() {
        let (before, after) = all.split_at(place);
        let here = after.first().copied();
        let holds = meets(index.iter_from(here).ok()?, after, 0x5a5a)?
            && meets_back(alloc, index.iter_from(here).ok()?, after)?
            && meets(index.iter_to(here).ok()?, before, 0xa5c3)?
            && meets_back(alloc, index.iter_to(here).ok()?, before)?;
        if !holds {
            return Some(false);
        }
    }
    Some(meets(index.iter(), &all, 0x6)? && meets_back(alloc, index.iter(), &all)?)
}

// Whether a walk of one key meets its records from either end, and one between turned bounds meets none.
fn groups_agree(alloc: Global, items: &Indexed<Item>) -> Option<bool> {
    let (low, high) = (Search::unsigned(1), Search::unsigned(3));
    let index = items.index(BY_GROUP);
    let mut group = Vec::new(alloc);
    for (handle, item) in index.iter() {
        if item.group == 3 {
            group.push(handle).ok()?;
        }
    }
    let agree = meets(index.equal(&high), &group, 0x2)?
        && meets_back(alloc, index.equal(&high), &group)?
        && meets(index.between(&high, &low), &[], 0)?
        && meets_back(alloc, index.between(&high, &low), &[])?;
    Some(agree && group.len() == 3)
}

/// Whether each walk meets what it should, in each index that has an order, and none begins or ends at a record that has gone.
pub(crate) fn meet_at_each_kind(alloc: Global) -> Option<bool> {
    let mut items = no_items(alloc)?;
    for number in 0..16u64 {
        items.insert(Item { group: number % 5 }).ok()?;
    }
    let (gone, _) = items.index(SEQUENCE).iter().next()?;
    items.erase(gone).ok()?;
    let sequence = items.index(SEQUENCE);
    let stale = sequence.iter_from(Some(gone)).is_err() && sequence.iter_to(Some(gone)).is_err();
    let agree = agrees(alloc, &items.index(BY_GROUP))?
        && agrees(alloc, &items.index(RANKS))?
        && agrees(alloc, &sequence)?
        && agrees(alloc, &items.index(ROW))?;
    Some(stale && agree && groups_agree(alloc, &items)?)
}
