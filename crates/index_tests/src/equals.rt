//! Records of one group in an index of each kind that has keys.

use crate::items::{BY_GROUP, GROUPS, Item, RANKS, no_items};
use indexed::{Handle, Indexed, Search};
use std::alloc::Global;

/// Whether three records of one key are counted among forty in a hashed index, after each insertion and through several
/// growths.
pub(crate) fn are_counted_through_growth(alloc: Global) -> Option<bool> {
    let mut items = no_items(alloc)?;
    let sought = Search::unsigned(7);
    for number in 0..40u64 {
        let group = if number % 16 == 3 { 7 } else { number + 100 };
        items.insert(Item { group }).ok()?;
        if items.index(GROUPS).count(&sought) != (number + 13) / 16 {
            return Some(false);
        }
    }
    Some(items.len() == 40)
}

#[derive(Clone, Copy)]
enum Kind {
    Ordered,
    Ranked,
    Hashed,
}

// How many records the group has, and the first of them.
fn in_group(items: &Indexed<Item>, kind: Kind, group: u64) -> (u64, Option<Handle>) {
    let sought = Search::unsigned(group);
    match kind {
        Kind::Ordered => {
            let index = items.index(BY_GROUP);
            (index.count(&sought), index.find(&sought))
        }
        Kind::Ranked => {
            let index = items.index(RANKS);
            (index.count(&sought), index.find(&sought))
        }
        Kind::Hashed => {
            let index = items.index(GROUPS);
            (index.count(&sought), index.find(&sought))
        }
    }
}

// Whether the first record of a group is found, and the second once the first has left.
fn are_found_by_age(alloc: Global, kind: Kind) -> Option<bool> {
    let mut items = no_items(alloc)?;
    for number in 0..12u64 {
        items.insert(Item { group: number % 5 }).ok()?;
    }
    let (count, first) = in_group(&items, kind, 2);
    let first = first?;
    items.erase(first).ok()?;
    let (left, second) = in_group(&items, kind, 2);
    Some(count == 2 && left == 1 && first.stamp == 3 && second?.stamp == 8)
}

/// The same of each kind of index that has a key.
pub(crate) fn are_found_at_each_kind(alloc: Global) -> Option<bool> {
    let ordered = are_found_by_age(alloc, Kind::Ordered)?;
    let ranked = are_found_by_age(alloc, Kind::Ranked)?;
    let hashed = are_found_by_age(alloc, Kind::Hashed)?;
    Some(ordered && ranked && hashed)
}
