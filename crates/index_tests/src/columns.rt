//! One node in six columns at once, and in eight, and records of nodes that no index has.
ghost use Rattle.std.specs.Prelude.{◌≤◌, length};
ghost use Rattle.node_store.specs.Store.{Store};
ghost use Rattle.index_tests.specs.Every.{AreSound};
ghost use Rattle.index_tests.specs.declared.keys.Keyed.{Keyed};

use crate::every::{add, unlink_from, views};
use crate::index::Index;
use crate::keys::Keyed;
use hash_index::HashIndex;
use node_store::NodeStore;
use ord_tree::OrdTree;
use rank_tree::RankTree;
use row_index::RowIndex;
use seq_index::SeqIndex;
use std::alloc::Global;
use std::cell::Cell;

// Four sequences and two rows, in the first six columns.
fn six_indices(alloc: Global) -> [Index; 6]
    ensures { (s : Store (Keyed (Unit {0}))) → AreSound s 0 result }
{
    [
        Index::Chain(SeqIndex::new(0)),
        Index::Chain(SeqIndex::new(1)),
        Index::Chain(SeqIndex::new(2)),
        Index::Chain(SeqIndex::new(3)),
        Index::Row(RowIndex::new(alloc, 4)),
        Index::Row(RowIndex::new(alloc, 5)),
    ]
}

// Two sequences, two rows, two trees and two hashed indices, in all eight columns.
fn eight_indices(alloc: Global) -> [Index; 8]
    ensures { (s : Store (Keyed (Unit {0}))) → AreSound s 0 result }
{
    [
        Index::Chain(SeqIndex::new(0)),
        Index::Chain(SeqIndex::new(1)),
        Index::Row(RowIndex::new(alloc, 2)),
        Index::Row(RowIndex::new(alloc, 3)),
        Index::Ordered(OrdTree::new(4, 0)),
        Index::Ranked(RankTree::new(5, 1)),
        Index::Hashed(HashIndex::new(alloc, 6, 2)),
        Index::Hashed(HashIndex::new(alloc, 7, 3)),
    ]
}

// Two rows, in the first two columns.
fn two_rows(alloc: Global) -> [Index; 2]
    ensures { (s : Store (Keyed (Unit {0}))) → AreSound s 0 result }
{
    [
        Index::Row(RowIndex::new(alloc, 0)),
        Index::Row(RowIndex::new(alloc, 1)),
    ]
}

// The list without a number.
fn without(list: &[u64], number: u64, alloc: Global) -> Option<Vec<u64>> {
    let mut left = Vec::new(alloc);
    for it in list {
        if *it != number {
            left.push(*it).ok()?;
        }
    }
    Some(left)
}

// Whether the list at the place has lost this age, and the others are as before.
fn only_lost(
    before: &[Vec<u64>],
    after: &[Vec<u64>],
    place: usize,
    number: u64,
    alloc: Global,
) -> Option<bool> {
    for (at, (old, new)) in before.iter().zip(after).enumerate() {
        if at == place {
            if without(old, number, alloc)? != *new {
                return Some(false);
            }
        } else if old != new {
            return Some(false);
        }
    }
    Some(before.len() == after.len())
}

// What the lists are once the node 2 of five was taken out of each in turn, if each time the others stayed. The keys
// of the five are 0, 3, 1, 4 and 2.
fn taken_from_each(indices: &mut [Index], alloc: Global) -> Option<Vec<Vec<u64>>>
    requires sound { (s : Store (Keyed (Unit {0}))) → AreSound s 0 indices.old }
    requires few { length indices.old ≤ 8 }
{
    let mut store = NodeStore::new(alloc, indices.len());
    for name in 0..5u64 {
        let key = name * 3 % 5;
        add(&mut store, indices, Keyed { key, rest: () });
    }
    for place in 0..indices.len() {
        let before = views(&store, indices, alloc)?;
        unlink_from(&mut store, indices, place, 2);
        let after = views(&store, indices, alloc)?;
        if !only_lost(&before, &after, place, 2, alloc)? {
            return None;
        }
    }
    views(&store, indices, alloc)
}

// What the four nodes that are left have for ages in the order of their adds, in the other one, and by their keys.
const ADDED: [u64; 4] = [0, 1, 3, 4];

const TURNED: [u64; 4] = [4, 3, 1, 0];

const BY_KEY: [u64; 4] = [0, 4, 1, 3];

// Whether these are the lists.
fn are_lists(lists: &[Vec<u64>], wanted: &[[u64; 4]]) -> bool {
    for (list, numbers) in lists.iter().zip(wanted) {
        if list.as_slice() != numbers.as_slice() {
            return false;
        }
    }
    lists.len() == wanted.len()
}

/// Whether six columns stay as they were, each time another one changes.
pub(crate) fn six_columns_stay(alloc: Global) -> Option<bool> {
    let mut indices = six_indices(alloc);
    let lists = taken_from_each(&mut indices, alloc)?;
    let wanted = [ADDED, ADDED, ADDED, ADDED, TURNED, ADDED];
    Some(are_lists(&lists, &wanted))
}

/// The same of eight.
pub(crate) fn eight_columns_stay(alloc: Global) -> Option<bool> {
    let mut indices = eight_indices(alloc);
    let lists = taken_from_each(&mut indices, alloc)?;
    let wanted = [ADDED, ADDED, TURNED, ADDED, BY_KEY, BY_KEY, ADDED, ADDED];
    Some(are_lists(&lists, &wanted))
}

/// Whether nodes stand in two rows, in another order in each, and leave each of them without a change to the other.
pub(crate) fn one_node_in_two_rows(alloc: Global) -> Option<bool> {
    let mut rows = two_rows(alloc);
    let lists = taken_from_each(&mut rows, alloc)?;
    Some(are_lists(&lists, &[TURNED, ADDED]))
}

// Tells when it is dropped.
struct Dropped<'a> {
    name: u64,
    count: &'a Cell<u64>,
    names: &'a Cell<u64>,
}

impl Drop for Dropped<'_> {
    fn drop(self) {
        let Dropped { name, count, names } = self;
        count.set(count.get().wrapping_add(1));
        names.set(names.get().wrapping_add(name));
    }
}

// Drops a store of 100 such records, every second of which stands in a sequence. How many stood there.
fn drop_half_linked(count: &Cell<u64>, names: &Cell<u64>, alloc: Global) -> Option<usize> {
    let mut store = NodeStore::new(alloc, 1);
    let mut indices = [Index::Chain(SeqIndex::new(0))];
    for name in 0..100u64 {
        let rest = Dropped { name, count, names };
        add(&mut store, &mut indices, Keyed { key: name, rest });
    }
    for half in 0..50u64 {
        unlink_from(&mut store, &mut indices, 0, 2 * half);
    }
    let lists = views(&store, &indices, alloc)?;
    drop(store);
    let list = lists.first()?;
    Some(list.len())
}

/// Whether each record is dropped once.
pub(crate) fn each_is_dropped_once(alloc: Global) -> Option<bool> {
    let count = Cell::new(0);
    let names = Cell::new(0);
    let linked = drop_half_linked(&count, &names, alloc)?;
    Some(linked == 50 && count.get() == 100 && names.get() == 4950)
}
