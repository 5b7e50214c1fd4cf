//! A drawn script on a sequence and on a row of a container, each beside a plain list.

use crate::items::{Item, ROW, SEQUENCE, no_items};
use indexed::{Handle, Indexed};
use std::alloc::Global;

/// A sequence of a container, with or without places.
pub(crate) trait Listed {
    /// Puts a record in before the place.
    fn insert_at(items: &mut Indexed<Item>, place: u64, item: Item) -> Option<Handle>;

    /// Moves a record before the place, counted with the record still in.
    fn relocate(items: &mut Indexed<Item>, place: u64, handle: Handle) -> Option<()>;

    /// Turns the order round.
    fn reverse(items: &mut Indexed<Item>) -> Option<()>;

    /// All records, in order.
    fn list(items: &Indexed<Item>) -> Option<Vec<Handle>>;

    /// The position before one, where the end has none.
    fn before(items: &Indexed<Item>, position: Option<Handle>) -> Option<Handle>;

    /// The position after one.
    fn after(items: &Indexed<Item>, position: Option<Handle>) -> Option<Handle>;
}

pub(crate) struct Sequence;

impl Listed for Sequence {
    fn insert_at(items: &mut Indexed<Item>, place: u64, item: Item) -> Option<Handle> {
        items.insert_at(SEQUENCE, place, item).ok()
    }

    fn relocate(items: &mut Indexed<Item>, place: u64, handle: Handle) -> Option<()> {
        items.relocate(SEQUENCE, place, handle).ok()
    }

    fn reverse(items: &mut Indexed<Item>) -> Option<()> {
        items.reverse(SEQUENCE).ok()
    }

    fn list(items: &Indexed<Item>) -> Option<Vec<Handle>> {
        items.index(SEQUENCE).list().ok()
    }

    fn before(items: &Indexed<Item>, position: Option<Handle>) -> Option<Handle> {
        items.index(SEQUENCE).prev(position).unwrap_or(None)
    }

    fn after(items: &Indexed<Item>, position: Option<Handle>) -> Option<Handle> {
        items.index(SEQUENCE).next(position).unwrap_or(None)
    }
}

pub(crate) struct Row;

impl Listed for Row {
    fn insert_at(items: &mut Indexed<Item>, place: u64, item: Item) -> Option<Handle> {
        items.insert_at(ROW, place, item).ok()
    }

    fn relocate(items: &mut Indexed<Item>, place: u64, handle: Handle) -> Option<()> {
        items.relocate(ROW, place, handle).ok()
    }

    fn reverse(items: &mut Indexed<Item>) -> Option<()> {
        items.reverse(ROW).ok()
    }

    fn list(items: &Indexed<Item>) -> Option<Vec<Handle>> {
        items.index(ROW).list().ok()
    }

    fn before(items: &Indexed<Item>, position: Option<Handle>) -> Option<Handle> {
        items.index(ROW).prev(position).unwrap_or(None)
    }

    fn after(items: &Indexed<Item>, position: Option<Handle>) -> Option<Handle> {
        items.index(ROW).next(position).unwrap_or(None)
    }
}

// One drawn change of both.
fn change<S: Listed>(items: &mut Indexed<Item>, plain: &mut Vec<Handle>, drawn: u64) -> Option<()> {
    let len = plain.len();
    let place = drawn as usize / 8 % (len + 1);
    let from = drawn as usize / 1024 % (len + 1);
    match drawn % 8 {
        0 if place < len => {
            items.erase(plain.remove(place)).ok()?;
        }
        1 | 2 if from < len => {
            let handle = plain.remove(from);
            S::relocate(items, place as u64, handle)?;
            let place = if place <= from { place } else { place - 1 };
            plain.insert(place.min(plain.len()), handle).ok()?;
        }
        3 => {
            S::reverse(items)?;
            plain.reverse();
        }
        _ => {
            let handle = S::insert_at(items, place as u64, Item { group: drawn % 5 })?;
            plain.insert(place, handle).ok()?;
        }
    }
    Some(())
}

// Whether the list, and a walk from either end, meet the records of the plain list.
fn agrees<S: Listed>(items: &Indexed<Item>, plain: &[Handle]) -> Option<bool> {
    let mut before = None;
    for handle in plain {
        let here = Some(*handle);
        if S::before(items, here) != before {
            return Some(false);
        }
        if before.is_some() && S::after(items, before) != here {
            return Some(false);
        }
        before = here;
    }
    let ends = S::after(items, before).is_none() && S::before(items, None) == before;
    Some(ends && S::list(items)?.as_slice() == plain)
}

// Whether both agree after each of sixty changes.
fn script<S: Listed>(alloc: Global) -> Option<bool> {
    let mut items = no_items(alloc)?;
    let mut plain = Vec::new(alloc);
    let mut drawn = 7u64;
    for _ in 0..60u64 {
        drawn = drawn
            .wrapping_mul(6364136223846793005)
            .wrapping_add(1442695040888963407);
        change::<S>(&mut items, &mut plain, drawn / 65536)?;
        if !agrees::<S>(&items, &plain)? {
            return Some(false);
        }
    }
    Some(plain.len() > 10)
}

/// Whether a sequence and a plain list agree.
pub(crate) fn of_a_sequence(alloc: Global) -> Option<bool> {
    script::<Sequence>(alloc)
}

/// Whether a row and a plain vector agree.
pub(crate) fn of_a_row(alloc: Global) -> Option<bool> {
    script::<Row>(alloc)
}
