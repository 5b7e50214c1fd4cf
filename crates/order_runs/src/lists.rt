//! What a list of an index answers.

use container_model::{Handle, Kind, Why};

pub(crate) const WITH_KEYS: [Kind; 3] = [Kind::Ordered, Kind::Ranked, Kind::Hashed];

pub(crate) const IN_ORDER: [Kind; 2] = [Kind::Ordered, Kind::Ranked];

pub(crate) const WITH_RANKS: [Kind; 1] = [Kind::Ranked];

pub(crate) const WITH_PLACES: [Kind; 2] = [Kind::Random, Kind::Ranked];

pub(crate) const ROWS: [Kind; 1] = [Kind::Random];

pub(crate) const SEQUENCES: [Kind; 2] = [Kind::Sequenced, Kind::Random];

pub(crate) const NOT_HASHED: [Kind; 4] = [
    Kind::Sequenced,
    Kind::Random,
    Kind::Ordered,
    Kind::Ranked,
];

/// How many records of a list come before a key, how many have it, and the first that has it.
#[derive(Clone, Copy)]
pub(crate) struct Cut {
    pub(crate) below: usize,
    pub(crate) equal: usize,
    pub(crate) first: Option<Handle>,
}

impl Cut {
    /// How many do not come after the key.
    pub(crate) fn up_to(self) -> usize {
        self.below.saturating_add(self.equal)
    }

    /// The place of the first record that has the key, or the end, in a list in order.
    pub(crate) fn rank(self, list: &[Handle]) -> usize {
        match self.first {
            Some(_) => self.below,
            None => list.len(),
        }
    }
}

/// The answer of an index of one of these kinds.
pub(crate) fn answer_of<T: Copy>(kinds: &[Kind], kind: Kind, answer: T) -> Result<T, Why> {
    if kinds.contains(&kind) {
        Ok(answer)
    } else {
        Err(Why::Kind)
    }
}

/// The place of a position, in an index of one of these kinds.
pub(crate) fn place_of(
    kinds: &[Kind],
    kind: Kind,
    list: &[Handle],
    position: Option<Handle>,
) -> Result<usize, Why> {
    if !kinds.contains(&kind) {
        return Err(Why::Kind);
    }
    match position {
        Some(handle) => place_in(list, handle).ok_or(Why::Stale),
        None => Ok(list.len()),
    }
}

/// The place of a record in a list.
pub(crate) fn place_in(list: &[Handle], handle: Handle) -> Option<usize> {
    for (place, it) in list.iter().enumerate() {
        if *it == handle {
            return Some(place);
        }
    }
    None
}

/// The number of a place.
pub(crate) fn number(place: Result<usize, Why>) -> Result<u64, Why> {
    Ok(place? as u64)
}

/// The record at a place, if it is not the end.
pub(crate) fn at(list: &[Handle], place: usize) -> Option<Handle> {
    list.get(place).copied()
}

/// The record after a place.
pub(crate) fn after(list: &[Handle], place: Result<usize, Why>) -> Result<Option<Handle>, Why> {
    Ok(at(list, place?.saturating_add(1)))
}

/// The record before a place.
pub(crate) fn before(list: &[Handle], place: Result<usize, Why>) -> Result<Option<Handle>, Why> {
    let place = place?;
    Ok(if place > 0 { at(list, place - 1) } else { None })
}

/// Whether each of the handles is in the list.
pub(crate) fn has_all(list: &[Handle], handles: &[Handle]) -> bool {
    for handle in handles {
        if !list.contains(handle) {
            return false;
        }
    }
    true
}
