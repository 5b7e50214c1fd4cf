//! Counts of indices that came and went.

use container_model::{Kind, Spec};
use std::io;

/// What is counted of them.
#[derive(Clone, Copy)]
pub(crate) enum Event {
    Sequenced,
    Random,
    Ordered,
    UniqueOrdered,
    Ranked,
    UniqueRanked,
    Hashed,
    UniqueHashed,
    WithoutRecords,
    AfterClear,
    OfFewer,
    OneTooMany,
    Clash,
    ClashAtEnd,
    AddSpent,
    Place,
    Key,
    Dropped,
    OnlyOne,
    DropSpent,
}

// What the line has behind each count.
const WORDS: [&str; 20] = [
    "sequenced,",
    "random,",
    "ordered,",
    "ordered and unique,",
    "ranked,",
    "ranked and unique,",
    "hashed,",
    "hashed and unique;",
    "of them without records,",
    "after all records went,",
    "where fewer than eight may be; refused:",
    "as one too many,",
    "for a clash,",
    "of them with no number left,",
    "for a spent number; compared with a container that was made so:",
    "places and",
    "keys;",
    "dropped; refused:",
    "as the only one,",
    "for a spent number",
];

impl Event {
    /// An index of this kind was added.
    pub(crate) fn added(spec: Spec) -> Event {
        match (spec.kind, spec.unique) {
            (Kind::Sequenced, _) => Event::Sequenced,
            (Kind::Random, _) => Event::Random,
            (Kind::Ordered, false) => Event::Ordered,
            (Kind::Ordered, true) => Event::UniqueOrdered,
            (Kind::Ranked, false) => Event::Ranked,
            (Kind::Ranked, true) => Event::UniqueRanked,
            (Kind::Hashed, false) => Event::Hashed,
            (Kind::Hashed, true) => Event::UniqueHashed,
        }
    }
}

/// How often each came.
#[derive(Clone, Copy)]
pub(crate) struct IndexTally {
    counts: [u64; 20],
}

impl IndexTally {
    pub(crate) fn new() -> IndexTally {
        IndexTally { counts: [0; 20] }
    }

    /// Counts one more.
    pub(crate) fn count(&mut self, event: Event) {
        if let Some(number) = self.counts.get_mut(event as usize) {
            *number = number.wrapping_add(1);
        }
    }

    pub(crate) fn add(&mut self, more: &IndexTally) {
        for at in 0..20 {
            self.counts[at] = self.counts[at].wrapping_add(more.counts[at]);
        }
    }

    pub(crate) fn print(&self, rt: &HostRuntime) -> io::Result<()> {
        print!(rt; "indices added:")?;
        for at in 0..20 {
            print!(rt; " {} {}", self.counts[at], WORDS[at])?;
        }
        println!(rt; "")
    }
}
