//! Counts of calls, refusals and differences.

use crate::index_tally::{Event, IndexTally};
use container_model::Why;
use std::io;

/// What is counted.
#[derive(Clone, Copy)]
pub(crate) enum Count {
    Scripts,
    Calls,
    Inserted,
    Changed,
    Added,
    Dropped,
    Restored,
    Found,
    Kind,
    Definition,
    Stale,
    Place,
    Banned,
    Clash,
    Full,
    Spent,
    Others,
    Differences,
}

// What a line has behind each count.
const WORDS: [&str; 18] = [
    "scripts,",
    "calls:",
    "inserted,",
    "changed,",
    "indices added,",
    "dropped,",
    "restored,",
    "found; refused:",
    "kind,",
    "definition,",
    "stale,",
    "place,",
    "banned,",
    "clash,",
    "full,",
    "spent,",
    "others;",
    "differences",
];

/// What the calls of some scripts answered.
#[derive(Clone, Copy)]
pub(crate) struct Tally {
    counts: [u64; 18],
    indices: IndexTally,
}

fn refused(why: Why) -> Count {
    match why {
        Why::Kind => Count::Kind,
        Why::Definition => Count::Definition,
        Why::Stale => Count::Stale,
        Why::Place => Count::Place,
        Why::Banned { .. } => Count::Banned,
        Why::Clash { .. } => Count::Clash,
        Why::Full => Count::Full,
        Why::Spent => Count::Spent,
        Why::Order | Why::Memory => Count::Others,
    }
}

impl Tally {
    pub(crate) fn new() -> Tally {
        Tally {
            counts: [0; 18],
            indices: IndexTally::new(),
        }
    }

    /// Counts one more.
    pub(crate) fn count(&mut self, count: Count) {
        if let Some(number) = self.counts.get_mut(count as usize) {
            *number = number.wrapping_add(1);
        }
    }

    /// Counts one more, where it was one.
    pub(crate) fn count_if(&mut self, was: bool, count: Count) {
        if was {
            self.count(count);
        }
    }

    /// Counts what became of an index.
    pub(crate) fn index(&mut self, event: Event) {
        self.indices.count(event);
    }

    /// Counts it, where it did.
    pub(crate) fn index_if(&mut self, was: bool, event: Event) {
        if was {
            self.index(event);
        }
    }

    /// Counts a call: what refused it, and whether the two containers answered the same.
    pub(crate) fn call(&mut self, why: Option<Why>, same: bool) {
        self.count(Count::Calls);
        if let Some(why) = why {
            self.count(refused(why));
        }
        self.count_if(!same, Count::Differences);
    }

    pub(crate) fn add(&mut self, more: &Tally) {
        for at in 0..18 {
            self.counts[at] = self.counts[at].wrapping_add(more.counts[at]);
        }
        self.indices.add(&more.indices);
    }

    fn has_none(&self, count: Count) -> bool {
        self.counts.get(count as usize) == Some(&0)
    }

    pub(crate) fn is_clean(&self) -> bool {
        self.has_none(Count::Differences) && self.has_none(Count::Others)
    }

    pub(crate) fn print(&self, rt: &HostRuntime, group: &str) -> io::Result<()> {
        print!(rt; "{group}:")?;
        for at in 0..18 {
            print!(rt; " {} {}", self.counts[at], WORDS[at])?;
        }
        println!(rt; "")
    }

    pub(crate) fn print_indices(&self, rt: &HostRuntime) -> io::Result<()> {
        self.indices.print(rt)
    }
}
