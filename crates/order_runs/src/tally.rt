//! Counts of calls, refusals and differences.

use container_model::{Handle, Why};
use std::io;

/// A call that is compared.
#[derive(Clone, Copy)]
pub(crate) enum Call {
    Insert,
    Erase,
    EraseKey,
    Relocate,
    Reverse,
    Rearrange,
    Sort,
    Find,
    Count,
    Lower,
    Upper,
    Range,
    FindRank,
    LowerRank,
    UpperRank,
    Nth,
    Rank,
    PlaceOf,
    ProjectNext,
    ProjectPrev,
}

const NAMES: [&str; 20] = [
    "insert",
    "erase",
    "erase_key",
    "relocate",
    "reverse",
    "rearrange",
    "sort",
    "find",
    "count",
    "lower",
    "upper",
    "range",
    "find_rank",
    "lower_rank",
    "upper_rank",
    "nth",
    "rank",
    "place_of",
    "project_next",
    "project_prev",
];

// What is counted of a call.
#[derive(Clone, Copy)]
enum Count {
    Calls,
    Kind,
    Stale,
    Place,
    Order,
    Spent,
    Differences,
}

// What a line has behind each count.
const WORDS: [&str; 7] = [
    "calls; refused:",
    "kind,",
    "stale,",
    "place,",
    "order,",
    "spent;",
    "differences",
];

fn refused(why: Why) -> Count {
    match why {
        Why::Kind => Count::Kind,
        Why::Stale => Count::Stale,
        Why::Place => Count::Place,
        Why::Order => Count::Order,
        Why::Spent => Count::Spent,
        Why::Definition | Why::Banned { .. } | Why::Clash { .. } | Why::Full | Why::Memory => {
            Count::Differences
        }
    }
}

/// What each call answered.
#[derive(Clone, Copy)]
pub(crate) struct Tallies {
    counts: [[u64; 7]; 20],
}

impl Tallies {
    pub(crate) fn new() -> Tallies {
        Tallies {
            counts: [[0; 7]; 20],
        }
    }

    fn add_one(&mut self, call: Call, count: Count) {
        if let Some(counts) = self.counts.get_mut(call as usize) {
            if let Some(number) = counts.get_mut(count as usize) {
                *number = number.wrapping_add(1);
            }
        }
    }

    /// Counts a call: what refused it, and whether it answered and left what it should.
    pub(crate) fn count(&mut self, call: Call, why: Option<Why>, same: bool) {
        self.add_one(call, Count::Calls);
        if let Some(why) = why {
            self.add_one(call, refused(why));
        }
        if !same {
            self.add_one(call, Count::Differences);
        }
    }

    /// Compares and counts the answer to a question for a record.
    pub(crate) fn compare_records(
        &mut self,
        call: Call,
        answer: Result<Option<Handle>, Why>,
        wanted: Result<Option<Handle>, Why>,
    ) {
        self.count(call, wanted.err(), answer == wanted);
    }

    /// Compares and counts the answer to a question for a number.
    pub(crate) fn compare_numbers(
        &mut self,
        call: Call,
        answer: Result<u64, Why>,
        wanted: Result<u64, Why>,
    ) {
        self.count(call, wanted.err(), answer == wanted);
    }

    pub(crate) fn are_clean(&self) -> bool {
        for counts in &self.counts {
            if counts[Count::Differences as usize] != 0 {
                return false;
            }
        }
        true
    }

    pub(crate) fn print(&self, rt: &HostRuntime) -> io::Result<()> {
        for call in 0..20 {
            print_counts(rt, NAMES[call], &self.counts[call])?;
        }
        Ok(())
    }
}

fn print_counts(rt: &HostRuntime, name: &str, counts: &[u64; 7]) -> io::Result<()> {
    print!(rt; "{name}:")?;
    for count in 0..7 {
        print!(rt; " {} {}", counts[count], WORDS[count])?;
    }
    println!(rt; "")
}
