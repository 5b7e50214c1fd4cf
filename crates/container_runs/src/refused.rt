//! An index that is added to many records while memory may be refused.

use crate::indices::{Index, Indices};
use crate::limits::Limits;
use crate::pair::{Pair, Write};
use crate::tally::{Count, Tally};
use key_extract::{Cell, Row};
use std::alloc::{AllocError, Global};

// How many records there are: more than a hashed index has in its first segment.
const RECORDS: u32 = 600;

/// What is done.
#[derive(Clone, Copy, PartialEq, Eq)]
pub(crate) enum Run {
    /// The records go in, and no more.
    Fill,
    /// Then an index is added.
    Add,
}

/// Whether the records take the last numbers of writes.
#[derive(Clone, Copy, PartialEq, Eq)]
pub(crate) enum Numbers {
    Left,
    Spent,
}

// A row of two numbers, of which each has its own first, and the last record the second of the first record.
fn row_of(alloc: Global, number: u32) -> Result<Row, AllocError> {
    let mut cells = Vec::with_capacity(alloc, 2)?;
    cells.push(Cell::Int(i64::from(number)))?;
    cells.push(Cell::Int(i64::from(number % (RECORDS - 1))))?;
    Ok(Row::new(cells))
}

fn limits(numbers: Numbers) -> Limits {
    Limits {
        most: 2,
        max: RECORDS,
        first_write: match numbers {
            Numbers::Left => 0,
            Numbers::Spent => u64::MAX - u64::from(RECORDS),
        },
    }
}

fn fill(alloc: Global, pair: &mut Pair, tally: &mut Tally) -> Result<(), AllocError> {
    for number in 0..RECORDS {
        let row = row_of(alloc, number)?;
        pair.write(Write::Insert(None), &row, tally)?;
    }
    Ok(())
}

/// Puts records into a sequence, and adds the index of a word. Where memory is refused, it is added once more.
pub(crate) fn run_refused(
    alloc: Global,
    run: Run,
    word: &str,
    numbers: Numbers,
    tally: &mut Tally,
) -> Result<(), AllocError> {
    tally.count(Count::Scripts);
    let indices = Indices::read(alloc, "sequenced")?;
    let Some(mut pair) = Pair::new(alloc, &indices, limits(numbers))? else {
        tally.count(Count::Differences);
        return Ok(());
    };
    fill(alloc, &mut pair, tally)?;
    match run {
        Run::Fill => Ok(()),
        Run::Add => pair.add_index(&Index::read(word), &[], tally),
    }
}
