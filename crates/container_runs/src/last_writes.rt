//! The last writes that there are numbers for.

use crate::indices::Indices;
use crate::limits::Limits;
use crate::pair::{Pair, Write};
use crate::tally::{Count, Tally};
use container_model::Handle;
use key_extract::{Cell, Row};
use std::alloc::{AllocError, Global};

const LIMITS: Limits = Limits {
    most: 1,
    max: 10,
    first_write: u64::MAX - 2,
};

// The rows, each of one number, of the writes.
const NUMBERS: [i64; 5] = [1, 2, 1, 3, 3];

// What each write does: the first two take the last numbers, and the others change the second record. The first of these is
// banned and undone, the next is spent and undone, and the last is spent and its edit not applied.
fn write_of(at: usize, handle: Handle) -> Write {
    match at {
        0 | 1 => Write::Insert(None),
        2 | 3 => Write::ModifyOrUndo(handle),
        _ => Write::Modify(handle),
    }
}

// A row of one number.
fn row_of(alloc: Global, number: i64) -> Result<Row, AllocError> {
    let mut cells = Vec::new(alloc);
    cells.push(Cell::Int(number))?;
    Ok(Row::new(cells))
}

fn write_all(alloc: Global, pair: &mut Pair, tally: &mut Tally) -> Result<(), AllocError> {
    for (at, number) in NUMBERS.iter().enumerate() {
        let none = Handle { slot: 0, stamp: 0 };
        let handle = pair.handles().last().copied().unwrap_or(none);
        pair.write(write_of(at, handle), &row_of(alloc, *number)?, tally)?;
    }
    Ok(())
}

/// Makes the writes on both containers, where two numbers are left.
pub(crate) fn run_last_writes(alloc: Global, tally: &mut Tally) -> Result<(), AllocError> {
    tally.count(Count::Scripts);
    let indices = Indices::read(alloc, "ordered!0")?;
    match Pair::new(alloc, &indices, LIMITS)? {
        Some(mut pair) => write_all(alloc, &mut pair, tally),
        None => {
            tally.count(Count::Differences);
            Ok(())
        }
    }
}
