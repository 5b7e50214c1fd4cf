//! The longest single insertion.

use crate::book::Chosen;
use crate::by_hand::ByHand;
use crate::calls::Call;
use crate::filled::{Filled, Owners};
use crate::keys::Keys;
use crate::measured::Measured;
use crate::table::{Side, Size, Table};
use std::alloc::Global;
use std::io;
use std::rt::Runtime;
use std::time::Instant;

// How often the same insertions are made: what another process took from one of them is not in the least of its times.
const FILLS: usize = 3;

// The containers, the first index of each and their number, and whether they are also kept by hand.
const LONGEST: [(&str, usize, usize, bool); 5] = [
    ("longest insertion, 1 index", 3, 1, true),
    ("longest insertion, 7 indices", 0, 7, true),
    ("longest insertion alone, random access", 1, 1, false),
    ("longest insertion alone, ranked", 2, 1, false),
    ("longest insertion alone, hashed", 5, 1, false),
];

/// The longest of so many insertions, each by the least of its times.
pub(crate) fn time_longest<R: Runtime>(
    rt: &R,
    alloc: Global,
    table: &mut Table,
    size: Size,
) -> io::Result<()> {
    for (name, first, count, is_by_hand) in LONGEST {
        let chosen = Chosen {
            first,
            count,
            most: count,
        };
        let longest = longest_in(rt, alloc, chosen, size.count)?;
        table.number(name, Side::Container, size, longest)?;
        if is_by_hand {
            let longest = longest_by_hand(rt, alloc, count, size.count)?;
            table.number(name, Side::Beside, size, longest)?;
        }
    }
    Ok(())
}

fn longest_in<R: Runtime>(rt: &R, alloc: Global, chosen: Chosen, count: u64) -> io::Result<u64> {
    let mut least = vec![in alloc; u64::MAX; count as usize]?;
    for _ in 0..FILLS {
        let made: Option<Filled<Keys>> = Filled::new(alloc, chosen, Owners::Scattered, count)?;
        if let Some(mut filled) = made {
            fill(rt, &mut filled, &mut least)?;
        }
    }
    Ok(least.iter().copied().max().unwrap_or(0))
}

fn longest_by_hand<R: Runtime>(
    rt: &R,
    alloc: Global,
    indices: usize,
    count: u64,
) -> io::Result<u64> {
    let mut least = vec![in alloc; u64::MAX; count as usize]?;
    for _ in 0..FILLS {
        fill(rt, &mut ByHand::new(alloc, indices, count), &mut least)?;
    }
    Ok(least.iter().copied().max().unwrap_or(0))
}

// Makes an insertion for each of these times, and keeps the nanoseconds that it took where they are less.
fn fill<R: Runtime, M: Measured<Call = Call>>(
    rt: &R,
    measured: &mut M,
    least: &mut [u64],
) -> io::Result<()> {
    let mut number = 0u64;
    for least in least.iter_mut() {
        let start = Instant::now(rt)?;
        let _met = measured.make(Call::Insert, number, number.saturating_add(1));
        let spent = start.elapsed(rt)?.as_nanos().min(u64::MAX as u128) as u64;
        *least = spent.min(*least);
        number = number.saturating_add(1);
    }
    Ok(())
}
