//! Memory that records take.

use crate::book::Chosen;
use crate::by_hand::ByHand;
use crate::calls::Call;
use crate::filled::{Filled, Owners};
use crate::keys::Keys;
use crate::measured::Measured;
use crate::table::{SIZES, Side, Size, Table};
use bench_report::resident;
use std::alloc::Global;
use std::io;
use std::rt::Runtime;

// Some indices from one on, and the rows of a container that can have these alone, and eight.
const NUMBERS: [(usize, usize, &str, &str); 4] = [
    (3, 1, "1 index", "1 index, with room for eight"),
    (3, 2, "2 indices", "2 indices, with room for eight"),
    (2, 4, "4 indices", "4 indices, with room for eight"),
    (0, 7, "7 indices", "7 indices, with room for eight"),
];

/// Notes the bytes that a record takes under some indices, allocator included. It is right only where nothing was freed
/// before, so what was filled stays until all is noted.
pub(crate) fn note_bytes<R: Runtime>(rt: &R, alloc: Global, table: &mut Table) -> io::Result<()> {
    let size = Size {
        column: 1,
        count: SIZES[1].0,
    };
    let mut kept = Vec::new(alloc);
    for (first, count, alone, with_eight) in NUMBERS {
        for (name, most) in [(alone, count), (with_eight, 8)] {
            let chosen = Chosen { first, count, most };
            let made: Option<Filled<Keys>> = Filled::new(
                alloc,
                chosen,
                Owners::Scattered,
                size.count,
            )?;
            if let Some(mut filled) = made {
                note(rt, table, name, Side::Container, &mut filled, size)?;
                kept.push(filled)?;
            }
        }
    }
    let (mut one, mut seven) = (
        ByHand::new(alloc, 1, size.count),
        ByHand::new(alloc, 7, size.count),
    );
    note(rt, table, "1 index", Side::Beside, &mut one, size)?;
    note(rt, table, "7 indices", Side::Beside, &mut seven, size)
}

// Fills this, and notes the bytes of a record.
fn note<R: Runtime, M: Measured<Call = Call>>(
    rt: &R,
    table: &mut Table,
    name: &'static str,
    side: Side,
    measured: &mut M,
    size: Size,
) -> io::Result<()> {
    let before = resident(rt)?;
    measured.make(Call::Insert, 0, size.count);
    let bytes = resident(rt)?.saturating_sub(before);
    table.number(name, side, size, bytes / size.count.max(1))?;
    Ok(())
}
