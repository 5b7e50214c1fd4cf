//! What is timed on which container, and beside what.

use crate::book::Chosen;
use crate::by_hand::ByHand;
use crate::coming::time_comings;
use crate::filled::{Filled, Owners};
use crate::keys::Keys;
use crate::longest::time_longest;
use crate::measured::time_calls;
use crate::memory::note_bytes;
use crate::plain_keys::Seek;
use crate::record::Record;
use crate::rows::{ALONE, HANDLED, OF_ALL, OF_GROUPS, OF_TENS, ONE, Row, SEVEN, THREE};
use crate::table::{SIZES, Side, Size, Table};
use field_keys::FieldKeys;
use key_extract::Extract;
use std::alloc::Global;
use std::io;
use std::rt::Runtime;

/// What stands beside the container under keys by hand.
#[derive(Clone, Copy)]
pub(crate) enum Beside {
    ByHand,
    Functions,
}

impl Beside {
    fn name(self) -> &'static str {
        match self {
            Beside::ByHand => "std by hand",
            Beside::Functions => "keys from functions",
        }
    }
}

// Some indices, and calls on a container of them.
#[derive(Clone, Copy)]
struct Scene<'a> {
    chosen: Chosen,
    owners: Owners,
    // Whether the records are there before the calls.
    full: bool,
    rows: &'a [Row],
}

// So many indices from one on, under which records come.
fn empty_scene(first: usize, count: usize, rows: &[Row]) -> Scene<'_> {
    Scene {
        chosen: Chosen {
            first,
            count,
            most: count,
        },
        owners: Owners::Scattered,
        full: false,
        rows,
    }
}

// The place of the index by id among the seven.
const BY_ID: usize = 3;

// The calls of a scene on one container or another.
fn time_scene<R: Runtime, E: Seek>(
    rt: &R,
    alloc: Global,
    table: &mut Table,
    side: Side,
    scene: Scene<'_>,
    size: Size,
) -> io::Result<()>
where
    <E as Extract<Record>>::Probe: Drop,
{
    let made: Option<Filled<E>> = Filled::new(alloc, scene.chosen, scene.owners, size.count)?;
    match made {
        Some(mut filled) => {
            if scene.full {
                filled.fill(BY_ID);
            }
            time_calls(rt, table, side, &mut filled, scene.rows, size)
        }
        None => Ok(()),
    }
}

// The scene on the container, and on what stands beside it.
fn time_both<R: Runtime>(
    rt: &R,
    alloc: Global,
    table: &mut Table,
    beside: Beside,
    scene: Scene<'_>,
    size: Size,
) -> io::Result<()> {
    time_scene::<R, Keys>(rt, alloc, table, Side::Container, scene, size)?;
    match beside {
        Beside::Functions => {
            time_scene::<R, FieldKeys>(rt, alloc, table, Side::Beside, scene, size)
        }
        Beside::ByHand if scene.chosen.is_by_hand() && !scene.full => {
            let mut kept = ByHand::new(alloc, scene.chosen.count, size.count);
            time_calls(rt, table, Side::Beside, &mut kept, scene.rows, size)
        }
        Beside::ByHand => Ok(()),
    }
}

// A full container, of whose records each of so many owners has some.
fn of_owners(first: usize, owners: u64, rows: &[Row]) -> Scene<'_> {
    Scene {
        owners: Owners::Many(owners.max(1)),
        full: true,
        ..empty_scene(first, 2, rows)
    }
}

// All calls at a size, once.
fn time_all<R: Runtime>(
    rt: &R,
    alloc: Global,
    table: &mut Table,
    beside: Beside,
    size: Size,
) -> io::Result<()> {
    for scene in [
        empty_scene(3, 1, &ONE),
        empty_scene(2, 3, &THREE),
        empty_scene(0, 7, &SEVEN),
    ] {
        time_both(rt, alloc, table, beside, scene, size)?;
    }
    for (index, rows) in &ALONE {
        time_both(rt, alloc, table, beside, empty_scene(*index, 1, rows), size)?;
    }
    let handled = Scene {
        full: true,
        ..empty_scene(0, 7, &HANDLED)
    };
    let of_tens = of_owners(7, size.count / 32, &OF_TENS);
    let of_all = of_owners(7, 1, &OF_ALL);
    let of_groups = of_owners(8, size.count / 1_000, &OF_GROUPS);
    for scene in [handled, of_tens, of_all, of_groups] {
        time_both(rt, alloc, table, beside, scene, size)?;
    }
    time_comings(rt, alloc, table, size)
}

/// Prints what the calls take at each size.
pub(crate) fn print_times<R: Runtime>(rt: &R, alloc: Global, beside: Beside) -> io::Result<()> {
    let mut bytes = Table::new(alloc);
    note_bytes(rt, alloc, &mut bytes)?;
    let mut table = Table::new(alloc);
    for (column, (count, rounds)) in SIZES.iter().copied().enumerate() {
        for _ in 0..rounds {
            time_all(rt, alloc, &mut table, beside, Size { column, count })?;
        }
        time_longest(rt, alloc, &mut table, Size { column, count })?;
    }
    table.print_numbers(rt, "nanoseconds", beside.name())?;
    bytes.print_numbers(rt, "bytes a record", Beside::ByHand.name())
}

/// Prints what the calls answer at 100 records, and whether keys from functions answer the same.
pub(crate) fn print_answers<R: Runtime>(rt: &R, alloc: Global) -> io::Result<()> {
    let size = Size {
        column: 0,
        count: 100,
    };
    let mut table = Table::new(alloc);
    time_all(rt, alloc, &mut table, Beside::ByHand, size)?;
    table.print_answers(rt, Beside::ByHand.name())?;
    let by_hand = table.agrees();
    let mut table = Table::new(alloc);
    time_all(rt, alloc, &mut table, Beside::Functions, size)?;
    println!(rt;
        "by hand the same: {by_hand}, under keys from functions: {}",
        table.agrees()
    )
}
