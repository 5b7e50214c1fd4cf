//! Drawn scripts.
ghost use Rattle.std.specs.Prelude.{◌<◌, length};

use crate::draw::Draw;
use crate::indices::Indices;
use crate::limits::Limits;
use crate::pair::{Pair, Write};
use crate::tally::{Count, Tally};
use key_extract::Probe;
use std::alloc::{AllocError, Global};

// How many indices the containers may have, half the time eight.
fn drawn_most(draw: &mut Draw, indices: &Indices) -> usize {
    let count = indices.len();
    let more = 8u32.saturating_sub(u32::try_from(count).unwrap_or(8));
    if draw.once_in(2) {
        8
    } else {
        count.saturating_add(draw.below(more.saturating_add(1)) as usize)
    }
}

// How many records the containers may have, most often more than a script puts in.
fn drawn_max(draw: &mut Draw) -> u32 {
    if draw.once_in(4) {
        draw.below(12)
    } else {
        1000
    }
}

// The number of the last write before a script, now and then next to the greatest.
fn drawn_first_write(draw: &mut Draw) -> u64 {
    if draw.once_in(5) {
        u64::MAX - u64::from(draw.below(12))
    } else {
        u64::from(draw.below(100))
    }
}

// How many calls a script makes.
fn drawn_calls(draw: &mut Draw) -> u32 {
    if draw.once_in(16) { 600 } else { 120 }
}

/// Draws a script and makes its calls on both containers.
pub(crate) fn run_script(
    alloc: Global,
    indices: &Indices,
    draw: &mut Draw,
    tally: &mut Tally,
) -> Result<(), AllocError> {
    tally.count(Count::Scripts);
    let limits = Limits {
        most: drawn_most(draw, indices),
        max: drawn_max(draw),
        first_write: drawn_first_write(draw),
    };
    match Pair::new(alloc, indices, limits)? {
        Some(mut pair) => run_calls(alloc, draw, &mut pair, tally),
        None => {
            tally.count(Count::Differences);
            Ok(())
        }
    }
}

fn run_calls(
    alloc: Global,
    draw: &mut Draw,
    pair: &mut Pair,
    tally: &mut Tally,
) -> Result<(), AllocError> {
    draw.choose_range();
    for number in 0..drawn_calls(draw) {
        if number % 40 == 39 {
            pair.restore(tally)?;
        }
        let count = u32::try_from(pair.indices()).unwrap_or(0);
        let index = draw.below(count) as usize;
        if index < pair.indices() {
            call(alloc, draw, index, pair, tally)?;
        }
    }
    Ok(())
}

// Draws a call and makes it on both containers.
fn call(
    alloc: Global,
    draw: &mut Draw,
    index: usize,
    pair: &mut Pair,
    tally: &mut Tally,
) -> Result<(), AllocError>
    requires { index < length pair.old.specs }
{
    let number = draw.below(20);
    match number {
        0..=11 => {
            let write = drawn_write(draw, number, index, pair);
            let row = draw.row()?;
            pair.write(write, &row, tally)
        }
        12 => {
            erase(draw, index, pair, tally);
            Ok(())
        }
        13..=16 => {
            let probe = draw.probe(pair.key(index))?;
            search(draw, index, &probe, pair, tally);
            Ok(())
        }
        17 => {
            read(draw, pair, tally);
            Ok(())
        }
        18 => add_index(alloc, draw, pair, tally),
        _ => pair.drop_index(index, tally),
    }
}

// Draws an index that is added, and some keys that are looked for in it.
fn add_index(
    alloc: Global,
    draw: &mut Draw,
    pair: &mut Pair,
    tally: &mut Tally,
) -> Result<(), AllocError> {
    let index = draw.index();
    let mut probes = Vec::new(alloc);
    for _ in 0..4 {
        probes.push(draw.probe(index.key.as_ref())?)?;
    }
    pair.add_index(&index, &probes, tally)
}

// Draws what is done with a row.
fn drawn_write(draw: &mut Draw, number: u32, index: usize, pair: &Pair) -> Write {
    match number {
        0..=3 => Write::Insert(None),
        4..=5 => Write::Insert(Some((index, drawn_place(draw, pair.len())))),
        6..=7 => Write::Replace(draw.handle(pair.handles())),
        8..=9 => Write::ModifyOrUndo(draw.handle(pair.handles())),
        _ => Write::Modify(draw.handle(pair.handles())),
    }
}

// Draws what is taken out.
fn erase(draw: &mut Draw, index: usize, pair: &mut Pair, tally: &mut Tally)
    requires { index < length pair.old.specs }
{
    let handle = draw.handle(pair.handles());
    match draw.below(32) {
        0..=15 => pair.erase(handle, Some(index), tally),
        16..=30 => pair.erase(handle, None, tally),
        _ => pair.clear(tally),
    }
}

// Draws what is done with the records of a key.
fn search(draw: &mut Draw, index: usize, probe: &Probe, pair: &mut Pair, tally: &mut Tally) {
    match draw.below(16) {
        0 => pair.erase_key(index, probe, tally),
        1..=8 => pair.find(index, probe, tally),
        _ => pair.count(index, probe, tally),
    }
}

// Draws a question about a record or the sizes.
fn read(draw: &mut Draw, pair: &Pair, tally: &mut Tally) {
    if draw.once_in(2) {
        pair.get(draw.handle(pair.handles()), tally);
    } else {
        pair.sizes(tally);
    }
}

// A place of a sequence of so many, its end, or one past it.
fn drawn_place(draw: &mut Draw, len: u64) -> u64 {
    if draw.once_in(20) {
        return u64::MAX;
    }
    let end = u32::try_from(len).unwrap_or(0);
    u64::from(draw.below(end.saturating_add(2)))
}
