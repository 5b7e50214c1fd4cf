//! Drawn scripts.
ghost use Rattle.std.specs.Prelude.{◌<◌, length};

use crate::draw::Draw;
use crate::tally::Tallies;
use crate::watched::{Measure, Order, Search, Step, Watched};
use container_model::Handle;
use key_extract::{Probe, RowSort};
use std::alloc::{AllocError, Global};
use std::ops::Bound;

/// Draws a script and makes its calls.
pub(crate) fn run_script(
    alloc: Global,
    number: u64,
    tallies: &mut Tallies,
) -> Result<(), AllocError> {
    let mut draw = Draw::new(alloc, number);
    let mut watched = Watched::new(alloc, drawn_first_write(&mut draw))?;
    run_calls(&mut draw, &mut watched, tallies)
}

fn run_calls(
    draw: &mut Draw,
    watched: &mut Watched,
    tallies: &mut Tallies,
) -> Result<(), AllocError> {
    let calls = if draw.below(16) == 0 { 600 } else { 120 };
    let indices = u32::try_from(watched.indices()).unwrap_or(0);
    for _ in 0..calls {
        let index = draw.below(indices) as usize;
        if index < watched.indices() {
            call(draw, index, watched, tallies)?;
        }
    }
    Ok(())
}

// The number of the last write before a script, now and then next to the greatest.
fn drawn_first_write(draw: &mut Draw) -> u64 {
    let number = u64::from(draw.below(60));
    if draw.below(5) == 0 {
        u64::MAX - number
    } else {
        number
    }
}

// Draws a call and makes it.
fn call(
    draw: &mut Draw,
    index: usize,
    watched: &mut Watched,
    tallies: &mut Tallies,
) -> Result<(), AllocError>
    requires { index < length watched.old.specs }
{
    match draw.below(64) {
        0..=19 => insert(draw, watched, tallies),
        20..=24 => {
            draw.gone = draw.handle(watched.list(index));
            watched.erase(draw.gone, tallies);
            Ok(())
        }
        25 => erase_key(draw, index, watched, tallies),
        26..=35 => {
            let order = drawn_order(draw, watched.list(index))?;
            watched.reorder(index, &order, tallies)
        }
        36..=48 => search(draw, index, watched, tallies),
        49..=54 => range(draw, index, watched, tallies),
        _ => {
            read(draw, index, watched, tallies);
            Ok(())
        }
    }
}

fn insert(draw: &mut Draw, watched: &mut Watched, tallies: &mut Tallies) -> Result<(), AllocError> {
    let row = draw.row()?;
    watched.insert(row, tallies);
    Ok(())
}

fn erase_key(
    draw: &mut Draw,
    index: usize,
    watched: &mut Watched,
    tallies: &mut Tallies,
) -> Result<(), AllocError> {
    let probe = draw.probe()?;
    watched.erase_key(index, &probe, tallies)
}

// Draws a change of the order of a list.
fn drawn_order(draw: &mut Draw, list: &[Handle]) -> Result<Order, AllocError> {
    Ok(match draw.below(5) {
        0..=1 => Order::Moved {
            place: draw.place(list),
            handle: draw.handle(list),
        },
        2 => Order::Reversed,
        3 => Order::Given(draw.shuffled(list)?),
        _ => Order::Sorted(RowSort::new(draw.key())),
    })
}

// Draws a search by a key.
fn search(
    draw: &mut Draw,
    index: usize,
    watched: &Watched,
    tallies: &mut Tallies,
) -> Result<(), AllocError> {
    let sought = drawn_sought(draw);
    let probe = draw.probe()?;
    match sought {
        Sought::Record(search) => watched.search(search, index, &probe, tallies),
        Sought::Number(measure) => watched.measure(measure, index, &probe, tallies),
    }
    Ok(())
}

// What is sought by a key.
#[derive(Clone, Copy)]
enum Sought {
    Record(Search),
    Number(Measure),
}

fn drawn_sought(draw: &mut Draw) -> Sought {
    match draw.below(7) {
        0 => Sought::Record(Search::Find),
        1 => Sought::Number(Measure::Count),
        2 => Sought::Record(Search::Lower),
        3 => Sought::Record(Search::Upper),
        4 => Sought::Number(Measure::FindRank),
        5 => Sought::Number(Measure::LowerRank),
        _ => Sought::Number(Measure::UpperRank),
    }
}

// Draws a question for the records between two bounds.
fn range(
    draw: &mut Draw,
    index: usize,
    watched: &Watched,
    tallies: &mut Tallies,
) -> Result<(), AllocError>
    requires { index < length watched.now.specs }
{
    let (low, high) = (draw.probe()?, draw.probe()?);
    let low = drawn_bound(draw, &low);
    let high = drawn_bound(draw, &high);
    watched.range(index, low, high, tallies);
    Ok(())
}

fn drawn_bound<'a>(draw: &mut Draw, probe: &'a Probe) -> Bound<&'a Probe> {
    match draw.below(5) {
        0..=1 => Bound::Included(probe),
        2..=3 => Bound::Excluded(probe),
        _ => Bound::Unbounded,
    }
}

// Draws a question about a place or a position.
fn read(draw: &mut Draw, index: usize, watched: &Watched, tallies: &mut Tallies)
    requires { index < length watched.now.specs }
{
    let handle = draw.handle(watched.list(index));
    let position = if draw.below(8) == 0 {
        None
    } else {
        Some(handle)
    };
    match draw.below(6) {
        0 => watched.nth(index, draw.place(watched.list(index)), tallies),
        1 => watched.place_of(index, handle, tallies),
        2 => watched.step(Step::Rank, index, position, tallies),
        3 => watched.step(Step::Prev, index, position, tallies),
        _ => watched.step(Step::Next, index, position, tallies),
    }
}
