//! What the program prints.

use crate::book::Book;
use crate::order::Order;
use crate::renumber::Renumber;
use container_model::{Handle, Refused, Why};
use multi_index::Modified;
use std::io;
use std::rt::Runtime;

/// What became of an order that was to be placed.
pub fn placed<R: Runtime>(
    rt: &R,
    order: Order,
    answer: Result<Handle, Refused<Order>>,
) -> io::Result<()> {
    match answer {
        Ok(handle) => println!(rt; "order {} lies in slot {}", order.id, handle.slot),
        Err(refused) => println!(rt; "order {} is refused: {refused}", order.id),
    }
}

// An order, if the handle names one.
fn line<R: Runtime>(rt: &R, book: &Book, handle: Handle) -> io::Result<()> {
    match book.get(handle) {
        Some(order) => println!(rt; "{} bids {}", order.id, order.price),
        None => Ok(()),
    }
}

fn lines<R: Runtime>(rt: &R, book: &Book, handles: &[Handle]) -> io::Result<()> {
    for handle in handles {
        line(rt, book, *handle)?;
    }
    Ok(())
}

/// The orders, a line for each.
pub fn orders<R: Runtime>(
    rt: &R,
    book: &Book,
    handles: Result<Vec<Handle>, Why>,
) -> io::Result<()> {
    match handles {
        Ok(handles) => lines(rt, book, &handles),
        Err(why) => println!(rt; "no orders: {why}"),
    }
}

/// What became of an order that was to take the place of another.
pub fn amended<R: Runtime>(
    rt: &R,
    order: Order,
    answer: Result<Order, Refused<Order>>,
) -> io::Result<()> {
    match answer {
        Ok(old) => println!(rt;
            "order {} bid {}, and now {}",
            old.id, old.price, order.price
        ),
        Err(refused) => println!(rt; "order {} is refused: {refused}", order.id),
    }
}

/// What became of an order that was to get this number.
pub fn renumbered<R: Runtime>(
    rt: &R,
    id: u64,
    answer: Result<Modified<Order>, Why>,
) -> io::Result<()> {
    match answer {
        Ok(Modified::Kept) => println!(rt; "an order has number {id} now"),
        Ok(Modified::Erased { row, by, .. }) => {
            println!(rt;
                "an order of {} is lost: slot {} has number {id}",
                row.owner, by.slot
            )
        }
        Err(why) => println!(rt; "no order gets number {id}: {why}"),
    }
}

/// What became of an order that was to get this number from an edit.
pub fn tried<R: Runtime>(
    rt: &R,
    id: u64,
    edit: &Renumber,
    answer: Result<(), Why>,
) -> io::Result<()> {
    match answer {
        Ok(()) => println!(rt; "order {} has number {id} now", edit.id),
        Err(why) => println!(rt; "number {} is refused: {why}", edit.id),
    }
}
