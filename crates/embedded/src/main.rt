//! A book of orders on the container: `rt run` in this folder.
#![tactic(auto)]

mod book;
mod order;
mod print;
mod renumber;

use book::Book;
use container_model::Handle;
use order::Order;
use renumber::Renumber;
use std::alloc::Global;
use std::io;
use std::rt::Runtime;

// Each with its number, price and owner.
const ORDERS: [(u64, u64, u64); 6] = [
    (1, 250, 70),
    (2, 310, 71),
    (3, 250, 71),
    (1, 400, 72),
    (4, 180, 70),
    (5, 330, 71),
];

// Amends an order, and cancels it.
fn amend_and_cancel<R: Runtime>(rt: &R, book: &mut Book, handle: Handle) -> io::Result<()> {
    let order = Order {
        id: 1,
        price: 260,
        owner: 70,
    };
    print::amended(rt, order, book.amend(handle, order))?;
    println!(rt; "cancelled: {:?}", book.cancel(handle))?;
    println!(rt; "and again: {:?}", book.cancel(handle))
}

// Tries to give an order each of these numbers in turn.
fn try_numbers<R: Runtime>(
    rt: &R,
    book: &mut Book,
    handle: Handle,
    numbers: [u64; 2],
) -> io::Result<()> {
    for id in numbers {
        let mut edit = Renumber { id };
        let answer = book.try_renumber(handle, &mut edit);
        print::tried(rt, id, &edit, answer)?;
    }
    Ok(())
}

// Gives these orders one number, one after the other.
fn renumber_each<R: Runtime>(rt: &R, book: &mut Book, handles: &[Handle]) -> io::Result<()> {
    for handle in handles {
        print::renumbered(rt, 6, book.renumber(*handle, 6))?;
    }
    Ok(())
}

fn place_all<R: Runtime>(rt: &R, book: &mut Book) -> io::Result<()> {
    for (id, price, owner) in ORDERS {
        let order = Order { id, price, owner };
        print::placed(rt, order, book.place(order))?;
    }
    print::orders(rt, book, book.by_price())?;
    println!(rt; "owner 71 has {} orders", book.count_of(71))
}

// Lists the orders by owner, if each owner may have one alone, and if he may have more; and then no more.
fn list_owners<R: Runtime>(rt: &R, alloc: Global, book: &mut Book) -> io::Result<()> {
    println!(rt; "one order an owner: {:?}", book.list_owners(true))?;
    println!(rt; "by owner: {:?}", book.list_owners(false))?;
    print::orders(rt, book, book.by_owner(alloc))?;
    println!(rt; "no more: {:?}", book.drop_owners())
}

fn change_first<R: Runtime>(rt: &R, book: &mut Book) -> io::Result<()> {
    if let Some(first) = book.first_at(250) {
        amend_and_cancel(rt, book, first)?;
    }
    match book.first_at(250) {
        Some(first) => try_numbers(rt, book, first, [4, 7]),
        None => Ok(()),
    }
}

fn renumber_between<R: Runtime>(rt: &R, alloc: Global, book: &mut Book) -> io::Result<()> {
    let handles = book.between(300, 400).unwrap_or(Vec::new(alloc));
    renumber_each(rt, book, &handles)
}

fn cancel_all<R: Runtime>(rt: &R, book: &mut Book) -> io::Result<()> {
    let cancelled = book.cancel_all(71).unwrap_or(0);
    println!(rt; "{cancelled} orders of owner 71 are cancelled")?;
    print::orders(rt, book, book.by_price())
}

fn run<R: Runtime>(rt: &R, alloc: Global, book: &mut Book) -> io::Result<()> {
    place_all(rt, book)?;
    list_owners(rt, alloc, book)?;
    change_first(rt, book)?;
    renumber_between(rt, alloc, book)?;
    cancel_all(rt, book)
}

fn main(rt: HostRuntime) -> io::Result<()> {
    let mut book = Book::new(rt.alloc(), 1000)?;
    run(&rt, rt.alloc(), &mut book)
}
