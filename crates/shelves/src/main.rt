//! Items on shelves, under three indices: `rt run` in this folder.
#![tactic(auto)]

mod items;

use indexed::{FieldKeys, Indexed, Iter};
use items::{BY_DAY, BY_NUMBER, BY_SHELF, INDICES, Item, MOST, by_number, by_shelf_leading};
use std::io;
use std::rt::Runtime;

// Each with its number, shelf and day.
const ITEMS: [(i64, i64, i64); 5] = [(7, 1, 30), (3, 2, 10), (5, 1, 20), (7, 3, 1), (4, 1, 25)];

fn put_all<R: Runtime>(rt: &R, items: &mut Indexed<Item>) -> io::Result<()> {
    for (sku, shelf, due) in ITEMS {
        match items.insert(Item { sku, shelf, due }) {
            Ok(handle) => println!(rt; "item {sku}: slot {}", handle.slot)?,
            Err(refused) => println!(rt; "item {sku}: {refused}")?,
        }
    }
    Ok(())
}

fn list<R: Runtime>(rt: &R, items: Iter<'_, Item, FieldKeys>) -> io::Result<()> {
    for (_, item) in items {
        println!(rt;
            "  item {} on shelf {}, day {}",
            item.sku, item.shelf, item.due
        )?;
    }
    Ok(())
}

fn list_all<R: Runtime>(rt: &R, items: &Indexed<Item>) -> io::Result<()> {
    println!(rt; "by shelf, the latest first:")?;
    list(rt, items.index(BY_SHELF).iter())?;
    println!(rt; "by day:")?;
    list(rt, items.index(BY_DAY).iter())
}

fn look_up<R: Runtime>(rt: &R, items: &Indexed<Item>) -> io::Result<()> {
    let shelf = by_shelf_leading(1);
    println!(rt; "on shelf 1: {}", items.index(BY_SHELF).count(&shelf))?;
    list(rt, items.index(BY_SHELF).equal(&shelf))?;
    println!(rt; "item 5: {:?}", items.index(BY_NUMBER).row(&by_number(5)))
}

fn main(rt: HostRuntime) -> io::Result<()> {
    let mut items = Indexed::new(rt.alloc(), INDICES, MOST)?;
    put_all(&rt, &mut items)?;
    list_all(&rt, &items)?;
    look_up(&rt, &items)
}
