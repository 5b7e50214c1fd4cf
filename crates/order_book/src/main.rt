//! Bids by number, by price with the highest first, and by the day on which they end, if any: amended, cancelled, ended, and listed between two prices, and upwards from a bid.
#![tactic(auto)]

mod bids;

use bids::{BY_END, BY_NUMBER, BY_PRICE, Bid, INDICES, MOST, by_end, by_number, by_price};
use indexed::Indexed;
use std::io;

// Each with its number, its price, and the day on which it ends.
const BIDS: [(i64, i64, Option<i64>); 5] = [
    (1, 250, None),
    (2, 310, Some(2)),
    (3, 250, None),
    (4, 180, None),
    (5, 330, Some(1)),
];

fn place(rt: &HostRuntime, bids: &mut Indexed<Bid>) -> io::Result<()> {
    for (number, price, ends) in BIDS {
        let bid = Bid {
            number,
            price,
            ends,
        };
        let is_in = bids.insert(bid).is_ok();
        println!(rt; "bid {number}: {is_in}")?;
    }
    Ok(())
}

fn amend(rt: &HostRuntime, bids: &mut Indexed<Bid>, number: i64) -> io::Result<()> {
    if let Some(bid) = bids.index(BY_NUMBER).find(&by_number(number)) {
        let is_raised = bids.modify_with(bid, |bid| bid.price = 320).is_ok();
        println!(rt; "raised: {is_raised}")?;
    }
    Ok(())
}

fn cancel(rt: &HostRuntime, bids: &mut Indexed<Bid>, number: i64) -> io::Result<()> {
    if let Some(bid) = bids.index(BY_NUMBER).find(&by_number(number)) {
        println!(rt; "cancelled: {}", bids.erase(bid).is_ok())?;
        println!(rt; "and again: {}", bids.erase(bid).is_ok())?;
    }
    Ok(())
}

fn end_day(rt: &HostRuntime, bids: &mut Indexed<Bid>, day: i64) -> io::Result<()> {
    match bids.erase_key(BY_END, &by_end(Some(day))) {
        Ok(_) => Ok(()),
        Err(why) => println!(rt; "day {day} has not ended: {why}"),
    }
}

fn list(rt: &HostRuntime, bids: &Indexed<Bid>, high: i64, low: i64) -> io::Result<()> {
    println!(rt; "from {high} to {low}:")?;
    let (high, low) = (by_price(high), by_price(low));
    for (_, bid) in bids.index(BY_PRICE).between(&high, &low) {
        println!(rt; "  {} for {}", bid.number, bid.price)?;
    }
    Ok(())
}

// The bids that stand before this one, the nearest of them first.
fn list_above(rt: &HostRuntime, bids: &Indexed<Bid>, number: i64) -> io::Result<()> {
    let bid = bids.index(BY_NUMBER).find(&by_number(number));
    println!(rt; "above {number}:")?;
    if let Ok(above) = bids.index(BY_PRICE).iter_to(bid) {
        for (_, bid) in above.rev() {
            println!(rt; "  {} for {}", bid.number, bid.price)?;
        }
    }
    Ok(())
}

fn main(rt: HostRuntime) -> io::Result<()> {
    let mut bids: Indexed<Bid> = Indexed::new(rt.alloc(), INDICES, MOST)?;
    place(&rt, &mut bids)?;
    amend(&rt, &mut bids, 3)?;
    cancel(&rt, &mut bids, 4)?;
    end_day(&rt, &mut bids, 1)?;
    list(&rt, &bids, 320, 250)?;
    list_above(&rt, &bids, 1)
}
