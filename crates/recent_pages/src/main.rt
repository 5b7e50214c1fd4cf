//! Pages that were seen last, the latest first: each once, and at most three. A sequence with a hashed index beside it.
#![tactic(auto)]

mod pages;

use indexed::{Indexed, Why};
use pages::{BY_NUMBER, INDICES, LATEST, MOST, Page, by_number};
use std::io;

fn see(pages: &mut Indexed<Page>, number: i64) -> Result<(), Why> {
    if let Some(seen) = pages.index(BY_NUMBER).find(&by_number(number)) {
        return pages.relocate(LATEST, 0, seen);
    }
    let is_full = pages.len() == u64::from(MOST);
    if let (true, Some(oldest)) = (is_full, pages.index(LATEST).prev(None)?) {
        pages.erase(oldest)?;
    }
    match pages.insert_at(LATEST, 0, Page { number }) {
        Ok(_) => Ok(()),
        Err(refused) => Err(refused.why),
    }
}

fn list(rt: &HostRuntime, pages: &Indexed<Page>) -> io::Result<()> {
    for (_, page) in pages.index(LATEST).iter() {
        println!(rt; "  {}", page.number)?;
    }
    Ok(())
}

fn main(rt: HostRuntime) -> io::Result<()> {
    let mut pages = Indexed::new(rt.alloc(), INDICES, MOST)?;
    for number in [7, 3, 7, 5, 9, 3] {
        println!(&rt; "page {number}: {:?}", see(&mut pages, number))?;
        list(&rt, &pages)?;
    }
    Ok(())
}
