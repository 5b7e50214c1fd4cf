//! The comparisons that each counted call says beside those that it made, over a thousand ids in each order.
ghost use Rattle.std.specs.Prelude.{IsTrue};
ghost use Rattle.container_model.specs.State.{has_key_kind};

use crate::lone::{Lone, Search};
use crate::numbers::{End, Numbers, a_thousand};
use crate::ranks::most_followed;
use container_model::Kind;
use std::alloc::Global;

// A tree of the even numbers below 2,000, in this order.
fn evens(kind: Kind, end: End, alloc: Global) -> Option<Lone<u64, Numbers>>
    requires { IsTrue (has_key_kind kind) }
{
    let mut evens = Vec::new(alloc);
    for id in &a_thousand(end, alloc)? {
        evens.push(u64::from(*id).wrapping_mul(2)).ok()?;
    }
    let mut tree = Lone::new(alloc, kind, 2, 5, Numbers::new())?;
    tree.fill(evens)?;
    Some(tree)
}

// The most comparisons of a search for one of the numbers up to 2,000, where each says how many it made.
fn most_compared(tree: &Lone<u64, Numbers>, search: Search) -> Option<u64> {
    let mut most = 0;
    for id in 0..2001u64 {
        tree.keys().restart();
        let (_, said) = tree.searched(search, &id)?;
        if said != tree.keys().compared() {
            return None;
        }
        most = most.max(said);
    }
    Some(most)
}

// Whether each search of a tree of this kind says its comparisons, and they are few, in each order.
fn says_comparisons(kind: Kind, alloc: Global) -> Option<bool>
    requires { IsTrue (has_key_kind kind) }
{
    for end in End::EACH {
        let tree = evens(kind, end, alloc)?;
        for search in Search::EACH {
            if !(10..=20).contains(&most_compared(&tree, search)?) {
                return Some(false);
            }
        }
    }
    Some(true)
}

/// The same of an ordered tree.
pub(crate) fn tree_says_comparisons(alloc: Global) -> Option<bool> {
    says_comparisons(Kind::Ordered, alloc)
}

/// The same of a ranked tree.
pub(crate) fn ranks_say_comparisons(alloc: Global) -> Option<bool> {
    says_comparisons(Kind::Ranked, alloc)
}

/// Whether each place of a ranked tree says its links, and they are few, in each order.
pub(crate) fn places_say_links(alloc: Global) -> Option<bool> {
    for end in End::EACH {
        let tree = evens(Kind::Ranked, end, alloc)?;
        if !(9..=20).contains(&most_followed(&tree, 1000)?) {
            return Some(false);
        }
    }
    Some(true)
}
