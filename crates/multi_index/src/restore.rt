//! Containers made of what another held.
ghost use Rattle.std.specs.Prelude.{◌≡◌, ◌↔◌, ◌<◌, ◌^◌, IfOk, IfErr, true};
ghost use Rattle.linked_set.specs.Asked.{IsDeclared};
ghost use Rattle.multi_index.specs.Restored.{AreStamped, AreWithin, IsUnrestorable, saved_state, unrestorable_of};

use crate::container::MultiIndex;
use container_model::{Entry, Handle, Spec};
use key_extract::Extract;
use linked_set::{LinkedSet, Misfit};
use std::alloc::Global;
use thiserror::Error;

/// What a container held.
#[derive(Drop)]
pub struct Saved<R> {
    /// The number of its last accepted write.
    pub writes: u64,
    /// Its records with their handles, in the order of their insertion.
    pub entries: Vec<Entry<R>>,
    /// The handles of each index, in the index's order; those of a hashed one in the order of insertion.
    pub orders: Vec<Vec<Handle>>,
}

/// Why what is told is not what such a container holds.
#[derive(Clone, Copy, Debug, PartialEq, Eq, Error)]
pub enum Unrestorable {
    /// Memory was refused.
    #[error("out of memory")]
    Memory,
    /// There are not as many orders as indices.
    #[error("there are not as many orders as indices")]
    Orders,
    /// There are more records than there may be.
    #[error("there are more records than there may be")]
    Full,
    /// The numbers of the records' writes do not rise from 1 or above to at most that of the last write.
    #[error("the stamps do not rise from 1 or above to at most the number of the last write")]
    Stamps,
    /// Two records lie in one slot, or one in a slot that no record of such a container lies in.
    #[error("two records lie in one slot, or one lies past the last slot")]
    Slots,
    /// The order of this index has not each record's handle once.
    #[error("the order of index {0} does not have each record's handle once")]
    Members(usize),
    /// This index is unique, and two records have one key.
    #[error("two records have one key in the unique index {0}")]
    Clash(usize),
    /// The order of this index goes against its key, or in a hashed index against the order of insertion.
    #[error("the order of index {0} is not by its key, or in a hashed index not that of insertion")]
    Order(usize),
}

// Whether the records' numbers are those of writes, and rise.
fn are_stamped<R>(entries: &[Entry<R>], writes: u64) -> bool
    ensures stamped { (result ≡ true) ↔ AreStamped entries.now writes }
    ensures fits { writes < 2 ^ 64 }
{
    let mut last = 0;
    for entry in entries {
        let stamp = entry.handle.stamp;
        if stamp <= last {
            return false;
        }
        if stamp > writes {
            return false;
        }
        last = stamp;
    }
    true
}

// Whether each record lies in one of the first so many slots.
fn are_within<R>(entries: &[Entry<R>], max: u32) -> bool
    ensures { (result ≡ true) ↔ AreWithin entries.now max }
{
    for entry in entries {
        if entry.handle.slot >= max {
            return false;
        }
    }
    true
}

// The same of a set.
fn told(why: Misfit) -> Unrestorable
    ensures { result ≡ unrestorable_of why }
{
    match why {
        Misfit::Memory => Unrestorable::Memory,
        Misfit::Slots => Unrestorable::Slots,
        Misfit::Members(index) => Unrestorable::Members(index),
        Misfit::Clash(index) => Unrestorable::Clash(index),
        Misfit::Order(index) => Unrestorable::Order(index),
    }
}

impl<R: Drop, E: Extract<R> + Drop> MultiIndex<R, E> {
    /// The container that was saved: of the same records with the same handles, in the same order in each index, and with the
    /// same number of the last write. What is told is tried, as it may come from a file: what is not what such a container
    /// holds is refused by its first cause, in the order in which the causes stand in `Unrestorable`; all causes of an index
    /// come before those of a later one. The records are moved. It takes memory for slots up to the greatest that is named,
    /// which is below `max`. O(n log n) for each index.
    pub fn restore(
        alloc: Global,
        specs: Vec<Spec>,
        keys: E,
        most: usize,
        max: u32,
        saved: Saved<R>,
    ) -> Result<Self, Unrestorable>
        requires { IsDeclared most (E.has_key keys) specs.items }
        ensures made { IfOk result (λ made. made ≡ saved_state most max keys specs.items saved) }
        ensures why { IfErr result (IsUnrestorable (E.order_of keys) specs.items max saved) }
    {
        if saved.orders.len() != specs.len() {
            return Err(Unrestorable::Orders);
        }
        if saved.entries.len() > max as usize {
            return Err(Unrestorable::Full);
        }
        if !are_stamped(&saved.entries, saved.writes) {
            return Err(Unrestorable::Stamps);
        }
        if !are_within(&saved.entries, max) {
            return Err(Unrestorable::Slots);
        }
        match LinkedSet::restore(alloc, specs, keys, most, saved.entries, &saved.orders) {
            Ok(set) => Ok(MultiIndex {
                set,
                max,
                writes: saved.writes,
            }),
            Err(why) => Err(told(why)),
        }
    }
}
