//! Sets made of what another held.
ghost use Rattle.std.specs.Prelude.{◌≡◌, ℕ, IfErr, IfOk, OnOk, length, map};
ghost use Rattle.container_model.specs.State.{AreIndices};
ghost use Rattle.linked_set.specs.Asked.{IsDeclared};
ghost use Rattle.linked_set.specs.Records.{state_of};
ghost use Rattle.linked_set.specs.Restored.{AreApart, IsMisfit, restored};

use crate::linked_set::LinkedSet;
use crate::restoring::{Misfit, restore};
use container_model::{Entry, Handle, Spec};
use key_extract::Extract;
use std::alloc::Global;

impl<R: Drop, E: Extract<R> + Drop> LinkedSet<R, E> {
    /// These records under indices in these orders, one for each index. What is given is tried: the first cause of `Misfit`
    /// tells what it is not, and all causes of an index come before those of a later one. It moves the records, and takes
    /// memory for slots up to the greatest that is named. O(n log n) for each index, and O(slots log slots).
    pub fn restore(
        alloc: Global,
        specs: Vec<Spec>,
        keys: E,
        most: usize,
        entries: Vec<Entry<R>>,
        orders: &[Vec<Handle>],
    ) -> Result<Self, Misfit>
        requires declared { IsDeclared most (E.has_key keys) specs.items }
        requires one_each { length orders.now ≡ length specs.items }
        ensures made { IfOk result (λ made. (max writes : ℕ) → state_of made max writes ≡
            restored most max writes keys specs.items entries.items
            (map (λ order. order.items) orders.now)) }
        ensures fits { OnOk result (AreIndices (E.order_of keys) entries.items 0 specs.items
            (map (λ order. order.items) orders.now)) }
        ensures apart { OnOk result (AreApart entries.items) }
        ensures added { IfOk result (λ made. made.added ≡ length entries.items) }
        ensures cause { IfErr result (IsMisfit entries.items (E.order_of keys) specs.items
            (map (λ order. order.items) orders.now)) }
    {
        match restore(alloc, specs, keys, most, entries, orders) {
            Ok((set, slots)) => Ok(LinkedSet { set, slots, alloc }),
            Err(why) => Err(why),
        }
    }
}
