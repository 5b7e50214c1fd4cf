//! Taking records out.
ghost use Rattle.std.specs.Prelude.{◌≡◌, ◌+◌, ℕ, IfErr, IfOk, IfSome, IsTrue, None, OnErr, OnOk, Some, cond, not, option_and_then};
ghost use Rattle.container_model.specs.State.{is_hashed_kind, row_of};
ghost use Rattle.container_model.specs.Find.{is_live, kind_at};
ghost use Rattle.container_model.specs.Change.{cleared, erased_count, next_in, with_erased, with_key_erased};
ghost use Rattle.linked_set.specs.Asked.{CanFindBy};
ghost use Rattle.linked_set.specs.Records.{alone, state_of};

use crate::erase::take_out;
use crate::erase_key::take_key;
use crate::linked::node_at;
use crate::linked_set::LinkedSet;
use container_model::{Handle, Why};
use key_extract::Extract;

impl<R: Drop, E: Extract<R> + Drop> LinkedSet<R, E> {
    /// Takes the record of a handle out, and answers it. Where an index is named, the answer also names the record after it
    /// there. Refused are, in this order: `Stale`; the `limit`, which is what else keeps every change out. Then nothing is
    /// changed. It takes no memory. O(log n) for each index, but O(the records behind it) in one whose places can be counted.
    pub fn take_out(
        &mut self,
        handle: Handle,
        index: Option<usize>,
        limit: Option<Why>,
    ) -> Result<(R, Option<Handle>), Why>
        requires { IfSome index (λ i. IsTrue (not (is_hashed_kind (kind_at (alone self.old) i)))) }
        ensures allowed { OnOk result (cond (is_live (alone self.old) handle) limit (Some Why.Stale)
            ≡ None) }
        ensures row { IfOk result (λ out. row_of self.old.entries handle ≡ Some out.0) }
        ensures next { IfOk result (λ out. out.1 ≡
            option_and_then (λ i. next_in (alone self.old) i handle) index) }
        ensures left { (max writes : ℕ) → OnOk result (state_of self.new max (writes + 1) ≡
            with_erased (state_of self.old max writes) handle) }
        ensures added { self.new.added ≡ self.old.added }
        ensures why { IfErr result (λ why. Some why ≡
            cond (is_live (alone self.old) handle) limit (Some Why.Stale)) }
        ensures unchanged { OnErr result (self.new ≡ self.old) }
    {
        let Some(node) = node_at(&self.set, &self.slots, handle) else {
            return Err(Why::Stale);
        };
        if let Some(why) = limit {
            return Err(why);
        }
        let next = self.next_of(index, handle);
        let entry = take_out(&mut self.set, &mut self.slots, node);
        Ok((entry.row, next))
    }

    /// Takes out every record that has the key at an index with one, also a leading part of it, and answers how many there
    /// were. It takes no memory. For each record that goes, a look-up and O(log n) for each index; and where there are more
    /// than a few, O(n) for each index whose places can be counted.
    pub fn take_key(&mut self, index: usize, probe: &E::Probe) -> u64
        requires { CanFindBy E.does_fit E.is_whole (alone self.old) index probe.now }
        ensures count { result ≡ erased_count E.probe_order_of (alone self.old) index probe.now }
        ensures left { (max writes : ℕ) → state_of self.new max (writes + 1) ≡
            with_key_erased E.probe_order_of (state_of self.old max writes) index probe.now }
        ensures added { self.new.added ≡ self.old.added }
    {
        take_key(&mut self.set, &mut self.slots, index, probe)
    }

    /// Takes every record out. It takes no memory. O(records + slots).
    pub fn clear(&mut self)
        ensures left { (max writes : ℕ) → state_of self.new max (writes + 1) ≡
            cleared (state_of self.old max writes) }
        ensures added { self.new.added ≡ self.old.added }
    {
        self.set.clear();
        self.slots.clear();
    }

    // The record after one that is there, in the index that is named.
    fn next_of(&self, index: Option<usize>, handle: Handle) -> Option<Handle>
        requires kind { IfSome index (λ i. IsTrue (not (is_hashed_kind (kind_at (alone self.now) i)))) }
        requires live { IsTrue (is_live (alone self.now) handle) }
        ensures { result ≡ option_and_then (λ i. next_in (alone self.now) i handle) index }
    {
        self.next(index?, handle).unwrap_or(None)
    }
}
