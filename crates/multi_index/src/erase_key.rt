//! Taking out all records of a key.
ghost use Rattle.std.specs.Prelude.{◌≡◌, ◌+◌, ◌≤◌, None, Some, IsTrue, IfErr, IfOk, OnErr, OnOk};
ghost use Rattle.container_model.specs.Find.{is_unique_at};
ghost use Rattle.container_model.specs.Change.{erase_key_refusal, erased_count, with_key_erased};
ghost use Rattle.linked_set.specs.Asked.{IsKeyOf};

use crate::container::MultiIndex;
use container_model::{Refused, Why};
use key_extract::Extract;

impl<R: Drop, E: Extract<R> + Drop> MultiIndex<R, E> {
    /// Takes out every record that has the key at the index, also a leading part of one, and answers how many there were: at
    /// most one of a whole key, where the index is unique. A refusal changes nothing: `Kind`, where the index is a sequence,
    /// comes before `Spent`. It takes no memory. For each record that goes, a look-up and O(log n)
    /// for each index; and where there are more than a few, O(n) for each index whose places can be counted.
    pub fn erase_key(&mut self, index: usize, probe: &E::Probe) -> Result<u64, Refused<R>>
        requires { IsKeyOf E.does_fit E.is_whole self.old index probe.now }
        ensures count { IfOk result (λ count. count ≡ erased_count E.probe_order_of self.old index
            probe.now) }
        ensures one { IsTrue (is_unique_at self.old index) →
            IsTrue (E.is_whole self.old.keys index probe.now) → IfOk result (λ count. count ≤ 1) }
        ensures allowed { OnOk result (erase_key_refusal self.old index ≡ None) }
        ensures ok { OnOk result (self.new ≡ with_key_erased E.probe_order_of self.old index
            probe.now) }
        ensures why { IfErr result (λ refused. Some refused.why ≡
            erase_key_refusal self.old index) }
        ensures handed_back { IfErr result (λ refused. refused.row ≡ None) }
        ensures unchanged { OnErr result (self.new ≡ self.old) }
    {
        if let Some(why) = self.erase_key_refusal(index) {
            return Err(Refused { why, row: None });
        }
        let count = self.set.take_key(index, probe);
        self.writes += 1;
        Ok(count)
    }

    // Why the records of a key may not be taken out.
    fn erase_key_refusal(&self, index: usize) -> Option<Why>
        ensures { result ≡ erase_key_refusal self.now index }
    {
        if !self.has_key(index) {
            return Some(Why::Kind);
        }
        self.spent()
    }
}
