//! Changes of the order of one sequence that take memory.
ghost use Rattle.std.specs.Prelude.{◌≡◌, ◌⊎◌, IsTrue, None, Some, IfErr, OnErr, OnOk};
ghost use Rattle.container_model.specs.Sequence.{rearrange_refusal, with_list};
ghost use Rattle.linked_set.specs.Rearranged.{is_after_memory};

use crate::container::MultiIndex;
use container_model::{Handle, Refused, Why};
use key_extract::Extract;

impl<R: Drop, E: Extract<R> + Drop> MultiIndex<R, E> {
    /// Puts the records of a sequence into the order of their handles. A refused order changes nothing: `Kind`, where the
    /// index is no sequence, comes before `Stale`, that before `Order`, where the handles are not each record's once, and that
    /// before `Spent`. It takes memory for a number and a node for each record, and may be refused it before `Order` or
    /// `Spent` is seen. O(n log n).
    pub fn rearrange(&mut self, index: usize, handles: &[Handle]) -> Result<(), Refused<R>>
        ensures allowed { OnOk result (rearrange_refusal self.old index handles.now ≡ None) }
        ensures ok { OnOk result (self.new ≡ with_list self.old index handles.now) }
        ensures why { IfErr result
            (λ refused. (Some refused.why ≡ rearrange_refusal self.old index handles.now) ⊎
            ((refused.why ≡ Why.Memory) ×
            IsTrue (is_after_memory (rearrange_refusal self.old index handles.now)))) }
        ensures handed_back { IfErr result (λ refused. refused.row ≡ None) }
        ensures unchanged { OnErr result (self.new ≡ self.old) }
    {
        match self.set.rearrange(index, handles, self.writes) {
            Ok(()) => {
                self.writes += 1;
                Ok(())
            }
            Err(why) => Err(Refused { why, row: None }),
        }
    }
}
