//! New orders of a sequence.
ghost use Rattle.std.specs.Prelude.{◌≡◌, ◌⊎◌, ◌<◌, IfErr, IsTrue, None, OnErr, OnOk, Some, length, unwrap_or};
ghost use Rattle.container_model.specs.Sequence.{rearrange_refusal, sequence_refusal, with_list, with_reversed, with_sorted};
ghost use Rattle.multi_index.specs.Rearranged.{is_after_memory};
ghost use Rattle.indexed.specs.Kinds.{kind_of};

use crate::container::Indexed;
use crate::kinds::{Arranged, Tag};
use field_keys::Fields;
use key_extract::RowOrder;
use multi_index::{Handle, Why};

impl<R: Fields + Drop> Indexed<R> {
    /// Turns the order of a sequence round. `Spent` alone refuses, and then nothing is changed. O(records).
    pub fn reverse<K: Arranged>(&mut self, tag: Tag<K>) -> Result<(), Why>
        requires within { tag.0 < length R.indices }
        requires kind { kind_of R.indices tag.0 ≡ K.kind }
        ensures allowed { OnOk result (sequence_refusal self.old tag.0 ≡ None) }
        ensures ok { OnOk result (self.new ≡ with_reversed self.old tag.0) }
        ensures why { IfErr result (λ why. Some why ≡ sequence_refusal self.old tag.0) }
        ensures unchanged { OnErr result (self.new ≡ self.old) }
    {
        self.check_tag(tag, "reverse");
        match self.records.reverse(tag.0) {
            Ok(()) => Ok(()),
            Err(refused) => Err(refused.why),
        }
    }

    /// Puts a sequence in the order of its records, equal ones as they stood. A refused one is unchanged: `Spent` comes before
    /// `Memory`. It takes memory for a few words for each record. O(n log n).
    pub fn sort<K: Arranged, O: RowOrder<R>>(&mut self, tag: Tag<K>, order: &O) -> Result<(), Why>
        requires within { tag.0 < length R.indices }
        requires kind { kind_of R.indices tag.0 ≡ K.kind }
        ensures allowed { OnOk result (sequence_refusal self.old tag.0 ≡ None) }
        ensures ok { OnOk result (self.new ≡ with_sorted (O.comparison order.now) self.old tag.0) }

        // Memory is refused only where nothing else is.
        ensures why { IfErr result (λ why. why ≡
            unwrap_or (sequence_refusal self.old tag.0) Why.Memory) }
        ensures unchanged { OnErr result (self.new ≡ self.old) }
    {
        self.check_tag(tag, "sort");
        match self.records.sort(tag.0, order) {
            Ok(()) => Ok(()),
            Err(refused) => Err(refused.why),
        }
    }

    /// Puts the records of a sequence into the order of their handles. A refused order changes nothing: `Stale` comes before
    /// `Order`, where the handles are not each record's once, and that before `Spent`. It takes memory for a number and a node
    /// for each record, and may be refused it before `Order` or `Spent` is seen. O(n log n).
    pub fn rearrange<K: Arranged>(&mut self, tag: Tag<K>, handles: &[Handle]) -> Result<(), Why>
        requires within { tag.0 < length R.indices }
        requires kind { kind_of R.indices tag.0 ≡ K.kind }
        ensures allowed { OnOk result (rearrange_refusal self.old tag.0 handles.now ≡ None) }
        ensures ok { OnOk result (self.new ≡ with_list self.old tag.0 handles.now) }
        ensures why { IfErr result
            (λ why. (Some why ≡ rearrange_refusal self.old tag.0 handles.now) ⊎
            ((why ≡ Why.Memory) ×
            IsTrue (is_after_memory (rearrange_refusal self.old tag.0 handles.now)))) }
        ensures unchanged { OnErr result (self.new ≡ self.old) }
    {
        self.check_tag(tag, "rearrange");
        match self.records.rearrange(tag.0, handles) {
            Ok(()) => Ok(()),
            Err(refused) => Err(refused.why),
        }
    }
}
