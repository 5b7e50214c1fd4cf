//! The order of a sequence changed.

ghost use Rattle.std.specs.Prelude.{◌≡◌, ◌<◌, ◌⊎◌, IfErr, IsTrue, Some, length, unwrap_or};
ghost use Rattle.container_model.specs.Sequence.{rearrange_refusal, relocate_refusal, sequence_refusal, with_list, with_relocated, with_reversed, with_sorted};
ghost use Rattle.container_model.specs.declared.refusal.Why.TheVariants as whys;
ghost use Rattle.key_extract.specs.Keys.{key_cmp};
ghost use Rattle.multi_index.specs.Rearranged.{is_after_memory};
ghost use Rattle.table_records.specs.Changes.{Leaves};

use crate::records::Records;
use container_model::{Handle, Why};
use key_extract::RowSort;

impl Records {
    /// Moves a record before a place of a sequence, counted from 0. Costs what `MultiIndex::relocate` does.
    pub fn relocate(&mut self, index: usize, place: u64, handle: Handle) -> Result<(), Why>
        requires { index < length self.old.shape.indices }
        ensures leaves { Leaves result self.old self.new
            (relocate_refusal self.old.records index place handle)
            (with_relocated self.old.records index place handle) }
        ensures why { IfErr result (λ why. Some why ≡
            relocate_refusal self.old.records index place handle) }
    {
        let moved = self.container.relocate(index, place, handle);
        moved.map_err(|refused| refused.why)
    }

    /// Puts the records of a sequence into the order of their handles. Costs what `MultiIndex::rearrange` does.
    pub fn rearrange(&mut self, index: usize, handles: &[Handle]) -> Result<(), Why>
        requires { index < length self.old.shape.indices }
        ensures leaves { Leaves result self.old self.new
            (rearrange_refusal self.old.records index handles.now)
            (with_list self.old.records index handles.now) }
        ensures why { IfErr result
            (λ why. (Some why ≡ rearrange_refusal self.old.records index handles.now) ⊎
            ((why ≡ whys.Memory) ×
            IsTrue (is_after_memory (rearrange_refusal self.old.records index handles.now)))) }
    {
        let rearranged = self.container.rearrange(index, handles);
        rearranged.map_err(|refused| refused.why)
    }

    /// Puts the records of a sequence into the order of a key; those that are equal by it stay as they stand. Costs what
    /// `MultiIndex::sort` does.
    pub fn sort(&mut self, index: usize, order: &RowSort) -> Result<(), Why>
        requires { index < length self.old.shape.indices }
        ensures leaves { Leaves result self.old self.new (sequence_refusal self.old.records index)
            (with_sorted (key_cmp order.now) self.old.records index) }
        ensures why { IfErr result (λ why. why ≡ unwrap_or (sequence_refusal self.old.records index)
            whys.Memory) }
    {
        match self.container.sort(index, order) {
            Ok(()) => Ok(()),
            Err(refused) => Err(refused.why),
        }
    }

    /// Turns the order of a sequence round. Costs what `MultiIndex::reverse` does.
    pub fn reverse(&mut self, index: usize) -> Result<(), Why>
        requires { index < length self.old.shape.indices }
        ensures leaves { Leaves result self.old self.new (sequence_refusal self.old.records index)
            (with_reversed self.old.records index) }
        ensures why { IfErr result (λ why. Some why ≡ sequence_refusal self.old.records index) }
    {
        let reversed = self.container.reverse(index);
        reversed.map_err(|refused| refused.why)
    }
}
