//! The records of an index in order that stand between two bounds.
ghost use Rattle.std.specs.Prelude.{◌≡◌, IfOk, IfErr, IsTrue, Ok, cond};
ghost use Rattle.std.specs.Range.Bound.{bound_map};
ghost use Rattle.container_model.specs.State.{is_sorted_kind};
ghost use Rattle.container_model.specs.Find.{found_range, kind_at, probe_side};
ghost use Rattle.linked_set.specs.Edges.{edge_of};
ghost use Rattle.linked_set.specs.Asked.{AreBoundsOf};

use crate::container::MultiIndex;
use container_model::{Handle, Why};
use key_extract::Extract;
use std::ops::Bound;

impl<R: Drop, E: Extract<R> + Drop> MultiIndex<R, E> {
    /// The records of the index from the low bound up to the high one, in its order; none where the high bound stands before
    /// the low one. An index that is not in order answers `Kind`. It takes memory for the answer, and where that is refused
    /// it answers `Memory`. O(log n + the records answered).
    pub fn range(
        &self,
        index: usize,
        low: Bound<&E::Probe>,
        high: Bound<&E::Probe>,
    ) -> Result<Vec<Handle>, Why>
        requires { IsTrue (is_sorted_kind (kind_at self.now index)) → AreBoundsOf E.does_fit self.now
            index (bound_map (λ p. p.now) low) (bound_map (λ p. p.now) high) }
        ensures ok { IfOk result (λ handles. found_range self.now index
            (edge_of (probe_side E.probe_order_of self.now index)
            (bound_map (λ p. p.now) low.entry))
            (edge_of (probe_side E.probe_order_of self.now index)
            (bound_map (λ p. p.now) high.entry)) ≡ Ok handles.items) }

        // Memory is refused only where nothing else is.
        ensures why { IfErr result (λ why. why ≡ cond (is_sorted_kind (kind_at self.now index))
            Why.Memory Why.Kind) }
    {
        if !self.is_sorted(index) {
            return Err(Why::Kind);
        }
        self.set.range(index, low, high).map_err(|_| Why::Memory)
    }
}
