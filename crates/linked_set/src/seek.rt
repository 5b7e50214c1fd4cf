//! Where a key stands in an index.
ghost use Rattle.std.specs.Prelude.{◌≡◌, IfOk};
ghost use Rattle.std.specs.Range.Bound.{bound_map};
ghost use Rattle.list_model.specs.Place as place;
ghost use Rattle.list_model.specs.Place.{count_equal, find_equal};
ghost use Rattle.container_model.specs.State.{is_ranked_kind, is_sorted_kind, list_at};
ghost use Rattle.container_model.specs.Find.{probe_side};
ghost use Rattle.linked_set.specs.Asked.{AreBoundsOf, CanFindBy, FitsAt};
ghost use Rattle.linked_set.specs.Edges.{edge_of};
ghost use Rattle.linked_set.specs.Records.{alone};

use crate::linked::position_at;
use crate::linked_set::LinkedSet;
use container_model::{Handle, Kind};
use index_set::Nodes;
use key_extract::Extract;
use std::alloc::AllocError;
use std::ops::Bound;

impl<R: Drop, E: Extract<R> + Drop> LinkedSet<R, E> {
    /// The first record of an index with a key that has this one, and in a hashed index the one put in first of those that
    /// have it. O(log n); expected O(1) in a hashed index, and in one that is not unique O(1 + the records that have the
    /// key) once changes brought records to it that are older than others of it.
    pub fn find(&self, index: usize, probe: &E::Probe) -> Option<Handle>
        requires { CanFindBy E.does_fit E.is_whole (alone self.now) index probe.now }
        ensures { result ≡ find_equal (probe_side E.probe_order_of (alone self.now) index probe.now)
            (list_at self.now.lists index) }
    {
        let spec = &self.set.specs()[index];
        let listed = self.set.at(index);
        match (spec.kind, spec.unique) {
            // No other record has the key, so the search need not go on.
            (Kind::Hashed, true) => position_at(&self.set, listed.find_any(probe)),
            _ => position_at(&self.set, listed.find(probe)),
        }
    }

    /// How many records of an index with a key have this one. In O(log n) comparisons and that many steps in an ordered
    /// index, O(log n) in a ranked one, expected O(1 + those records) in a hashed one.
    pub fn count(&self, index: usize, probe: &E::Probe) -> u64
        requires { CanFindBy E.does_fit E.is_whole (alone self.now) index probe.now }
        ensures { result ≡ count_equal (probe_side E.probe_order_of (alone self.now) index probe.now)
            (list_at self.now.lists index) }
    {
        self.set.at(index).count(probe)
    }

    /// The first record of an index in order that does not come before the key, or the end. O(log n).
    pub fn lower(&self, index: usize, probe: &E::Probe) -> Option<Handle>
        requires { FitsAt is_sorted_kind E.does_fit (alone self.now) index probe.now }
        ensures { result ≡ place.lower (probe_side E.probe_order_of (alone self.now) index probe.now)
            (list_at self.now.lists index) }
    {
        position_at(&self.set, self.set.at(index).lower(probe))
    }

    /// The first record of an index in order that comes after the key, or the end. O(log n).
    pub fn upper(&self, index: usize, probe: &E::Probe) -> Option<Handle>
        requires { FitsAt is_sorted_kind E.does_fit (alone self.now) index probe.now }
        ensures { result ≡ place.upper (probe_side E.probe_order_of (alone self.now) index probe.now)
            (list_at self.now.lists index) }
    {
        position_at(&self.set, self.set.at(index).upper(probe))
    }

    /// The rank, counted from 0, of the first record of a ranked index that has the key, or where none has it the number of
    /// records. O(log n).
    pub fn find_rank(&self, index: usize, probe: &E::Probe) -> u64
        requires { FitsAt is_ranked_kind E.does_fit (alone self.now) index probe.now }
        ensures { result ≡ place.find_rank (probe_side E.probe_order_of (alone self.now) index
            probe.now) (list_at self.now.lists index) }
    {
        self.set.at(index).find_rank(probe)
    }

    /// How many records of a ranked index come before the key. O(log n).
    pub fn lower_rank(&self, index: usize, probe: &E::Probe) -> u64
        requires { FitsAt is_ranked_kind E.does_fit (alone self.now) index probe.now }
        ensures { result ≡ place.below (probe_side E.probe_order_of (alone self.now) index probe.now)
            (list_at self.now.lists index) }
    {
        self.set.at(index).lower_rank(probe)
    }

    /// How many records of a ranked index do not come after the key. O(log n).
    pub fn upper_rank(&self, index: usize, probe: &E::Probe) -> u64
        requires { FitsAt is_ranked_kind E.does_fit (alone self.now) index probe.now }
        ensures { result ≡ place.not_above (probe_side E.probe_order_of (alone self.now) index
            probe.now) (list_at self.now.lists index) }
    {
        self.set.at(index).upper_rank(probe)
    }

    /// The records of an index in order from the low bound up to the high one, in its order; none where the high bound
    /// stands before the low one. It takes memory for the answer. O(log n + the records answered).
    pub fn range(
        &self,
        index: usize,
        low: Bound<&E::Probe>,
        high: Bound<&E::Probe>,
    ) -> Result<Vec<Handle>, AllocError>
        requires { AreBoundsOf E.does_fit (alone self.now) index (bound_map (λ p. p.now) low)
            (bound_map (λ p. p.now) high) }
        ensures { IfOk result (λ handles. handles.items ≡ place.range
            (edge_of (probe_side E.probe_order_of (alone self.now) index)
            (bound_map (λ p. p.now) low.entry))
            (edge_of (probe_side E.probe_order_of (alone self.now) index)
            (bound_map (λ p. p.now) high.entry)) (list_at self.now.lists index)) }
    {
        let mut handles = Vec::new(self.alloc);
        let mut left = self.iter_range(index, low, high);
        while let Some((handle, _)) = left.next() {
            handles.push(handle)?;
        }
        Ok(handles)
    }
}
