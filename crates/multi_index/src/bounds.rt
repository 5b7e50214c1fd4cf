//! Where a key stands in an index that is in order.
ghost use Rattle.std.specs.Prelude.{◌≡◌, IsTrue};
ghost use Rattle.container_model.specs.State.{is_sorted_kind, is_ranked_kind};
ghost use Rattle.container_model.specs.Find.{found_lower, found_upper, found_rank, lower_rank as the_lower_rank, upper_rank as the_upper_rank, kind_at};

use crate::container::MultiIndex;
use container_model::{Handle, Kind, Why};
use key_extract::Extract;

impl<R: Drop, E: Extract<R> + Drop> MultiIndex<R, E> {
    /// The first record of the index that does not come before the key, or the end; an index that is not in order has no
    /// such call, and answers `Kind`. O(log n).
    pub fn lower(&self, index: usize, probe: &E::Probe) -> Result<Option<Handle>, Why>
        requires fits { IsTrue (is_sorted_kind (kind_at self.now index)) →
            IsTrue (E.does_fit self.now.keys index probe.now) }
        ensures { result ≡ found_lower E.probe_order_of self.now index probe.now }
    {
        if self.is_sorted(index) {
            Ok(self.set.lower(index, probe))
        } else {
            Err(Why::Kind)
        }
    }

    /// The first record of the index that comes after the key, or the end; an index that is not in order has no such call,
    /// and answers `Kind`. O(log n).
    pub fn upper(&self, index: usize, probe: &E::Probe) -> Result<Option<Handle>, Why>
        requires fits { IsTrue (is_sorted_kind (kind_at self.now index)) →
            IsTrue (E.does_fit self.now.keys index probe.now) }
        ensures { result ≡ found_upper E.probe_order_of self.now index probe.now }
    {
        if self.is_sorted(index) {
            Ok(self.set.upper(index, probe))
        } else {
            Err(Why::Kind)
        }
    }

    /// The rank, counted from 0, of the first record of the index that has the key, or where none has it the number of
    /// records; an index without ranks answers `Kind`. O(log n).
    pub fn find_rank(&self, index: usize, probe: &E::Probe) -> Result<u64, Why>
        requires fits { IsTrue (is_ranked_kind (kind_at self.now index)) →
            IsTrue (E.does_fit self.now.keys index probe.now) }
        ensures { result ≡ found_rank E.probe_order_of self.now index probe.now }
    {
        if self.is_ranked(index) {
            Ok(self.set.find_rank(index, probe))
        } else {
            Err(Why::Kind)
        }
    }

    /// How many records of the index come before the key; an index without ranks answers `Kind`. O(log n).
    pub fn lower_rank(&self, index: usize, probe: &E::Probe) -> Result<u64, Why>
        requires fits { IsTrue (is_ranked_kind (kind_at self.now index)) →
            IsTrue (E.does_fit self.now.keys index probe.now) }
        ensures { result ≡ the_lower_rank E.probe_order_of self.now index probe.now }
    {
        if self.is_ranked(index) {
            Ok(self.set.lower_rank(index, probe))
        } else {
            Err(Why::Kind)
        }
    }

    /// How many records of the index do not come after the key; an index without ranks answers `Kind`. O(log n).
    pub fn upper_rank(&self, index: usize, probe: &E::Probe) -> Result<u64, Why>
        requires fits { IsTrue (is_ranked_kind (kind_at self.now index)) →
            IsTrue (E.does_fit self.now.keys index probe.now) }
        ensures { result ≡ the_upper_rank E.probe_order_of self.now index probe.now }
    {
        if self.is_ranked(index) {
            Ok(self.set.upper_rank(index, probe))
        } else {
            Err(Why::Kind)
        }
    }

    // Whether the index keeps its records in order.
    pub(crate) fn is_sorted(&self, index: usize) -> bool
        ensures { result ≡ is_sorted_kind (kind_at self.now index) }
    {
        match self.kind(index) {
            Kind::Ordered | Kind::Ranked => true,
            Kind::Sequenced | Kind::Random | Kind::Hashed => false,
        }
    }

    // Whether the index has ranks.
    pub(crate) fn is_ranked(&self, index: usize) -> bool
        ensures { result ≡ is_ranked_kind (kind_at self.now index) }
    {
        match self.kind(index) {
            Kind::Ranked => true,
            Kind::Sequenced | Kind::Random | Kind::Ordered | Kind::Hashed => false,
        }
    }
}
