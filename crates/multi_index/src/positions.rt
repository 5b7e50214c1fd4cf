//! Positions in an index: a record, or the end.
ghost use Rattle.std.specs.Prelude.{◌≡◌};
ghost use Rattle.container_model.specs.State.{has_places_kind, is_random_kind};
ghost use Rattle.container_model.specs.Find.{kind_at, nth as the_nth, place as the_place, rank as the_rank, project_next as the_next, project_prev as the_prev};

use crate::container::MultiIndex;
use container_model::{Handle, Kind, Why};
use key_extract::Extract;

impl<R: Drop, E: Extract<R> + Drop> MultiIndex<R, E> {
    /// The record at a place of the index, counted from 0, or the end; an index whose places cannot be counted answers
    /// `Kind`. O(log n) in a ranked index, O(1) in a random one.
    #[inline(always)]
    pub fn nth(&self, index: usize, n: u64) -> Result<Option<Handle>, Why>
        ensures { result ≡ the_nth self.now index n }
    {
        if self.has_places(index) {
            Ok(self.set.nth(index, n))
        } else {
            Err(Why::Kind)
        }
    }

    /// The rank of a position, counted from 0: that of the end is the number of records. An index without ranks answers
    /// `Kind`, and only then a handle that names no record is `Stale`. O(log n).
    #[inline(always)]
    pub fn rank(&self, index: usize, position: Option<Handle>) -> Result<u64, Why>
        ensures { result ≡ the_rank self.now index position }
    {
        if !self.is_ranked(index) {
            return Err(Why::Kind);
        }
        match position {
            Some(handle) => self.set.place_of(index, handle),
            None => Ok(self.set.len() as u64),
        }
    }

    /// The place, counted from 0, of a record in a random index; another index answers `Kind`, and only then a handle that
    /// names no record is `Stale`. O(1).
    #[inline(always)]
    pub fn place_of(&self, index: usize, handle: Handle) -> Result<u64, Why>
        ensures { result ≡ the_place self.now index handle }
    {
        if self.is_random(index) {
            self.set.place_of(index, handle)
        } else {
            Err(Why::Kind)
        }
    }

    /// The position after one in the index; after the last record, and after the end, stands the end. A hashed index
    /// answers `Kind`, and only then a handle that names no record is `Stale`. O(1) in a sequence, O(log n) in an index in
    /// order.
    #[inline(always)]
    pub fn project_next(
        &self,
        index: usize,
        position: Option<Handle>,
    ) -> Result<Option<Handle>, Why>
        ensures { result ≡ the_next self.now index position }
    {
        if self.is_hashed(index) {
            return Err(Why::Kind);
        }
        match position {
            Some(handle) => self.set.next(index, handle),
            None => Ok(None),
        }
    }

    /// The position before one in the index; before the end stands the last record, and before the first record the end. A
    /// hashed index answers `Kind`, and only then a handle that names no record is `Stale`. O(1) in a sequence, O(log n) in
    /// an index in order.
    #[inline(always)]
    pub fn project_prev(
        &self,
        index: usize,
        position: Option<Handle>,
    ) -> Result<Option<Handle>, Why>
        ensures { result ≡ the_prev self.now index position }
    {
        if self.is_hashed(index) {
            return Err(Why::Kind);
        }
        match position {
            Some(handle) => self.set.prev(index, handle),
            None => Ok(self.set.last(index)),
        }
    }

    // Whether the record at a place can be asked for.
    fn has_places(&self, index: usize) -> bool
        ensures { result ≡ has_places_kind (kind_at self.now index) }
    {
        match self.kind(index) {
            Kind::Random | Kind::Ranked => true,
            Kind::Sequenced | Kind::Ordered | Kind::Hashed => false,
        }
    }

    // Whether the index is a sequence whose places can be counted.
    fn is_random(&self, index: usize) -> bool
        ensures { result ≡ is_random_kind (kind_at self.now index) }
    {
        match self.kind(index) {
            Kind::Random => true,
            Kind::Sequenced | Kind::Ordered | Kind::Ranked | Kind::Hashed => false,
        }
    }
}
