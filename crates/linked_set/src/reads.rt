//! Positions in an index: a record, or the end. An index that is not there has the end alone.
ghost use Rattle.std.specs.Prelude.{◌≡◌, IsTrue, Ok, Err, cond, not, slice_get};
ghost use Rattle.list_model.specs.Walk as walk;
ghost use Rattle.container_model.specs.State.{has_places_kind, is_hashed_kind, is_handle, list_at};
ghost use Rattle.container_model.specs.Find.{is_live, kind_at};
ghost use Rattle.linked_set.specs.Records.{alone};

use crate::beside::index_at;
use crate::linked::{node_at, position_at};
use crate::linked_set::LinkedSet;
use container_model::{Handle, Why};
use index_set::Nodes;
use key_extract::Extract;

impl<R: Drop, E: Extract<R> + Drop> LinkedSet<R, E> {
    /// The record at a place of an index whose places can be counted, counted from 0, or the end. O(log n) in a ranked
    /// index, O(1) in a random one.
    #[inline(always)]
    pub fn nth(&self, index: usize, n: u64) -> Option<Handle>
        requires { IsTrue (has_places_kind (kind_at (alone self.now) index)) }
        ensures { result ≡ slice_get (list_at self.now.lists index) n }
    {
        position_at(&self.set, self.set.at(index).nth(n))
    }

    /// The last record of an index that is not hashed, or the end. O(1) in a sequence, O(log n) in an index in order.
    #[inline(always)]
    pub fn last(&self, index: usize) -> Option<Handle>
        requires { IsTrue (not (is_hashed_kind (kind_at (alone self.now) index))) }
        ensures { result ≡ walk.last (list_at self.now.lists index) }
    {
        match index_at(&self.set, index) {
            Some(listed) => position_at(&self.set, listed.last()),
            None => None,
        }
    }

    /// The place of a record, counted from 0, in an index whose places can be counted; a handle that names no record is
    /// `Stale`. O(log n) in a ranked index, O(1) in a random one.
    #[inline(always)]
    pub fn place_of(&self, index: usize, handle: Handle) -> Result<u64, Why>
        requires { IsTrue (has_places_kind (kind_at (alone self.now) index)) }
        ensures { result ≡ cond (is_live (alone self.now) handle)
            (Ok (walk.place_of (is_handle handle) (list_at self.now.lists index))) (Err Why.Stale) }
    {
        match node_at(&self.set, &self.slots, handle) {
            Some(node) => Ok(self.set.at(index).place_of(node)),
            None => Err(Why::Stale),
        }
    }

    /// The position after a record in an index that is not hashed; a handle that names no record is `Stale`. O(1) in a
    /// sequence, O(log n) in an index in order.
    #[inline(always)]
    pub fn next(&self, index: usize, handle: Handle) -> Result<Option<Handle>, Why>
        requires { IsTrue (not (is_hashed_kind (kind_at (alone self.now) index))) }
        ensures { result ≡ cond (is_live (alone self.now) handle)
            (Ok (walk.next (is_handle handle) (list_at self.now.lists index))) (Err Why.Stale) }
    {
        let Some(node) = node_at(&self.set, &self.slots, handle) else {
            return Err(Why::Stale);
        };
        match index_at(&self.set, index) {
            Some(listed) => Ok(position_at(&self.set, listed.next(node))),
            None => Ok(None),
        }
    }

    /// The position before a record in an index that is not hashed; a handle that names no record is `Stale`. O(1) in a
    /// sequence, O(log n) in an index in order.
    #[inline(always)]
    pub fn prev(&self, index: usize, handle: Handle) -> Result<Option<Handle>, Why>
        requires { IsTrue (not (is_hashed_kind (kind_at (alone self.now) index))) }
        ensures { result ≡ cond (is_live (alone self.now) handle)
            (Ok (walk.prev (is_handle handle) (list_at self.now.lists index))) (Err Why.Stale) }
    {
        let Some(node) = node_at(&self.set, &self.slots, handle) else {
            return Err(Why::Stale);
        };
        match index_at(&self.set, index) {
            Some(listed) => Ok(position_at(&self.set, listed.prev(node))),
            None => Ok(None),
        }
    }
}
