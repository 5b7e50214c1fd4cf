//! The heads of the chains, in segments that are never moved.
ghost use Rattle.std.specs.Prelude.{◌≡◌, ◌≢◌, ◌==◌, ◌+◌, ◌<◌, ◌≤◌, ◌^◌, vec_len, vec_capacity, [], ◌∷◌, ◌++◌, length, get_or, slice_get, set, option_and_then, Some, None, OnOk, OnErr};
ghost use Rattle.hash_index.specs.declared.head.Head.{Head};
ghost use Rattle.hash_index.specs.Heads.{is_empty, start_in};
ghost use Rattle.hash_index.specs.Segments.{first_in, all_in, heads_in, spare, AreSegments, AreSegments_prop, IsAt};

use crate::head::Head;
use crate::segment::Segment;
use node_store::Node;
use std::alloc::{AllocError, Global};

// How many chains each segment has room for.
const SIZE: usize = 512;

// More chains than memory has room for.
const MOST: usize = 1 << 62;

// The heads of the chains, in segments of one size, of which all but the last are full.
#[derive(Drop)]
pub(crate) struct Segments {
    segments: Vec<Segment>,
    len: usize,
    ghost ok: { len ≡ length (all_in segments.items) },
    ghost small: { len + spare segments.items + 8 ≤ 2 ^ 63 },
    ghost shape: { AreSegments 512 segments.items } by { AreSegments_prop 512 segments.items },
}

// The segment of a chain, and its place there.
fn locate(chain: usize) -> (usize, usize)
    ensures { IsAt chain result.0 result.1 }
{
    (chain / SIZE, chain % SIZE)
}

impl Segments {
    // No chains. It allocates nothing.
    pub(crate) fn new(alloc: Global) -> Segments
        ensures { all_in result.segments.items ≡ [] }
    {
        Segments {
            segments: Vec::new(alloc),
            len: 0,
        }
    }

    pub(crate) fn len(&self) -> usize
        ensures { result ≡ self.now.len }
    {
        self.len
    }

    pub(crate) fn is_empty(&self) -> bool
        ensures { result ≡ (self.now.len == 0) }
    {
        self.len == 0
    }

    // The first node of a chain. O(1).
    pub(crate) fn get(&self, chain: usize) -> Option<Node>
        requires { chain < self.now.len }
        ensures { result ≡ get_or (heads_in self.now.segments.items) chain None }
    {
        self.head(chain).node()
    }

    // The head of a chain. O(1).
    pub(crate) fn head(&self, chain: usize) -> Head
        requires { chain < self.now.len }
        ensures { slice_get (all_in self.now.segments.items) chain ≡ Some result }
    {
        let (segment, place) = locate(chain);
        self.segments[segment].head(place)
    }

    // The head of a chain as a look-up of this hash sees it: where it passes the chain, no node is read. O(1).
    pub(crate) fn seen(&self, chain: usize, hash: u64) -> Head
        requires { chain < self.now.len }
        ensures first { first_in result ≡
            option_and_then (start_in hash) (slice_get (all_in self.now.segments.items) chain) }
        ensures head { first_in result ≢ None →
            slice_get (all_in self.now.segments.items) chain ≡ Some result }
    {
        let (segment, place) = locate(chain);
        self.segments[segment].seen(place, hash)
    }

    // Whether the mark of a chain says that it has no node. No node is read. O(1).
    pub(crate) fn is_empty_at(&self, chain: usize) -> bool
        requires { chain < self.now.len }
        ensures { (h : Head) → slice_get (all_in self.now.segments.items) chain ≡ Some h → result ≡ is_empty h.mark }
    {
        let (segment, place) = locate(chain);
        self.segments[segment].is_empty_at(place)
    }

    // Gives a chain another head. O(1).
    pub(crate) fn set(&mut self, chain: usize, head: Head)
        requires { chain < self.old.len }
        ensures heads { all_in self.new.segments.items ≡
            set (all_in self.old.segments.items) chain head }
        ensures len { self.new.len ≡ self.old.len }
        ensures room { spare self.new.segments.items ≡ spare self.old.segments.items }
    {
        let (segment, place) = locate(chain);
        self.segments[segment].set(place, head);
    }

    // Makes room for one bucket more. Where all segments are full it takes the next one whole, and moves no head. Where
    // memory is refused, everything is as before. Room for less than a bucket is never left, since a bucket is added at
    // a time: there it refuses, too.
    pub(crate) fn reserve_bucket(&mut self, alloc: Global) -> Result<(), AllocError>
        ensures heads { all_in self.new.segments.items ≡ all_in self.old.segments.items }
        ensures len { self.new.len ≡ self.old.len }
        ensures room { OnOk result (4 ≤ spare self.new.segments.items) }
        ensures unchanged { OnErr result (self.new ≡ self.old) }
    {
        match self.spare() {
            0 => self.add_segment(alloc),
            1..=3 => Err(AllocError),
            _ => Ok(()),
        }
    }

    // Takes the next segment, where all are full.
    #[cold]
    #[inline(never)]
    fn add_segment(&mut self, alloc: Global) -> Result<(), AllocError>
        requires { spare self.old.segments.items ≡ 0 }
        ensures heads { all_in self.new.segments.items ≡ all_in self.old.segments.items }
        ensures len { self.new.len ≡ self.old.len }
        ensures room { OnOk result (4 ≤ spare self.new.segments.items) }
        ensures unchanged { OnErr result (self.new ≡ self.old) }
    {
        if MOST < self.len {
            return Err(AllocError);
        }
        let segment = Segment::with_capacity(alloc, SIZE)?;
        self.reserve_segment(alloc)?;
        self.segments.push_reserved(segment);
        Ok(())
    }

    // Makes room for one segment more: where there is none, a block of twice as many takes over those that are there,
    // and no head is moved. Where memory is refused, everything is as before.
    fn reserve_segment(&mut self, alloc: Global) -> Result<(), AllocError>
        ensures same { self.new.segments.items ≡ self.old.segments.items }
        ensures len { self.new.len ≡ self.old.len }
        ensures room { OnOk result (vec_len self.new.segments < vec_capacity self.new.segments) }
        ensures unchanged { OnErr result (self.new ≡ self.old) }
    {
        let count = self.segments.len();
        if count < self.segments.capacity() {
            return Ok(());
        }
        let mut larger = Vec::with_capacity(alloc, count * 2 + 1)?;
        larger.append(&mut self.segments)?;
        self.segments = larger;
        Ok(())
    }

    // How many more there is room for.
    fn spare(&self) -> usize
        ensures { result ≡ spare self.now.segments.items }
    {
        match self.segments.last() {
            Some(last) => last.spare(),
            None => 0,
        }
    }

    // Adds a chain behind the others, in room that was reserved. O(1).
    pub(crate) fn push_reserved(&mut self, head: Head)
        requires { 0 < spare self.old.segments.items }
        ensures heads { all_in self.new.segments.items ≡
            all_in self.old.segments.items ++ head ∷ [] }
        ensures len { self.new.len ≡ self.old.len + 1 }
        ensures room { spare self.new.segments.items + 1 ≡ spare self.old.segments.items }
    {
        let last = self.segments.len() - 1;
        self.segments[last].push_reserved(head);
        self.len += 1;
    }
}
