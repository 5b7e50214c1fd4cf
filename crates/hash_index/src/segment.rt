//! Heads of chains that lie side by side.
ghost use Rattle.std.specs.Prelude.{◌≡◌, ◌≢◌, ◌-◌, ◌<◌, vec_len, vec_capacity, [], ◌∷◌, ◌++◌, length, slice_get, set, option_and_then, Some, None, IfOk};

use crate::head::{Head, is_empty, passes};
use node_store::MaybeNode;
use std::alloc::{AllocError, Global};

// Heads, the marks apart from the nodes: most look-ups of keys that are not there read a mark alone, and many marks lie
// in as much memory as a few nodes.
#[derive(Drop)]
pub(crate) struct Segment {
    marks: Vec<u8>,
    nodes: Vec<MaybeNode>,
    ghost as_many: { vec_len marks ≡ vec_len nodes },
    ghost as_large: { vec_capacity marks ≡ vec_capacity nodes },
}

impl Segment {
    ghost use Rattle.hash_index.specs.Heads.{first_in, is_empty, start_in};
    ghost use Rattle.hash_index.specs.declared.head.Head.{Head};
    ghost use Rattle.hash_index.specs.Segments.{items_of, capacity_of};

    // No heads, and room for so many.
    pub(crate) fn with_capacity(alloc: Global, capacity: usize) -> Result<Segment, AllocError>
        ensures empty { IfOk result (λ s. items_of s ≡ []) }
        ensures exact { IfOk result (λ s. capacity_of s ≡ capacity) }
    {
        Ok(Segment {
            marks: Vec::with_capacity(alloc, capacity)?,
            nodes: Vec::with_capacity(alloc, capacity)?,
        })
    }

    // How many more there is room for.
    pub(crate) fn spare(&self) -> usize
        ensures { result ≡ capacity_of self.now - length (items_of self.now) }
    {
        self.nodes.capacity() - self.nodes.len()
    }

    // The head at a place.
    pub(crate) fn head(&self, place: usize) -> Head
        requires { place < length (items_of self.now) }
        ensures { slice_get (items_of self.now) place ≡ Some result }
    {
        Head {
            mark: self.marks[place],
            node: self.nodes[place].node(),
        }
    }

    // The head at a place as a look-up of this hash sees it: where it passes the chain, no node is read.
    pub(crate) fn seen(&self, place: usize, hash: u64) -> Head
        requires { place < length (items_of self.now) }
        ensures first { first_in result ≡
            option_and_then (start_in hash) (slice_get (items_of self.now) place) }
        ensures head { first_in result ≢ None →
            slice_get (items_of self.now) place ≡ Some result }
    {
        if passes(hash, self.marks[place]) {
            return Head::none();
        }
        self.head(place)
    }

    // Whether the mark at a place says that there is no node. No node is read.
    pub(crate) fn is_empty_at(&self, place: usize) -> bool
        requires { place < length (items_of self.now) }
        ensures { (h : Head) → slice_get (items_of self.now) place ≡ Some h → result ≡ is_empty h.mark }
    {
        is_empty(self.marks[place])
    }

    // Sets the head at a place.
    pub(crate) fn set(&mut self, place: usize, head: Head)
        requires { place < length (items_of self.old) }
        ensures heads { items_of self.new ≡ set (items_of self.old) place head }
        ensures capacity { capacity_of self.new ≡ capacity_of self.old }
    {
        self.marks[place] = head.mark;
        self.nodes[place] = MaybeNode::of(head.node);
    }

    // Adds a head behind the others, for which there is room.
    pub(crate) fn push_reserved(&mut self, head: Head)
        requires { length (items_of self.old) < capacity_of self.old }
        ensures heads { items_of self.new ≡ items_of self.old ++ head ∷ [] }
        ensures capacity { capacity_of self.new ≡ capacity_of self.old }
    {
        self.marks.push_reserved(head.mark);
        self.nodes.push_reserved(MaybeNode::of(head.node));
    }
}
