//! A store of records in heap blocks that never move.
//!
//! A node has a record and, in each of the store's columns, links to other nodes with a tag, a height and a digest. What
//! the links mean is for the layers above: the store only keeps them. A record, its age, its neighbours by age and its
//! links are one block of memory, and a node is the pointer to it. Every call is O(1) but the store's drop, which
//! is O(length). `add` allocates one block; no other call allocates.
#![tactic(auto)]

ghost use Rattle.std.specs.Prelude.{◌≡◌, ◌+◌, ◌<◌, ◌≤◌, ◌^◌, max, IfOk, IfErr, OnOk, OnErr, Some, IsTrue, ◌↔◌, cond};
ghost use Rattle.std.specs.Borrow.{sem};
ghost use denote.RawPtr.{block_ptr, block_of as number_at};

mod blocks;
mod digest;
mod maybe;
mod shelf;
mod shelves;
mod stored;

use blocks::Place;
pub use digest::Digest;
pub use maybe::MaybeNode;
use shelf::Shelf;
use shelves::Shelves;
use std::alloc::Global;
use std::marker::Model;
use std::mem::size_of;
use stored::Stored;

/// How many columns a store can have at most. A column is named by its number, the first by 0.
pub const COLUMNS: usize = 8;

/// A node of a store, until the store removes it: the place of its block. Whether two nodes are the same is asked of their
/// store.
#[derive(Clone, Copy)]
pub struct Node {
    pub(crate) place: Place,
    ghost start: { place.ptr ≡ block_ptr (number_at place.ptr) 0 },
}

/// The links of one node in one column, with three values that the layer above keeps there.
#[derive(Clone, Copy)]
pub struct Link {
    pub a: Option<Node>,
    pub b: Option<Node>,
    pub up: Option<Node>,
    pub tag: u64,
    pub height: u8,
    pub digest: Digest,
}

/// A record that `add` hands back, since there was no memory for it.
#[derive(Drop)]
pub struct NoRoom<R> {
    pub value: R,
}

/// The bytes of the links of one node in one column.
pub const LINK_BYTES: usize = size_of::<Stored>();

// Makes the call on the shelf, whatever its width.
macro_rules! on_shelf {
    ($shelves:expr, $shelf:ident => $call:expr) => {
        match $shelves {
            Shelves::One($shelf) => $call,
            Shelves::Two($shelf) => $call,
            Shelves::Three($shelf) => $call,
            Shelves::Four($shelf) => $call,
            Shelves::Five($shelf) => $call,
            Shelves::Six($shelf) => $call,
            Shelves::Seven($shelf) => $call,
            Shelves::Eight($shelf) => $call,
        }
    };
}

/// Records with their links, each in a heap block of its own, which has links in as many columns as the store was made
/// for.
#[derive(Drop)]
pub struct NodeStore<R> {
    shelves: Shelves<R>,
}

impl<R> Model for NodeStore<R> {
    ghost use Rattle.node_store.specs.Store.{Store, store_code};

    ghost Value = { Store R };

    ghost coded = { store_code R.code };

    ghost use Rattle.node_store.specs.Shelves.{shelved};

    ghost view = { λ s. shelved s.shelves };
}

impl Node {
    // The node whose block begins there.
    #[inline(always)]
    pub(crate) fn at(place: Place) -> Node
        requires { place.ptr ≡ block_ptr (number_at place.ptr) 0 }
        ensures { result.place ≡ place }
    {
        Node { place }
    }
}

impl Link {
    ghost use Rattle.node_store.specs.Store.{no_link};

    /// Links to no node, with tag, height and digest 0.
    pub fn empty() -> Link
        ensures { result ≡ no_link }
    {
        Link {
            a: None,
            b: None,
            up: None,
            tag: 0,
            height: 0,
            digest: Digest::ZERO,
        }
    }
}

impl<R> NodeStore<R> {
    ghost use Rattle.node_store.specs.Store.{aged, age_of, IsNodeOf, IsStore, len_of, empty_store, width_of};
    ghost use Rattle.node_store.specs.Age.{last_below};
    ghost use Rattle.node_store.specs.Column.{IsNode, IsPut, KeepsOthers};
    ghost use Rattle.node_store.specs.ByNode.{column_of, record_of, contents};
    ghost use Rattle.node_store.specs.Lends.{lends_record};
    ghost use Rattle.node_store.specs.declared.Node.{Node};
    ghost use Rattle.node_store.specs.declared.Link.{Link};

    /// A store with no node, and with so many columns, or one where none are asked for. It allocates nothing until the
    /// first `add`.
    pub fn new(alloc: Global, columns: usize) -> NodeStore<R>
        requires { columns ≤ 8 }
        ensures empty { result ≡ empty_store (width_of result) }
        ensures enough { columns ≤ width_of result }
        ensures exact { width_of result ≤ max columns 1 }
    {
        let shelves = match columns {
            0 | 1 => Shelves::One(Shelf::new(alloc)),
            2 => Shelves::Two(Shelf::new(alloc)),
            3 => Shelves::Three(Shelf::new(alloc)),
            4 => Shelves::Four(Shelf::new(alloc)),
            5 => Shelves::Five(Shelf::new(alloc)),
            6 => Shelves::Six(Shelf::new(alloc)),
            7 => Shelves::Seven(Shelf::new(alloc)),
            _ => Shelves::Eight(Shelf::new(alloc)),
        };
        NodeStore { shelves }
    }

    /// How many nodes there are.
    #[inline(always)]
    pub fn len(&self) -> usize
        ensures len { result ≡ len_of self.now }
        ensures sound { IsStore self.now }
    {
        on_shelf!(&self.shelves, shelf => shelf.len())
    }

    /// How many records were added so far, whether or not they were removed since.
    pub fn added(&self) -> u64
        ensures added { result ≡ self.now.added }
        ensures sound { IsStore self.now }
    {
        on_shelf!(&self.shelves, shelf => shelf.added())
    }

    /// The node's age: the number of its add. The first is 0.
    #[inline(always)]
    pub fn age(&self, n: Node) -> u64
        requires { IsNodeOf self.now n }
        ensures age { result ≡ age_of self.now n }
        ensures sound { IsStore self.now }
    {
        on_shelf!(&self.shelves, shelf => shelf.age(n))
    }

    /// The node that was added last, of those that are there.
    pub fn newest(&self) -> Option<Node>
        ensures { result ≡ last_below (aged self.now) self.now.added }
    {
        on_shelf!(&self.shelves, shelf => shelf.newest())
    }

    /// The node that was added last before `n`, of those that are there.
    pub fn older(&self, n: Node) -> Option<Node>
        requires { IsNodeOf self.now n }
        ensures { result ≡ last_below (aged self.now) (age_of self.now n) }
    {
        on_shelf!(&self.shelves, shelf => shelf.older(n))
    }

    /// The node's record.
    #[inline(always)]
    pub fn get(&self, n: Node) -> &R
        requires { IsNodeOf self.now n }
        ensures { record_of self.now n ≡ Some result.now }
    {
        on_shelf!(&self.shelves, shelf => shelf.get(n))
    }

    /// The node's record for writing. No link changes.
    pub fn get_mut(&mut self, n: Node) -> &mut R
        requires { IsNodeOf self.old n }
        ensures* writes_back { sem 𝓛 (lends_record R.row self.entry n result) }
        ensures value { record_of self.old n ≡ Some result.now }
    {
        self.shelves.get_mut(n)
    }

    /// The node's links in a column.
    #[inline(always)]
    pub fn link(&self, n: Node, col: usize) -> Link
        requires { IsNode (column_of self.now col) n }
        ensures { column_of self.now col n ≡ Some result }
    {
        on_shelf!(&self.shelves, shelf => shelf.link(n, col))
    }

    /// The node's link `b` in a column, or `a`. A descent that goes by it has no branch to guess.
    #[inline(always)]
    pub fn side(&self, n: Node, col: usize, second: bool) -> Option<Node>
        requires { IsNode (column_of self.now col) n }
        ensures { (link : Link) → column_of self.now col n ≡ Some link →
            result ≡ cond second link.b link.a }
    {
        on_shelf!(&self.shelves, shelf => shelf.side(n, col, second))
    }

    /// Whether `o` is the node `n`. Their ages decide, so both must be nodes of this store.
    #[inline(always)]
    pub fn is_node(&self, o: Option<Node>, n: Node) -> bool
        requires other { (m : Node) → o ≡ Some m → IsNodeOf self.now m }
        requires node { IsNodeOf self.now n }
        ensures { IsTrue result ↔ (o ≡ Some n) }
    {
        match o {
            Some(m) => self.age(m) == self.age(n),
            None => false,
        }
    }

    /// Replaces the node's links in a column. Its record, its other columns and all other nodes stay as they were.
    #[inline(always)]
    pub fn set_link(&mut self, n: Node, col: usize, link: Link)
        requires { IsNode (column_of self.old col) n }
        ensures put { IsPut (column_of self.old col) (column_of self.new col) n link }
        ensures others { KeepsOthers (column_of self.old) (column_of self.new) col }
        ensures contents { contents self.new ≡ contents self.old }
    {
        on_shelf!(&mut self.shelves, shelf => shelf.set_link(n, col, link))
    }

    /// Replaces the tag of the node's links in a column, which it does not read. The links themselves, the node's record,
    /// its other columns and all other nodes stay as they were.
    #[inline(always)]
    pub fn set_tag(&mut self, n: Node, col: usize, tag: u64)
        requires { IsNode (column_of self.old col) n }
        ensures put { (link : Link) → column_of self.old col n ≡ Some link →
            IsPut (column_of self.old col) (column_of self.new col) n
            (record link { tag = tag }) }
        ensures others { KeepsOthers (column_of self.old) (column_of self.new) col }
        ensures contents { contents self.new ≡ contents self.old }
    {
        on_shelf!(&mut self.shelves, shelf => shelf.set_tag(n, col, tag))
    }
}

impl<R: Drop> NodeStore<R> {
    ghost use Rattle.node_store.specs.Store.{age_of, IsNodeOf, len_of};
    ghost use Rattle.node_store.specs.ByNode.{record_of, AddsNode, RemovesNode};

    /// Adds a node with empty links in each column. Where there is no memory for its block, the record is handed
    /// back and the store stays as it was.
    pub fn add(&mut self, value: R) -> Result<Node, NoRoom<R>>
        requires { self.old.added + 1 < 2 ^ 64 }
        ensures age { IfOk result (λ n. age_of self.new n ≡ self.old.added) }
        ensures count { OnOk result (self.new.added ≡ self.old.added + 1) }
        ensures added { IfOk result (λ n. AddsNode self.old self.new n value) }
        ensures len { OnOk result (len_of self.new ≡ len_of self.old + 1) }
        ensures unchanged { OnErr result (self.new ≡ self.old) }
        ensures returned { IfErr result (λ e. e.value ≡ value) }
    {
        on_shelf!(&mut self.shelves, shelf => shelf.add(value))
    }

    /// Removes the node, frees its block and returns its record. Other nodes' links to it stay as they were, and
    /// name no node from then on.
    pub fn remove(&mut self, n: Node) -> R
        requires { IsNodeOf self.old n }
        ensures value { record_of self.old n ≡ Some result }
        ensures removed { RemovesNode self.old self.new n }
        ensures count { self.new.added ≡ self.old.added }
        ensures len { len_of self.new + 1 ≡ len_of self.old }
    {
        on_shelf!(&mut self.shelves, shelf => shelf.remove(n))
    }
}
