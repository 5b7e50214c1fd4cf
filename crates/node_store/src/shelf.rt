//! Records with their links in one number of columns, each in a heap block of its own.
ghost use Rattle.std.specs.Prelude.{◌≡◌, ◌+◌, ◌<◌, ◌≤◌, ◌^◌, IfOk, IfErr, OnOk, OnErr, Some, cond};
ghost use Rattle.std.specs.Borrow.{sem};
ghost use Rattle.node_store.specs.Store.{aged, age_of, IsNodeOf, IsStore, len_of, empty_store};
ghost use Rattle.node_store.specs.Age.{last_below};
ghost use Rattle.node_store.specs.Column.{IsNode, IsPut, KeepsOthers};
ghost use Rattle.node_store.specs.ByNode.{column_of, record_of, contents, AddsNode, RemovesNode};
ghost use Rattle.node_store.specs.Chain.{HasBlock, with_older, with_newer, newest_without};

use crate::blocks::Blocks;
use crate::stored::{Row, Stored};
use crate::{Link, MaybeNode, NoRoom, Node};
use std::alloc::{AllocFailed, Global};
use std::marker::Model;

// A record with its age, between the nodes of those that were added before and after it. The links stand at one offset
// whatever their number.
#[derive(Drop)]
pub(crate) struct Block<R, L> {
    age: u64,
    older: MaybeNode,
    newer: MaybeNode,
    value: R,
    links: L,
}

// Records with their links, each in a heap block of its own. The blocks are chained in the order of their adds.
pub(crate) struct Shelf<R, const N: usize> {
    heap: Blocks<Block<R, Row<N>>, Global>,
    alloc: Global,
    newest: MaybeNode,
    len: usize,
    added: u64,
}

impl<R, const N: usize> Model for Shelf<R, N> {
    ghost use Rattle.node_store.specs.Store.{Store, store_code};

    ghost Value = { Store R };

    ghost coded = { store_code R.code };

    ghost use Rattle.node_store.specs.Chain.{store_of, IsSound};

    ghost view = { λ s. store_of s.heap.held s.added };

    ghost invariant = { λ s. IsSound s.heap.held s.alloc s.newest s.len s.added };
}

// Names the node that was added before `n`, if there is one.
fn set_older<R, L>(blocks: &mut Blocks<Block<R, L>, Global>, n: MaybeNode, older: MaybeNode)
    requires { HasBlock n blocks.old.held }
    ensures { blocks.new.held ≡ with_older n older blocks.old.held }
{
    if let Some(n) = n.node() {
        blocks.get_mut(n.place).older = older;
    }
}

// Names the node that was added after `n`, if there is one.
fn set_newer<R, L>(blocks: &mut Blocks<Block<R, L>, Global>, n: MaybeNode, newer: MaybeNode)
    requires { HasBlock n blocks.old.held }
    ensures { blocks.new.held ≡ with_newer n newer blocks.old.held }
{
    if let Some(n) = n.node() {
        blocks.get_mut(n.place).newer = newer;
    }
}

// The newest node once the one between `newer` and `older` has gone.
fn newest_between(newer: MaybeNode, older: MaybeNode, newest: MaybeNode) -> MaybeNode
    ensures { result ≡ newest_without newer older newest }
{
    match newer.node() {
        Some(_) => newest,
        None => older,
    }
}

impl<R, const N: usize> Shelf<R, N> {
    ghost use Rattle.node_store.specs.ShelfLends.{lends_record};
    ghost use Rattle.node_store.specs.declared.Node.{Node};
    ghost use Rattle.node_store.specs.declared.Link.{Link};

    // A shelf with no node, which allocates nothing until the first `add`.
    pub(crate) fn new(alloc: Global) -> Shelf<R, N>
        requires { N ≤ 8 }
        ensures { result ≡ empty_store N }
    {
        Shelf {
            heap: Blocks::new(),
            alloc,
            newest: MaybeNode::none(),
            len: 0,
            added: 0,
        }
    }

    // How many nodes there are.
    #[inline(always)]
    pub(crate) fn len(&self) -> usize
        ensures len { result ≡ len_of self.now }
        ensures sound { IsStore self.now }
    {
        self.len
    }

    // How many records were added so far, whether or not they were removed since.
    pub(crate) fn added(&self) -> u64
        ensures added { result ≡ self.now.added }
        ensures sound { IsStore self.now }
    {
        self.added
    }

    // The node's age.
    #[inline(always)]
    pub(crate) fn age(&self, n: Node) -> u64
        requires { IsNodeOf self.now n }
        ensures age { result ≡ age_of self.now n }
        ensures sound { IsStore self.now }
    {
        self.heap.get(n.place).age
    }

    // The node that was added last, of those that are there.
    pub(crate) fn newest(&self) -> Option<Node>
        ensures { result ≡ last_below (aged self.now) self.now.added }
    {
        self.newest.node()
    }

    // The node that was added last before `n`, of those that are there.
    pub(crate) fn older(&self, n: Node) -> Option<Node>
        requires { IsNodeOf self.now n }
        ensures { result ≡ last_below (aged self.now) (age_of self.now n) }
    {
        self.heap.get(n.place).older.node()
    }

    // The node's record.
    #[inline(always)]
    pub(crate) fn get(&self, n: Node) -> &R
        requires { IsNodeOf self.now n }
        ensures { record_of self.now n ≡ Some result.now }
    {
        &self.heap.get(n.place).value
    }

    // The node's record for writing. No link changes.
    pub(crate) fn get_mut(&mut self, n: Node) -> &mut R
        requires { IsNodeOf self.old n }
        ensures* writes_back { sem 𝓛 (lends_record R.row N.row self.entry n result) }
        ensures value { record_of self.old n ≡ Some result.now }
    {
        let block = self.heap.get_mut(n.place);
        &mut block.value
    }

    // The node's links in a column.
    #[inline(always)]
    pub(crate) fn link(&self, n: Node, col: usize) -> Link
        requires { IsNode (column_of self.now col) n }
        ensures { column_of self.now col n ≡ Some result }
    {
        self.heap.get(n.place).links.row[col].link()
    }

    // The node's link `b` in a column, or `a`.
    #[inline(always)]
    pub(crate) fn side(&self, n: Node, col: usize, second: bool) -> Option<Node>
        requires { IsNode (column_of self.now col) n }
        ensures { (link : Link) → column_of self.now col n ≡ Some link →
            result ≡ cond second link.b link.a }
    {
        self.heap.get(n.place).links.row[col].side(second)
    }

    // Replaces the node's links in a column. Its record, its other columns and all other nodes stay as they were.
    #[inline(always)]
    pub(crate) fn set_link(&mut self, n: Node, col: usize, link: Link)
        requires { IsNode (column_of self.old col) n }
        ensures put { IsPut (column_of self.old col) (column_of self.new col) n link }
        ensures others { KeepsOthers (column_of self.old) (column_of self.new) col }
        ensures contents { contents self.new ≡ contents self.old }
    {
        let changed = self.heap.get_mut(n.place);
        changed.links.row[col] = Stored::of(link);
    }

    // Replaces the tag of the node's links in a column, which it does not read. The links themselves, the node's record,
    // its other columns and all other nodes stay as they were.
    #[inline(always)]
    pub(crate) fn set_tag(&mut self, n: Node, col: usize, tag: u64)
        requires { IsNode (column_of self.old col) n }
        ensures put { (link : Link) → column_of self.old col n ≡ Some link →
            IsPut (column_of self.old col) (column_of self.new col) n
            (record link { tag = tag }) }
        ensures others { KeepsOthers (column_of self.old) (column_of self.new) col }
        ensures contents { contents self.new ≡ contents self.old }
    {
        let changed = self.heap.get_mut(n.place);
        changed.links.row[col].set_tag(tag);
    }
}

impl<R: Drop, const N: usize> Shelf<R, N> {
    // Adds a node with empty links in each column. Where there is no memory for its block, the record is handed
    // back and the store stays as it was.
    pub(crate) fn add(&mut self, value: R) -> Result<Node, NoRoom<R>>
        requires { self.old.added + 1 < 2 ^ 64 }
        ensures age { IfOk result (λ n. age_of self.new n ≡ self.old.added) }
        ensures count { OnOk result (self.new.added ≡ self.old.added + 1) }
        ensures added { IfOk result (λ n. AddsNode self.old self.new n value) }
        ensures len { OnOk result (len_of self.new ≡ len_of self.old + 1) }
        ensures unchanged { OnErr result (self.new ≡ self.old) }
        ensures returned { IfErr result (λ e. e.value ≡ value) }
    {
        let block = Block {
            age: self.added,
            older: self.newest,
            newer: MaybeNode::none(),
            value,
            links: Row {
                row: [Stored::of(Link::empty()); N],
            },
        };
        match Box::new(self.alloc, block) {
            Ok(boxed) => {
                let (place, _) = self.heap.put(boxed);
                self.heap.lie_apart();
                self.heap.lie_at_starts();
                let node = Node::at(place);
                let newest = MaybeNode::of(Some(node));
                set_newer(&mut self.heap, self.newest, newest);
                self.newest = newest;
                self.len += 1;
                self.added += 1;
                Ok(node)
            }
            Err(failed) => {
                let AllocFailed { value: block } = failed;
                Err(NoRoom { value: block.value })
            }
        }
    }

    // Removes the node, frees its block and returns its record. Other nodes' links to it stay as they were, and
    // name no node from then on.
    pub(crate) fn remove(&mut self, n: Node) -> R
        requires { IsNodeOf self.old n }
        ensures value { record_of self.old n ≡ Some result }
        ensures removed { RemovesNode self.old self.new n }
        ensures count { self.new.added ≡ self.old.added }
        ensures len { len_of self.new + 1 ≡ len_of self.old }
    {
        let block = self.heap.take(n.place, self.alloc);
        let Block {
            age: _,
            older,
            newer,
            value,
            links: _,
        } = Box::into_inner(block);
        set_older(&mut self.heap, newer, older);
        set_newer(&mut self.heap, older, newer);
        self.newest = newest_between(newer, older, self.newest);
        self.len -= 1;
        value
    }
}

impl<R: Drop, const N: usize> Drop for Shelf<R, N> {
    fn drop(self) {
        let Shelf {
            mut heap,
            alloc,
            mut newest,
            len: _,
            added: _,
        } = self;
        while let Some(n) = newest.node() {
            let block = Box::into_inner(heap.take(n.place, alloc));
            newest = block.older;
        }
        heap.end();
    }
}
