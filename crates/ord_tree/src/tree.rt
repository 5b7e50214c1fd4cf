//! An ordered index, and its changes.
ghost use Rattle.std.specs.Prelude.{◌≡◌, ℕ, ◌<◌, Bool, List, Some, [], OnOk, OnErr};
ghost use Rattle.node_store.specs.Store.{IsNodeOf, no_link};
ghost use Rattle.node_store.specs.Column.{Column, IsNode};
ghost use Rattle.node_store.specs.Nodes.{Lacks};
ghost use Rattle.node_store.specs.declared.Node.{Node};
ghost use Rattle.node_store.specs.ByNode.{column_of, same_node};
ghost use Rattle.node_store.specs.Digest.{digest_number};
ghost use Rattle.ord_tree.specs.Digests.{kept_digest, KeepsOtherDigests};
ghost use Rattle.list_model.specs.Walk.{without, placed};
ghost use Rattle.ord_tree.specs.Cut.{IsCut};
ghost use Rattle.ord_tree.specs.Last.{last_that};
ghost use Rattle.std.specs.Ordering.{is_le};

use crate::order::order_to_record;
use crate::removal::{first_below, take_out};
use crate::steps::{graft, plant};
use crate::tally::Tally;
use key_extract::Extract;
use node_store::{Digest, Link, Node, NodeStore};
use std::alloc::AllocError;
use std::marker::PhantomData;

/// A balanced tree of nodes through one column of links, in the order of one index's keys.
#[derive(Drop)]
pub struct OrdTree<T: Tally> {
    pub(crate) col: usize,
    pub(crate) index: usize,
    pub(crate) root: Option<Node>,
    pub(crate) len: u64,
    tally: PhantomData<T>,
    ghost col_exists: { col < 8 },
}

impl<T: Tally> OrdTree<T> {
    ghost use Rattle.ord_tree.specs.Stored.{HasNode, BecomesTree, nodes_of, order_in, IsOrdered, HaveTheirDigests};
    ghost use Rattle.ord_tree.specs.Path.{Place};
    ghost use Rattle.ord_tree.specs.Spelled.{Spells, spelled, tree_of, col_of, index_of, HasRoom};

    /// A tree of no nodes in column `col`, ordered by the keys of index number `index`. O(1).
    pub fn new(col: usize, index: usize) -> OrdTree<T>
        requires { col < 8 }
        ensures col { col_of result ≡ col }
        ensures index { index_of result ≡ index }
        ensures empty { (cs : _) → Spells cs result [] }
    {
        OrdTree {
            col,
            index,
            root: None,
            len: 0,
            tally: PhantomData,
        }
    }

    /// Goes by the keys of number `index` from now on, which are to put the nodes in the order that they have. O(1).
    #[tactic(auto, unfolding(crate::specs::Spelled::tree_of))]
    pub fn renumber(&mut self, index: usize)
        ensures index { index_of self.new ≡ index }
        ensures col { col_of self.new ≡ col_of self.old }
        ensures list { (cs : ℕ → Column) (xs : List Node) → Spells cs self.old xs →
            Spells cs self.new xs }
        ensures spelled { (cs : ℕ → Column) → spelled cs self.new ≡ spelled cs self.old }
        ensures room { HasRoom self.old → HasRoom self.new }
    {
        self.index = index;
    }

    /// Makes room for one more node. A tree takes no memory for it: only one of 2^64 - 1 nodes has no room. O(1).
    pub fn reserve_one<R>(&mut self, store: &NodeStore<R>) -> Result<(), AllocError>
        ensures same { self.new ≡ self.old }
        ensures list { (cs : ℕ → Column) (xs : List Node) → Spells cs self.old xs →
            Spells cs self.new xs }
        ensures spelled { (cs : ℕ → Column) → spelled cs self.new ≡ spelled cs self.old }
        ensures col { col_of self.new ≡ col_of self.old }
        ensures index { index_of self.new ≡ index_of self.old }
        ensures room { OnOk result (HasRoom self.new) }
        ensures full { OnErr result (¬ HasRoom self.old) }
    {
        if self.len == u64::MAX {
            return Err(AllocError);
        }
        Ok(())
    }

    /// Puts `n` after all whose key is at most its own. Where `last` is given, it is the last of those, and no key is compared.
    /// O(log n), comparisons included.
    pub fn link<R, E: Extract<R>>(
        &mut self,
        store: &mut NodeStore<R>,
        keys: &E,
        n: Node,
        last: Option<Node>,
    )
        requires ordered { IsOrdered E.Extract self.old store.old keys.now }
        requires node { IsNode (column_of store.old (col_of self.old)) n }
        requires new { Lacks (nodes_of self.old store.old) n }
        requires room { HasRoom self.old }
        requires last { (m : Node) → last ≡ Some m → last_that
            (λ m. is_le (order_in E.Extract self.old store.old keys.now m n))
            (nodes_of self.old store.old) ≡ Some m }
        ensures tree { BecomesTree self.old self.new store.old store.new
            (placed (λ m. order_in E.Extract self.old store.old keys.now m n) n
            (nodes_of self.old store.old)) }
        ensures digested { HaveTheirDigests E.Extract self.old store.new keys.now
            (nodes_of self.new store.new) }
    {
        let digest = Digest::of(keys.digest(self.index, store.get(n)));
        let (parent, on_right) = self.place_for(store, keys, n, digest, last);
        plant::<T, R>(store, self.col, n, digest);
        self.root = graft::<T, R>(store, self.col, self.root, parent, on_right, Some(n));
        self.len += 1;
    }

    /// Takes `n` out, and empties its links. It reads no record, so the node's may have changed. O(log n).
    pub fn unlink<R>(&mut self, store: &mut NodeStore<R>, n: Node)
        requires { HasNode self.old store.old n }
        ensures tree { BecomesTree self.old self.new store.old store.new
            (without (same_node n) (nodes_of self.old store.old)) }
        ensures emptied { column_of store.new (col_of self.old) n ≡ Some no_link }
        ensures digests { KeepsOtherDigests (column_of store.old (col_of self.old))
            (column_of store.new (col_of self.old)) n }
        ensures room { HasRoom self.new }
    {
        self.root = take_out::<T, R>(store, self.col, self.root, n);
        self.len -= 1;
        store.set_link(n, self.col, Link::empty());
    }

    // Where a leaf for `n` goes, whose digest is given, and behind which node if that is known: its parent, and on which side
    // of it.
    fn place_for<R, E: Extract<R>>(
        &self,
        store: &NodeStore<R>,
        keys: &E,
        n: Node,
        digest: Digest,
        last: Option<Node>,
    ) -> (Option<Node>, bool)
        requires ordered { IsOrdered E.Extract self.now store.now keys.now }
        requires node { IsNodeOf store.now n }
        requires digest { digest_number digest ≡ kept_digest
            (E.digest_of keys.now (index_of self.now)) store.now n }
        requires last { (m : Node) → last ≡ Some m → last_that
            (λ m. is_le (order_in E.Extract self.now store.now keys.now m n))
            (nodes_of self.now store.now) ≡ Some m }
        ensures { Place (λ m. is_le (order_in E.Extract self.now store.now keys.now m n))
            (tree_of (column_of store.now) self.now) result.0 result.1 }
    {
        match last {
            Some(last) => self.place_behind(store, last),
            None => self.place_of(store, keys, n, digest),
        }
    }

    // Where a leaf right behind `last` goes: its parent, and on which side of it.
    fn place_behind<R>(&self, store: &NodeStore<R>, last: Node) -> (Option<Node>, bool)
        requires { HasNode self.now store.now last }
        ensures { (q : Node → Bool) → IsCut q (nodes_of self.now store.now) →
            last_that q (nodes_of self.now store.now) ≡ Some last →
            Place q (tree_of (column_of store.now) self.now) result.0 result.1 }
    {
        match store.link(last, self.col).b {
            None => (Some(last), true),
            Some(right) => (Some(first_below::<T, R>(store, self.col, right)), false),
        }
    }

    // Where a leaf for `n`, whose digest is given, goes: its parent, and on which side of it.
    fn place_of<R, E: Extract<R>>(
        &self,
        store: &NodeStore<R>,
        keys: &E,
        n: Node,
        digest: Digest,
    ) -> (Option<Node>, bool)
        requires ordered { IsOrdered E.Extract self.now store.now keys.now }
        requires node { IsNodeOf store.now n }
        requires digest { digest_number digest ≡ kept_digest
            (E.digest_of keys.now (index_of self.now)) store.now n }
        ensures { Place (λ m. is_le (order_in E.Extract self.now store.now keys.now m n))
            (tree_of (column_of store.now) self.now) result.0 result.1 }
    {
        let own = store.get(n);
        let mut parent = None;
        let mut on_right = false;
        let mut at = self.root;
        while let Some(m) = at {
            let link = store.link(m, self.col);
            parent = Some(m);
            let order = order_to_record(keys, self.index, link.digest, store.get(m), digest, own);
            on_right = order.is_le();
            at = store.side(m, self.col, on_right);
        }
        (parent, on_right)
    }
}
