//! A sequence of nodes: a doubly linked chain in one column of the store's links.
//!
//! Each call takes the store. It reads and writes the links of its own column alone, so a node may
//! stand in one sequence of each column at once.
#![tactic(auto)]

ghost use Rattle.std.specs.Prelude.{◌≡◌, ℕ, ◌+◌, ◌<◌, ◌≤◌, List, [], ◌∷◌, ◌++◌, length, Option, Some, None, OnOk, OnErr, insert};
ghost use Rattle.node_store.specs.declared.Node.{Node};
ghost use Rattle.node_store.specs.Column.{Column, IsNode};
ghost use Rattle.node_store.specs.Nodes.{Lacks, first_or, last_or};
ghost use Rattle.node_store.specs.ByNode.{column_of, contents, same_node};
ghost use Rattle.list_model.specs.Walk.{without};
ghost use Rattle.seq_index.specs.Links.{AreNodesOf};

mod column;
mod ends;
mod order;
mod reads;
mod walk;

use ends::{chain_link, end_beside, set_next, set_prev};
use node_store::{Link, Node, NodeStore};
use std::alloc::AllocError;

/// A chain of nodes through one column of links.
#[derive(Drop)]
pub struct SeqIndex {
    col: usize,
    first: Option<Node>,
    last: Option<Node>,
    len: u64,
    ghost col_exists: { col < 8 },
}

impl SeqIndex {
    ghost use Rattle.seq_index.specs.Stored.{nodes_of, IsChainOf, HasNode, BecomesChain};
    ghost use Rattle.seq_index.specs.Spelled.{Spells, spelled, col_of, HasRoom, KeepsOthers};

    /// A sequence of no nodes in column `col`. O(1).
    pub fn new(col: usize) -> SeqIndex
        requires { col < 8 }
        ensures col { col_of result ≡ col }
        ensures empty { (cs : ℕ → Column) → Spells cs result [] }
    {
        SeqIndex {
            col,
            first: None,
            last: None,
            len: 0,
        }
    }

    /// Makes room for one more node. A chain takes no memory for it: only a sequence of 2^64 - 1 nodes has no room.
    /// O(1).
    pub fn reserve_one<R>(&mut self, store: &NodeStore<R>) -> Result<(), AllocError>
        ensures same { self.new ≡ self.old }
        ensures list { (cs : ℕ → Column) (xs : List Node) → Spells cs self.old xs →
            Spells cs self.new xs }
        ensures spelled { (cs : ℕ → Column) → spelled cs self.new ≡ spelled cs self.old }
        ensures col { col_of self.new ≡ col_of self.old }
        ensures room { OnOk result (HasRoom self.new) }
        ensures full { OnErr result (¬ HasRoom self.old) }
    {
        if self.len == u64::MAX {
            return Err(AllocError);
        }
        Ok(())
    }

    /// Puts `n` last. O(1).
    pub fn push<R>(&mut self, store: &mut NodeStore<R>, n: Node)
        requires chain { IsChainOf self.old store.old }
        requires node { IsNode (column_of store.old (col_of self.old)) n }
        requires new { Lacks (nodes_of self.old store.old) n }
        requires room { HasRoom self.old }
        ensures { BecomesChain self.old self.new store.old store.new
            (nodes_of self.old store.old ++ n ∷ []) }
    {
        self.insert_between(store, self.last, n, None);
    }

    /// Puts `n` before the node at `place`, or last where `place` is the length.
    ///
    /// O(d), where d is the distance of `place` from the nearer end.
    pub fn insert_at<R>(&mut self, store: &mut NodeStore<R>, place: u64, n: Node)
        requires chain { IsChainOf self.old store.old }
        requires node { IsNode (column_of store.old (col_of self.old)) n }
        requires new { Lacks (nodes_of self.old store.old) n }
        requires place { place ≤ length (nodes_of self.old store.old) }
        requires room { HasRoom self.old }
        ensures { BecomesChain self.old self.new store.old store.new
            (insert (nodes_of self.old store.old) place n) }
    {
        let (before, after) = self.ends_at(store, place);
        self.insert_between(store, before, n, after);
    }

    /// Takes `n` out. It reads no record, so the node's may have changed. O(1).
    pub fn unlink<R>(&mut self, store: &mut NodeStore<R>, n: Node)
        requires { HasNode self.old store.old n }
        ensures chain { BecomesChain self.old self.new store.old store.new
            (without (same_node n) (nodes_of self.old store.old)) }
        ensures room { HasRoom self.new }
    {
        let Link {
            a: before,
            b: after,
            ..
        } = store.link(n, self.col);
        set_next(store, self.col, before, after);
        set_prev(store, self.col, after, before);
        store.set_link(n, self.col, chain_link(None, None));
        self.first = end_beside(before, self.first, after);
        self.last = end_beside(after, self.last, before);
        self.len -= 1;
    }

    // Puts `n` between two neighbours, or at an end where one is `None`.
    fn insert_between<R>(
        &mut self,
        store: &mut NodeStore<R>,
        before: Option<Node>,
        n: Node,
        after: Option<Node>,
    )
        requires node { IsNode (column_of store.old (col_of self.old)) n }
        requires before { AreNodesOf store.old before }
        requires after { AreNodesOf store.old after }
        requires room { HasRoom self.old }
        ensures list { (xs ys : List Node) → Spells (column_of store.old) self.old (xs ++ ys)
            → Lacks (xs ++ ys) n → before ≡ last_or xs None → after ≡ first_or ys None
            → Spells (column_of store.new) self.new (xs ++ n ∷ ys) }
        ensures len { self.new.len ≡ self.old.len + 1 }
        ensures col { col_of self.new ≡ col_of self.old }
        ensures others { KeepsOthers (column_of store.old) (column_of store.new) (col_of self.old) }
        ensures contents { contents store.new ≡ contents store.old }
    {
        store.set_link(n, self.col, chain_link(before, after));
        set_next(store, self.col, before, Some(n));
        set_prev(store, self.col, after, Some(n));
        self.first = end_beside(before, self.first, Some(n));
        self.last = end_beside(after, self.last, Some(n));
        self.len += 1;
    }
}
