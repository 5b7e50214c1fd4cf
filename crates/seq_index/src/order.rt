//! Changes of the order of a sequence.
ghost use Rattle.std.specs.Prelude.{◌≤◌, length, reverse as the_reverse, IsPermutation};
ghost use Rattle.node_store.specs.ByNode.{same_node};
ghost use Rattle.list_model.specs.Walk.{relocated};
ghost use Rattle.seq_index.specs.Stored.{nodes_of, IsChainOf, HasNode, ReordersChain};

use crate::SeqIndex;
use crate::ends::chain_link;
use node_store::{Link, Node, NodeStore};
use std::mem;

impl SeqIndex {
    /// Moves `n` before the node at `place`, or last where `place` is the length.
    ///
    /// Places count with `n` still in, so its own place and the one after it leave the sequence as it is.
    /// O(d), where d is the distance of `place` from the nearer end.
    pub fn move_to<R>(&mut self, store: &mut NodeStore<R>, place: u64, n: Node)
        requires node { HasNode self.old store.old n }
        requires place { place ≤ length (nodes_of self.old store.old) }
        ensures { ReordersChain self.old self.new store.old store.new
            (relocated (same_node n) n place (nodes_of self.old store.old)) }
    {
        let (before, after) = self.ends_at(store, place);
        if store.is_node(before, n) || store.is_node(after, n) {
            return;
        }
        self.unlink(store, n);
        self.insert_between(store, before, n, after);
    }

    /// Puts the nodes into this order. It takes no memory. O(n).
    pub fn rearrange<R>(&mut self, store: &mut NodeStore<R>, order: &[Node])
        requires chain { IsChainOf self.old store.old }
        requires same { IsPermutation (nodes_of self.old store.old) order.now }
        ensures { ReordersChain self.old self.new store.old store.new order.now }
    {
        *self = SeqIndex::new(self.col);
        for n in order {
            self.push(store, *n);
        }
    }

    /// Turns the order round. O(n).
    pub fn reverse<R>(&mut self, store: &mut NodeStore<R>)
        requires { IsChainOf self.old store.old }
        ensures { ReordersChain self.old self.new store.old store.new
            (the_reverse (nodes_of self.old store.old)) }
    {
        let mut at = self.first;
        for _ in 0..self.len {
            let Some(n) = at else { unreachable!() };
            let Link { a, b, .. } = store.link(n, self.col);
            store.set_link(n, self.col, chain_link(b, a));
            at = b;
        }
        mem::swap(&mut self.first, &mut self.last);
    }
}
