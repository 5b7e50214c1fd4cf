//! What a sequence answers about its order.
ghost use Rattle.std.specs.Prelude.{◌≡◌, slice_get};
ghost use Rattle.node_store.specs.ByNode.{same_node};
ghost use Rattle.list_model.specs.Walk.{next as the_next, prev as the_prev, last as the_last};
ghost use Rattle.seq_index.specs.Stored.{nodes_of, IsChainOf, HasNode};

use crate::SeqIndex;
use node_store::{Node, NodeStore};

impl SeqIndex {
    /// The first node. O(1).
    pub fn first<R>(&self, store: &NodeStore<R>) -> Option<Node>
        requires { IsChainOf self.now store.now }
        ensures { result ≡ slice_get (nodes_of self.now store.now) 0 }
    {
        self.first
    }

    /// The last node. O(1).
    pub fn last<R>(&self, store: &NodeStore<R>) -> Option<Node>
        requires { IsChainOf self.now store.now }
        ensures { result ≡ the_last (nodes_of self.now store.now) }
    {
        self.last
    }

    /// The node after `n`, or `None` at the end. O(1).
    pub fn next<R>(&self, store: &NodeStore<R>, n: Node) -> Option<Node>
        requires { HasNode self.now store.now n }
        ensures { result ≡ the_next (same_node n) (nodes_of self.now store.now) }
    {
        store.link(n, self.col).b
    }

    /// The node before `n`, or `None` at the front. O(1).
    pub fn prev<R>(&self, store: &NodeStore<R>, n: Node) -> Option<Node>
        requires { HasNode self.now store.now n }
        ensures { result ≡ the_prev (same_node n) (nodes_of self.now store.now) }
    {
        store.link(n, self.col).a
    }
}
