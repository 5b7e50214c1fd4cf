//! What the layers above a tree read of it.
ghost use Rattle.std.specs.Prelude.{◌≡◌, ◌<◌};
ghost use Rattle.node_store.specs.ByNode.{column_of};
ghost use Rattle.ord_tree.specs.Tree.{root};

use crate::tally::Tally;
use crate::tree::OrdTree;
use node_store::{Node, NodeStore};

impl<T: Tally> OrdTree<T> {
    ghost use Rattle.ord_tree.specs.Stored.{IsTreeOf};
    ghost use Rattle.ord_tree.specs.Spelled.{tree_of, col_of, index_of};

    /// The column of links that the tree goes through. O(1).
    pub fn col(&self) -> usize
        ensures col { result ≡ col_of self.now }
        ensures exists { result < 8 }
    {
        self.col
    }

    /// The number of the index whose keys order the tree. O(1).
    pub fn index(&self) -> usize
        ensures { result ≡ index_of self.now }
    {
        self.index
    }

    /// The root of the tree, or `None` where it has no nodes. O(1).
    pub fn root<R>(&self, store: &NodeStore<R>) -> Option<Node>
        requires { IsTreeOf self.now store.now }
        ensures { result ≡ root (tree_of (column_of store.now) self.now) }
    {
        self.root
    }
}
