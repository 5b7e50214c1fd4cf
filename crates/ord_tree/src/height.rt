//! How high a tree is.
ghost use Rattle.std.specs.Prelude.{◌≡◌, ℕ, ◌*◌, ◌^◌, ◌<◌, length};
ghost use Rattle.node_store.specs.ByNode.{column_of};
ghost use Rattle.ord_tree.specs.Tree.{height};
ghost use Rattle.ord_tree.specs.Path.{AllDepthsBelow};

use crate::steps::height_of;
use crate::tally::Tally;
use crate::tree::OrdTree;
use node_store::NodeStore;

impl<T: Tally> OrdTree<T> {
    ghost use Rattle.ord_tree.specs.Stored.{IsTreeOf, AreFew, nodes_of};
    ghost use Rattle.ord_tree.specs.Spelled.{tree_of};

    /// How many nodes the longest way from the root down has. Where there are fewer than 2^k nodes they are at most 2·k, and
    /// fewer than 2·k links lead from each node up to the root. O(1).
    pub fn height<R>(&self, store: &NodeStore<R>) -> u8
        requires { IsTreeOf self.now store.now }
        ensures exact { result ≡ height (tree_of (column_of store.now) self.now) }
        ensures low { AreFew result (nodes_of self.now store.now) }
        ensures near { (k : ℕ) → length (nodes_of self.now store.now) < 2 ^ k →
            AllDepthsBelow (2 * k) (tree_of (column_of store.now) self.now) }
    {
        height_of(store, self.col, self.root)
    }
}
