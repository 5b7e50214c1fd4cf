//! Whether another record has a record's key.
ghost use Rattle.ord_tree.specs.Tree.{Tree, nodes, IsAt, AreNodes};
ghost use Rattle.std.specs.Prelude.{◌≡◌, ◌≢◌, Option, Some, None};
ghost use Rattle.node_store.specs.Nodes.{last_or};
ghost use Rattle.node_store.specs.Column.{IsNode};
ghost use Rattle.node_store.specs.ByNode.{column_of};
ghost use Rattle.ord_tree.specs.Removal.{HasTree};
ghost use Rattle.ord_tree.specs.Same.{AreNodesOf, equal_but};

use crate::order::order_to_record;
use crate::tally::Tally;
use crate::tree::OrdTree;
use crate::walk::last_of;
use key_extract::Extract;
use node_store::{Digest, Node, NodeStore};

impl<T: Tally> OrdTree<T> {
    ghost use Rattle.ord_tree.specs.Stored.{nodes_of, record_side_in, IsOrderedBut};
    ghost use Rattle.ord_tree.specs.Spelled.{col_of};

    /// The first node other than the excepted one whose record has the row's key.
    ///
    /// The excepted node may stand out of order: the descent goes by its neighbour. O(log n); it takes no memory.
    pub fn same_as<R, E: Extract<R>>(
        &self,
        store: &NodeStore<R>,
        keys: &E,
        row: &R,
        except: Option<Node>,
    ) -> Option<Node>
        requires except { AreNodesOf store.now except }
        requires others { IsOrderedBut E.Extract except self.now store.now keys.now }
        ensures { result ≡ equal_but except
            (record_side_in E.Extract self.now store.now keys.now row.now)
            (nodes_of self.now store.now) }
    {
        let mut found = None;
        let mut at = self.root;
        let digest = Digest::of(keys.digest(self.index, row));
        while let Some(n) = at {
            let link = store.link(n, self.col);
            match self.guide_at(store, n, link.a, except) {
                None => at = link.b,
                Some(guide) => {
                    let own = store.link(guide, self.col).digest;
                    let order = order_to_record(
                        keys,
                        self.index,
                        own,
                        store.get(guide),
                        digest,
                        row,
                    );
                    if order.is_lt() {
                        at = link.b;
                    } else if order.is_eq() {
                        found = Some(guide);
                        at = link.a;
                    } else {
                        at = link.a;
                    }
                }
            }
        }
        found
    }

    // The node by whose side a descent turns at `n`: itself, or the one before it in its subtree where it is excepted.
    fn guide_at<R>(
        &self,
        store: &NodeStore<R>,
        n: Node,
        left: Option<Node>,
        except: Option<Node>,
    ) -> Option<Node>
        requires node { IsNode (column_of store.now (col_of self.now)) n }
        requires left { HasTree T.of (column_of store.now (col_of self.now)) left }
        requires except { AreNodesOf store.now except }
        ensures itself { except ≢ Some n → result ≡ Some n }
        ensures excepted { except ≡ Some n → (t : Tree) →
            IsAt T.of (column_of store.now (col_of self.now)) left t →
            result ≡ last_or (nodes t) None }
        ensures node { AreNodes (column_of store.now (col_of self.now)) result }
    {
        if store.is_node(except, n) {
            return last_of::<T, R>(store, self.col, left);
        }
        Some(n)
    }
}
