//! Where a record goes that has the key of no other.
ghost use Rattle.std.specs.Prelude.{◌≡◌, Some, None, IfOk, IfErr, OnOk};
ghost use Rattle.std.specs.Ordering.{is_le};
ghost use Rattle.ord_tree.specs.Same.{equal_but};
ghost use Rattle.ord_tree.specs.Last.{last_that};

use crate::order::{either, order_to_record};
use crate::tally::Tally;
use crate::tree::OrdTree;
use key_extract::Extract;
use node_store::{Digest, Node, NodeStore};

impl<T: Tally> OrdTree<T> {
    ghost use Rattle.ord_tree.specs.Stored.{nodes_of, record_side_in, IsOrdered};

    /// The first node whose record has the row's key, as an `Err`. Where none has it, the last node whose key is at most the
    /// row's, or `None` where each comes behind the row. One descent: O(log n), and it takes no memory.
    pub fn free_place<R, E: Extract<R>>(
        &self,
        store: &NodeStore<R>,
        keys: &E,
        row: &R,
    ) -> Result<Option<Node>, Node>
        requires { IsOrdered E.Extract self.now store.now keys.now }
        ensures free { OnOk result (equal_but None
            (record_side_in E.Extract self.now store.now keys.now row.now)
            (nodes_of self.now store.now) ≡ None) }
        ensures place { IfOk result (λ last. last ≡ last_that
            (λ m. is_le (record_side_in E.Extract self.now store.now keys.now row.now m))
            (nodes_of self.now store.now)) }
        ensures taken { IfErr result (λ by. equal_but None
            (record_side_in E.Extract self.now store.now keys.now row.now)
            (nodes_of self.now store.now) ≡ Some by) }
    {
        let mut found = None;
        let mut last = None;
        let mut at = self.root;
        let digest = Digest::of(keys.digest(self.index, row));
        while let Some(n) = at {
            let link = store.link(n, self.col);
            let order = order_to_record(keys, self.index, link.digest, store.get(n), digest, row);
            let before = order.is_lt();
            last = either(before, n, last);
            found = either(order.is_eq(), n, found);
            at = store.side(n, self.col, before);
        }
        match found {
            Some(by) => Err(by),
            None => Ok(last),
        }
    }
}
