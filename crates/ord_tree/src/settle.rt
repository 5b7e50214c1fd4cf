//! Putting a node in order whose record has changed.
ghost use Rattle.std.specs.Prelude.{◌≡◌, Some};
ghost use Rattle.node_store.specs.Digest.{digest_number};
ghost use Rattle.node_store.specs.Store.{IsNodeOf};
ghost use Rattle.node_store.specs.ByNode.{column_of, same_node};
ghost use Rattle.list_model.specs.Walk.{fits_between, settled};
ghost use Rattle.node_store.specs.Column.{IsNode};
ghost use Rattle.ord_tree.specs.Digests.{kept_digest};

use crate::order::order_to_record;
use crate::tally::Tally;
use crate::tree::OrdTree;
use key_extract::Extract;
use node_store::{Digest, Link, Node, NodeStore};
use std::cmp::Ordering;

impl<T: Tally> OrdTree<T> {
    ghost use Rattle.ord_tree.specs.Stored.{HasNode, BecomesTree, nodes_of, order_in, HasKey, HasItsDigest, HaveTheirDigests, IsOrderedBut};
    ghost use Rattle.ord_tree.specs.Spelled.{col_of, index_of};

    /// Puts `n` in order, whose record may have changed: it stays where it fits between its two neighbours, and goes
    /// after all whose key is at most its own otherwise. The others are in order. O(log n), comparisons included.
    pub fn settle<R, E: Extract<R>>(&mut self, store: &mut NodeStore<R>, keys: &E, n: Node)
        requires node { HasNode self.old store.old n }
        requires others { IsOrderedBut E.Extract (Some n) self.old store.old keys.now }
        ensures tree { BecomesTree self.old self.new store.old store.new
            (settled (same_node n) (λ m. order_in E.Extract self.old store.old keys.now m n) n
            (nodes_of self.old store.old)) }
        ensures digested { HaveTheirDigests E.Extract self.old store.new keys.now
            (nodes_of self.new store.new) }
    {
        let digest = Digest::of(keys.digest(self.index, store.get(n)));
        if self.fits(store, keys, n, digest) {
            let link = store.link(n, self.col);
            store.set_link(n, self.col, Link { digest, ..link });
            return;
        }
        self.unlink(store, n);
        self.link(store, keys, n, None);
    }

    // Whether the key of `n`, whose digest is given, stands in order between those of its two neighbours.
    fn fits<R, E: Extract<R>>(
        &self,
        store: &NodeStore<R>,
        keys: &E,
        n: Node,
        digest: Digest,
    ) -> bool
        requires node { HasNode self.now store.now n }
        requires others { IsOrderedBut E.Extract (Some n) self.now store.now keys.now }
        requires digest { digest_number digest ≡ kept_digest
            (E.digest_of keys.now (index_of self.now)) store.now n }
        ensures { result ≡ fits_between (same_node n)
            (λ m. order_in E.Extract self.now store.now keys.now m n)
            (nodes_of self.now store.now) }
    {
        if let Some(m) = self.prev(store, n) {
            if self.order_of(store, keys, m, n, digest).is_gt() {
                return false;
            }
        }
        match self.next(store, n) {
            Some(m) => self.order_of(store, keys, m, n, digest).is_ge(),
            None => true,
        }
    }

    // How the keys of two nodes stand to one another, where the digest of the second is given.
    fn order_of<R, E: Extract<R>>(
        &self,
        store: &NodeStore<R>,
        keys: &E,
        m: Node,
        n: Node,
        digest: Digest,
    ) -> Ordering
        requires key { HasKey E.Extract self.now keys.now }
        requires one { IsNode (column_of store.now (col_of self.now)) m }
        requires digested { HasItsDigest E.Extract self.now store.now keys.now m }
        requires other { IsNodeOf store.now n }
        requires digest { digest_number digest ≡ kept_digest
            (E.digest_of keys.now (index_of self.now)) store.now n }
        ensures { result ≡ order_in E.Extract self.now store.now keys.now m n }
    {
        let own = store.link(m, self.col).digest;
        order_to_record(keys, self.index, own, store.get(m), digest, store.get(n))
    }
}
