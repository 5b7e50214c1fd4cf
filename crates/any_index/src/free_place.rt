//! The places of an index that other nodes with a record's key leave free.
ghost use Rattle.std.specs.Prelude.{◌≡◌, cond, Some, None, IfOk, IfErr, OnOk};
ghost use Rattle.std.specs.Ordering.{is_le};
ghost use Rattle.container_model.specs.State.{is_sorted_kind};
ghost use Rattle.ord_tree.specs.Last.{last_that};
ghost use Rattle.any_index.specs.Side.{equal_but};
ghost use Rattle.any_index.specs.Spelled.{kind_of};

use crate::index::AnyIndex;
use key_extract::Extract;
use node_store::{Node, NodeStore};

impl AnyIndex {
    ghost use Rattle.any_index.specs.Stored.{nodes_of, record_side_in, IsFiledOnce};

    /// The first node other than the excepted one whose record has the record's key. The excepted node's record may
    /// have changed. O(log n) in a tree, expected O(1) in buckets; it takes no memory. A sequence has no such call.
    pub fn same_as<R, E: Extract<R>>(
        &self,
        store: &NodeStore<R>,
        keys: &E,
        r: &R,
        except: Option<Node>,
    ) -> Option<Node>
        requires { IsFiledOnce E.Extract except self.now store.now keys.now }
        ensures { result ≡ equal_but except
            (record_side_in E.Extract self.now store.now keys.now r.now)
            (nodes_of self.now store.now) }
    {
        match self {
            AnyIndex::Ordered(tree) => tree.same_as(store, keys, r, except),
            AnyIndex::Ranked(tree) => tree.same_as(store, keys, r, except),
            AnyIndex::Hashed(buckets) => buckets.same_as(store, keys, r, except),
            AnyIndex::Sequenced(_) | AnyIndex::Random(_) => unreachable!(),
        }
    }

    /// The first node whose record has the record's key, as an `Err`. Where none has it, a tree answers the last node whose
    /// key is at most the record's, or `None` where each comes behind the record, and buckets `None`. O(log n) in a tree,
    /// expected O(1) in buckets; it takes no memory. A sequence has no such call.
    pub fn free_place<R, E: Extract<R>>(
        &self,
        store: &NodeStore<R>,
        keys: &E,
        r: &R,
    ) -> Result<Option<Node>, Node>
        requires { IsFiledOnce E.Extract None self.now store.now keys.now }
        ensures free { OnOk result (equal_but None
            (record_side_in E.Extract self.now store.now keys.now r.now)
            (nodes_of self.now store.now) ≡ None) }
        ensures place { IfOk result (λ last. last ≡ cond (is_sorted_kind (kind_of self.now))
            (last_that (λ m. is_le (record_side_in E.Extract self.now store.now keys.now r.now m))
            (nodes_of self.now store.now)) None) }
        ensures taken { IfErr result (λ by. equal_but None
            (record_side_in E.Extract self.now store.now keys.now r.now)
            (nodes_of self.now store.now) ≡ Some by) }
    {
        match self {
            AnyIndex::Ordered(tree) => tree.free_place(store, keys, r),
            AnyIndex::Ranked(tree) => tree.free_place(store, keys, r),
            AnyIndex::Hashed(buckets) => match buckets.same_as(store, keys, r, None) {
                Some(by) => Err(by),
                None => Ok(None),
            },
            AnyIndex::Sequenced(_) | AnyIndex::Random(_) => unreachable!(),
        }
    }
}
