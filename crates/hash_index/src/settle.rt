//! Nodes whose records have changed.
ghost use Rattle.std.specs.Prelude.{◌≡◌, IsPermutation};
ghost use Rattle.node_store.specs.ByNode.{same_node};
ghost use Rattle.list_model.specs.Walk.{without};
ghost use Rattle.hash_index.specs.Spelled.{buckets_of, HasRoom};
ghost use Rattle.hash_index.specs.Stored.{nodes_of, AreChainsOf, HasNode, HasKey, HasItsHash, HaveTheirHash, KeepsRest};

use crate::HashIndex;
use key_extract::Extract;
use node_store::{Node, NodeStore};

impl HashIndex {
    /// Puts `n` into the chain of its record's key after the record has changed. Where the hash is as before, no
    /// link changes. It takes no memory. O(1).
    pub fn settle<R, E: Extract<R>>(&mut self, store: &mut NodeStore<R>, keys: &E, n: Node)
        requires node { HasNode self.old store.old n }
        requires has_key { HasKey E.Extract self.old keys.now }
        ensures chain { AreChainsOf self.new store.new }
        ensures list { IsPermutation (nodes_of self.old store.old) (nodes_of self.new store.new) }
        ensures hashed { HaveTheirHash E.Extract self.old store.old keys.now
            (without (same_node n) (nodes_of self.old store.old)) →
            HaveTheirHash E.Extract self.old store.new keys.now (nodes_of self.new store.new) }
        ensures kept { HasItsHash E.Extract self.old store.old keys.now n →
            nodes_of self.new store.new ≡ nodes_of self.old store.old }
        ensures room { HasRoom self.old → HasRoom self.new }
        ensures buckets { buckets_of self.new ≡ buckets_of self.old }
        ensures rest { KeepsRest self.old self.new store.old store.new }
    {
        let hash = keys.hash(self.index, store.get(n));
        if store.link(n, self.col).tag == hash {
            return;
        }
        self.unlink(store, n);
        self.put(store, n, hash);
    }
}
