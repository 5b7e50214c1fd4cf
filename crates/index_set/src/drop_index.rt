//! One index less in a set.
ghost use Rattle.std.specs.Prelude.{◌≡◌, length, remove};
ghost use Rattle.index_set.specs.Dropped.{CanDrop, AreSound, AreRenumbered};
ghost use Rattle.index_set.specs.Asked.{IsKept};
ghost use Rattle.index_set.specs.Set.{keys_of, specs_of, columns_of, contents, lists_of};

use crate::set::IndexSet;
use any_index::AnyIndex;
use key_extract::Extract;
use node_store::NodeStore;

// Lets each index go by the keys of its own number.
fn renumber_each<R>(store: &NodeStore<R>, indices: &mut Vec<AnyIndex>)
    requires { AreSound store.now indices.old.items }
    ensures count { length indices.new.items ≡ length indices.old.items }
    ensures each { AreRenumbered store.now indices.old.items indices.new.items }
{
    for index in 0..indices.len() {
        indices[index].renumber(store, index);
    }
}

impl<R, E: Extract<R> + Drop> IndexSet<R, E> {
    /// Drops one of several indices; those after it move up by one. From now on the set goes by the given keys, which at
    /// each index that stays order and hash records as its own did, at its new number. The index's column is free
    /// then. It takes no memory. O(nodes) for one with places or buckets, and O(indices) otherwise.
    pub fn drop_index(&mut self, index: usize, keys: E)
        requires { CanDrop E.Extract self.old index keys }
        ensures kept { IsKept E.Extract self.new }
        ensures contents { contents self.new ≡ contents self.old }
        ensures columns { columns_of self.new ≡ columns_of self.old }
        ensures keys { keys_of self.new ≡ keys }
        ensures specs { specs_of self.new ≡ remove (specs_of self.old) index }
        ensures lists { lists_of self.new ≡ remove (lists_of self.old) index }
    {
        self.parts.specs.remove(index);
        self.parts.indices.remove(index);
        self.parts.keys = keys;
        renumber_each(&self.parts.store, &mut self.parts.indices);
    }
}
