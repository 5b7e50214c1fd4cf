//! A set without records again.
ghost use Rattle.std.specs.Prelude.{◌≡◌, [], map};
ghost use Rattle.node_store.specs.declared.Node.{Node};
ghost use Rattle.node_store.specs.Store.{IsStore, IsNodeOf, len_of, width_of};
ghost use Rattle.node_store.specs.Age.{nodes_of};
ghost use Rattle.index_set.specs.Asked.{IsKept};
ghost use Rattle.index_set.specs.Set.{store_of, specs_of, lists_of, IsOfSame};

use crate::every::empty_each;
use crate::set::IndexSet;
use key_extract::Extract;
use node_store::NodeStore;

// Removes each node of a store, the newest first.
fn remove_all<R: Drop>(store: &mut NodeStore<R>)
    requires { IsStore store.old }
    ensures sound { IsStore store.new }
    ensures nodes { (n : Node) → ¬ IsNodeOf store.new n }
    ensures count { store.new.added ≡ store.old.added }
    ensures width { width_of store.new ≡ width_of store.old }
{
    while let Some(n) = store.newest() {
        store.remove(n);
    }
}

impl<R: Drop, E: Extract<R>> IndexSet<R, E> {
    /// Takes every record out of each index, and removes it. The indices, their keys and the count of adds stay, so a new
    /// node has an age that none had before. It takes no memory, and leaves no room that was reserved.
    /// O(records + indices).
    pub fn clear(&mut self)
        ensures kept { IsKept E.Extract self.new }
        ensures same { IsOfSame self.old self.new }
        ensures lists { lists_of self.new ≡ map (λ _. []) (specs_of self.old) }
        ensures nodes { (n : Node) → ¬ IsNodeOf (store_of self.new) n }
        ensures none { nodes_of (store_of self.new) ≡ [] }
        ensures len { len_of (store_of self.new) ≡ 0 }
        ensures count { (store_of self.new).added ≡ (store_of self.old).added }
    {
        empty_each(self.parts.alloc, &self.parts.specs, &mut self.parts.indices);
        remove_all(&mut self.parts.store);
    }
}
