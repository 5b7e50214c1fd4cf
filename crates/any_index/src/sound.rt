//! What holds of every store.
ghost use Rattle.node_store.specs.Store.{IsStore};

use node_store::NodeStore;

// No two nodes of a store have one age, whatever an index asks of it.
#[inline(always)]
pub(crate) fn sound<R>(store: &NodeStore<R>)
    ensures { IsStore store.now }
{
    store.len();
}
