//! What is read of a set, whether or not each of its indices has each node.
ghost use Rattle.std.specs.Prelude.{◌≡◌, ◌<◌, length};
ghost use Rattle.index_set.specs.declared.parts.Parts.{Parts};
ghost use Rattle.index_set.specs.At.{IsAt};
ghost use Rattle.index_set.specs.Set.{store_of, specs_of};

use any_index::IndexRef;
use container_model::Spec;
use key_extract::Extract;
use node_store::NodeStore;

/// Records in nodes, under indices.
pub trait Nodes<R, E: Extract<R>> {
    /// The parts of the set.
    ghost parts: { Self → Parts R E };

    /// The records in their nodes. O(1).
    fn store(&self) -> &NodeStore<R>
        ensures { result.now ≡ store_of (parts self.now) };

    /// What each index is to be, in the order of their numbers. O(1).
    fn specs(&self) -> &[Spec]
        ensures { result.now ≡ specs_of (parts self.now) };

    /// The index of this number. O(1).
    fn at(&self, index: usize) -> IndexRef<'_, R, E>
        requires { index < length (specs_of (parts self.now)) }
        ensures { IsAt (parts self.now) index result };
}
