//! Changes of the order of a sequence.
ghost use Rattle.std.specs.Prelude.{◌≡◌, ◌≤◌, length, reverse as reversed, IsPermutation};
ghost use Rattle.container_model.specs.State.{is_sequence_kind};
ghost use Rattle.list_model.specs.Walk.{relocated};
ghost use Rattle.node_store.specs.ByNode.{column_of, same_node};
ghost use Rattle.any_index.specs.Lists.{IsSunk};
ghost use Rattle.any_index.specs.Marks.{HasMarks, is_marked};
ghost use Rattle.any_index.specs.Spelled.{HasRoom, col_of};

use crate::index::AnyIndex;
use node_store::{Node, NodeStore};

impl AnyIndex {
    ghost use Rattle.any_index.specs.Stored.{nodes_of, IsIn, IsOfKind, HasNodeOfKind, KeepsRest};

    /// Moves `n` before the node at the place, or last. The place counts with `n` still in. It takes no memory. In a
    /// chain O(the distance of the place from the nearer end), in a row O(the nodes between both places).
    pub fn move_to<R>(&mut self, store: &mut NodeStore<R>, place: u64, n: Node)
        requires node { HasNodeOfKind is_sequence_kind self.old store.old n }
        requires place { place ≤ length (nodes_of self.old store.old) }
        ensures sound { IsIn self.new store.new }
        ensures list { nodes_of self.new store.new ≡ relocated (same_node n) n place
            (nodes_of self.old store.old) }
        ensures room { HasRoom self.old → HasRoom self.new }
        ensures rest { KeepsRest self.old self.new store.old store.new }
    {
        match self {
            AnyIndex::Sequenced(sequence) => sequence.move_to(store, place, n),
            AnyIndex::Random(row) => row.move_to(store, place, n),
            AnyIndex::Ordered(_) | AnyIndex::Ranked(_) | AnyIndex::Hashed(_) => unreachable!(),
        }
    }

    /// Puts the nodes into this order. It takes no memory. O(nodes).
    pub fn rearrange<R>(&mut self, store: &mut NodeStore<R>, order: &[Node])
        requires sequence { IsOfKind is_sequence_kind self.old store.old }
        requires same { IsPermutation (nodes_of self.old store.old) order.now }
        ensures sound { IsIn self.new store.new }
        ensures list { nodes_of self.new store.new ≡ order.now }
        ensures room { HasRoom self.old → HasRoom self.new }
        ensures rest { KeepsRest self.old self.new store.old store.new }
    {
        match self {
            AnyIndex::Sequenced(sequence) => sequence.rearrange(store, order),
            AnyIndex::Random(row) => row.rearrange(store, order),
            AnyIndex::Ordered(_) | AnyIndex::Ranked(_) | AnyIndex::Hashed(_) => unreachable!(),
        }
    }

    /// Turns the order of the nodes round. It takes no memory. O(nodes).
    pub fn reverse<R>(&mut self, store: &mut NodeStore<R>)
        requires { IsOfKind is_sequence_kind self.old store.old }
        ensures sound { IsIn self.new store.new }
        ensures list { nodes_of self.new store.new ≡ reversed (nodes_of self.old store.old) }
        ensures room { HasRoom self.old → HasRoom self.new }
        ensures rest { KeepsRest self.old self.new store.old store.new }
    {
        match self {
            AnyIndex::Sequenced(sequence) => sequence.reverse(store),
            AnyIndex::Random(row) => row.reverse(store),
            AnyIndex::Ordered(_) | AnyIndex::Ranked(_) | AnyIndex::Hashed(_) => unreachable!(),
        }
    }

    /// Puts the nodes of a row that are marked, of which `low` is the lowest place, behind all others, which keep their
    /// order, and takes the marks away. It reads no record and takes no memory. O(the nodes from the place on). Others have
    /// no such call.
    pub fn close_up<R>(&mut self, store: &mut NodeStore<R>, low: u64)
        requires { HasMarks (column_of store.old) self.old low }
        ensures sound { IsIn self.new store.new }
        ensures sunk { IsSunk (is_marked (column_of store.old (col_of self.old)))
            (nodes_of self.old store.old) (nodes_of self.new store.new) }
        ensures room { HasRoom self.old → HasRoom self.new }
        ensures rest { KeepsRest self.old self.new store.old store.new }
    {
        match self {
            AnyIndex::Random(row) => row.close_up(store, low),
            AnyIndex::Sequenced(_)
            | AnyIndex::Ordered(_)
            | AnyIndex::Ranked(_)
            | AnyIndex::Hashed(_) => unreachable!(),
        }
    }
}
