//! Changes of the order of one sequence.
ghost use Rattle.std.specs.Prelude.{◌≡◌, ◌≤◌, IsPermutation, length, slice_set, reverse as reversed};
ghost use Rattle.list_model.specs.Walk.{relocated};
ghost use Rattle.node_store.specs.Nodes.{Holds};
ghost use Rattle.node_store.specs.ByNode.{same_node};
ghost use Rattle.container_model.specs.declared.handle.Kind.TheVariants.{Random};
ghost use Rattle.index_set.specs.Asked.{IsKept, IsSequence};
ghost use Rattle.index_set.specs.At.{IsKey};
ghost use Rattle.index_set.specs.Lists.{IsSunk, is_match};
ghost use Rattle.index_set.specs.Set.{contents, kind_at, list_of, lists_of, probe_side, IsOfSame};

use crate::set::IndexSet;
use key_extract::Extract;
use node_store::Node;

impl<R, E: Extract<R>> IndexSet<R, E> {
    /// Moves `n` before the node at the place of a sequence, or last. The place counts with `n` still in. It takes no
    /// memory. O(the distance of the place from the nearer end), in one with places O(the nodes between both
    /// places). Others have no such call.
    pub fn move_to(&mut self, index: usize, place: u64, n: Node)
        requires at { IsSequence self.old index }
        requires held { Holds (list_of self.old index) n }
        requires place { place ≤ length (list_of self.old index) }
        ensures kept { IsKept E.Extract self.new }
        ensures same { IsOfSame self.old self.new }
        ensures lists { lists_of self.new ≡ slice_set (lists_of self.old) index
            (relocated (same_node n) n place (list_of self.old index)) }
        ensures contents { contents self.new ≡ contents self.old }
    {
        self.parts.indices[index].move_to(&mut self.parts.store, place, n);
    }

    /// Puts the nodes of a sequence into this order. It takes no memory. O(nodes). Others have no such call.
    pub fn rearrange(&mut self, index: usize, order: &[Node])
        requires at { IsSequence self.old index }
        requires members { IsPermutation (list_of self.old index) order.now }
        ensures kept { IsKept E.Extract self.new }
        ensures same { IsOfSame self.old self.new }
        ensures lists { lists_of self.new ≡ slice_set (lists_of self.old) index order.now }
        ensures contents { contents self.new ≡ contents self.old }
    {
        self.parts.indices[index].rearrange(&mut self.parts.store, order);
    }

    /// Turns the order of a sequence round. It takes no memory. O(nodes). Others have no such call.
    pub fn reverse(&mut self, index: usize)
        requires { IsSequence self.old index }
        ensures kept { IsKept E.Extract self.new }
        ensures same { IsOfSame self.old self.new }
        ensures lists { lists_of self.new ≡ slice_set (lists_of self.old) index
            (reversed (list_of self.old index)) }
        ensures contents { contents self.new ≡ contents self.old }
    {
        self.parts.indices[index].reverse(&mut self.parts.store);
    }

    /// Puts those nodes of a row whose records have the key of index `index` behind all others, which keep their order. It
    /// reads the records of the key alone, and takes no memory. A look-up in index `index`, a step for each node that has the
    /// key, and O(the nodes of the row from the first of them on). A row is a sequence with places, and others have no such
    /// call.
    pub fn sink(&mut self, row: usize, index: usize, probe: &E::Probe)
        requires kind { kind_at self.old row ≡ Random }
        requires key { IsKey self.old index E.Extract probe.now }
        ensures kept { IsKept E.Extract self.new }
        ensures same { IsOfSame self.old self.new }
        ensures lists { lists_of self.new ≡ slice_set (lists_of self.old) row
            (list_of self.new row) }
        ensures sunk { IsSunk (is_match (probe_side E.probe_order_of self.old index probe.now)
            (list_of self.old index)) (list_of self.old row) (list_of self.new row) }
        ensures contents { contents self.new ≡ contents self.old }
    {
        let low = self.parts.indices[index].mark_key(
            &mut self.parts.store,
            &self.parts.keys,
            probe,
            &self.parts.indices[row],
        );
        self.parts.indices[row].close_up(&mut self.parts.store, low);
    }
}
