//! One index more in a set.
ghost use Rattle.any_index.specs.Keyed.{marks_of};
ghost use Rattle.std.specs.Prelude.{◌≡◌, ◌<◌, ◌++◌, ◌∷◌, [], None, IfOk, IfErr, OnOk, OnErr, vec_len, vec_capacity};
ghost use Rattle.index_set.specs.Added.{CanAdd, HasColumn, IsNext, IsCause, clash, new_order, new_list};
ghost use Rattle.index_set.specs.Asked.{IsFiled, IsKept};
ghost use Rattle.index_set.specs.Set.{store_of, keys_of, specs_of, columns_of, contents, lists_of, IsAlike, IsKeyed, IsOfSame, IsSound};

use crate::build::{NoIndex, build, free_column};
use crate::parts::Parts;
use crate::set::IndexSet;
use any_index::AnyIndex;
use container_model::Spec;
use key_extract::Extract;
use node_store::Node;
use std::alloc::AllocError;

/// A refusal, with the keys that were handed in.
#[derive(Drop)]
pub struct NotAdded<E> {
    /// The cause.
    pub why: NoIndex,
    /// The keys.
    pub keys: E,
}

impl<R, E: Extract<R>> Parts<R, E> {
    // Makes room for one index more.
    fn reserve_index(&mut self) -> Result<(), AllocError>
        requires { IsSound E.has_key self.old }
        ensures sound { IsSound E.has_key self.new }
        ensures same { IsOfSame self.old self.new }
        ensures store { store_of self.new ≡ store_of self.old }
        ensures indices { self.new.indices.items ≡ self.old.indices.items }
        ensures keyed { IsKeyed E.order_of (marks_of E.Extract) self.old →
            IsKeyed E.order_of (marks_of E.Extract) self.new }
        ensures specs_room { OnOk result (vec_len self.new.specs < vec_capacity self.new.specs) }
        ensures indices_room { OnOk result (vec_len self.new.indices <
            vec_capacity self.new.indices) }
    {
        self.specs.reserve(1)?;
        self.indices.reserve(1)
    }

    // The index that is to be the next, with these nodes, outside the set, in which there is room for it.
    fn made_index(&mut self, spec: Spec, keys: &E, nodes: &[Node]) -> Result<AnyIndex, NoIndex>
        requires filed { IsFiled E.Extract self.old }
        requires can { CanAdd E.Extract self.old spec keys.now nodes.now }
        ensures sound { IsSound E.has_key self.new }
        ensures same { IsOfSame self.old self.new }
        ensures lists { lists_of self.new ≡ lists_of self.old }
        ensures keyed { IsKeyed E.order_of (marks_of E.Extract) self.new }
        ensures contents { contents self.new ≡ contents self.old }
        ensures indices { self.new.indices.items ≡ self.old.indices.items }
        ensures specs_room { OnOk result (vec_len self.new.specs < vec_capacity self.new.specs) }
        ensures indices_room { OnOk result (vec_len self.new.indices <
            vec_capacity self.new.indices) }
        ensures fits { OnOk result (HasColumn self.old) }
        ensures next { IfOk result (λ made. IsNext E.Extract self.old spec keys.now nodes.now
            self.new made) }
        ensures no_clash { OnOk result (clash (new_order E.Extract self.old spec keys.now nodes.now)
            spec.unique nodes.now ≡ None) }
        ensures cause { IfErr result (λ why. IsCause (HasColumn self.old)
            (clash (new_order E.Extract self.old spec keys.now nodes.now) spec.unique nodes.now)
            why) }
    {
        if self.specs.len() == self.columns {
            return Err(NoIndex::Columns);
        }
        let Ok(()) = self.reserve_index() else {
            return Err(NoIndex::Memory);
        };
        let column = free_column(&self.indices);
        let index = self.specs.len();
        build(
            self.alloc,
            &mut self.store,
            keys,
            spec,
            column,
            index,
            nodes,
        )
    }
}

impl<R, E: Extract<R> + Drop> IndexSet<R, E> {
    /// Adds an index, the last, with the nodes in this order, put in one after the other: so they stand in their order in a
    /// sequence, and so do equal ones in the order of a key. From now on the set goes by the given keys, which order and hash
    /// records as its own did at each index that is there. The index goes through the least column that none uses;
    /// where there is none, where it is unique and two of the nodes have one key, or where memory is refused, the keys are
    /// handed back and all is as before. O(n log n) in a tree, O(n) in a sequence and expected O(n) in buckets, for n nodes.
    pub fn add_index(&mut self, spec: Spec, keys: E, nodes: &[Node]) -> Result<(), NotAdded<E>>
        requires { CanAdd E.Extract self.old spec keys nodes.now }
        ensures kept { IsKept E.Extract self.new }
        ensures contents { contents self.new ≡ contents self.old }
        ensures columns { columns_of self.new ≡ columns_of self.old }
        ensures fits { OnOk result (HasColumn self.old) }
        ensures no_clash { OnOk result (clash (new_order E.Extract self.old spec keys nodes.now)
            spec.unique nodes.now ≡ None) }
        ensures keys { OnOk result (keys_of self.new ≡ keys) }
        ensures specs { OnOk result (specs_of self.new ≡ specs_of self.old ++ spec ∷ []) }
        ensures lists { OnOk result (lists_of self.new ≡ lists_of self.old ++
            new_list E.Extract self.old spec keys nodes.now ∷ []) }
        ensures cause { IfErr result (λ e. IsCause (HasColumn self.old)
            (clash (new_order E.Extract self.old spec keys nodes.now) spec.unique nodes.now) e.why) }
        ensures returned { IfErr result (λ e. e.keys ≡ keys) }
        ensures unchanged { OnErr result (IsAlike self.old self.new) }
    {
        match self.parts.made_index(spec, &keys, nodes) {
            Ok(made) => {
                self.parts.keys = keys;
                self.parts.specs.push_reserved(spec);
                self.parts.indices.push_reserved(made);
                Ok(())
            }
            Err(why) => Err(NotAdded { why, keys }),
        }
    }

    /// Why such an index may not be added, as `add_index` tells it; nothing changes. It takes the memory and the time that
    /// adding it takes.
    pub fn check_index(&mut self, spec: Spec, keys: &E, nodes: &[Node]) -> Result<(), NoIndex>
        requires { CanAdd E.Extract self.old spec keys.now nodes.now }
        ensures kept { IsKept E.Extract self.new }
        ensures unchanged { IsAlike self.old self.new }
        ensures fits { OnOk result (HasColumn self.old) }
        ensures no_clash { OnOk result (clash (new_order E.Extract self.old spec keys.now nodes.now)
            spec.unique nodes.now ≡ None) }
        ensures cause { IfErr result (IsCause (HasColumn self.old)
            (clash (new_order E.Extract self.old spec keys.now nodes.now) spec.unique nodes.now)) }
    {
        self.parts.made_index(spec, keys, nodes)?;
        Ok(())
    }
}
