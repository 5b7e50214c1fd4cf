//! A set whose indices are filled one by one.
ghost use Rattle.std.specs.Prelude.{◌≡◌, ◌+◌, ◌<◌, ◌^◌, IfOk, IfErr, OnOk, OnErr, slice_set};
ghost use Rattle.node_store.specs.Store.{age_of, len_of};
ghost use Rattle.node_store.specs.ByNode.{AddsNode};
ghost use Rattle.index_set.specs.Added.{IsCause};

use crate::build::{NoIndex, build};
use crate::nodes::Nodes;
use crate::parts::Parts;
use crate::set::IndexSet;
use any_index::IndexRef;
use container_model::Spec;
use key_extract::Extract;
use node_store::{NoRoom, Node, NodeStore};
use std::marker::Model;

/// A set of which an index may have some of the nodes alone, each where its record's key puts it.
#[derive(Drop)]
pub struct Filling<R, E: Extract<R>> {
    parts: Parts<R, E>,
}

impl<R, E: Extract<R>> Model for Filling<R, E> {
    ghost use Rattle.index_set.specs.declared.parts.Parts.{Parts};
    ghost use Rattle.index_set.specs.Codes.{parts_code};

    ghost Value = { Parts R E };

    ghost coded = { parts_code R.code E.code };

    ghost use Rattle.index_set.specs.Asked.{IsFiled};

    ghost view = { λ s. s.parts };

    ghost invariant = { λ s. IsFiled E.Extract s.parts };
}

impl<R, E: Extract<R>> IndexSet<R, E> {
    ghost use Rattle.index_set.specs.Asked.{IsFiled};

    /// The set, to be filled. O(1).
    pub fn open(self) -> Filling<R, E>
        ensures { result ≡ self }
    {
        Filling { parts: self.parts }
    }
}

impl<R, E: Extract<R>> Nodes<R, E> for Filling<R, E> {
    ghost parts = { λ s. s };

    fn store(&self) -> &NodeStore<R> {
        &self.parts.store
    }

    fn specs(&self) -> &[Spec] {
        self.parts.specs.as_slice()
    }

    fn at(&self, index: usize) -> IndexRef<'_, R, E> {
        let parts = &self.parts;
        IndexRef::new(&parts.indices[index], &parts.store, &parts.keys)
    }
}

impl<R, E: Extract<R>> Filling<R, E> {
    ghost use Rattle.index_set.specs.Set.{AreHeld};

    /// The set, each index of which has each node by now. O(1).
    pub fn close(self) -> IndexSet<R, E>
        requires { AreHeld self }
        ensures { result ≡ self }
    {
        IndexSet { parts: self.parts }
    }
}

impl<R: Drop, E: Extract<R>> Filling<R, E> {
    ghost use Rattle.index_set.specs.Asked.{IsFiled};
    ghost use Rattle.index_set.specs.Set.{store_of, lists_of, IsOfSame};

    /// Adds a record, which is in no index yet. Where there is no memory for it, it is handed back. O(1).
    pub fn add(&mut self, value: R) -> Result<Node, NoRoom<R>>
        requires { (store_of self.old).added + 1 < 2 ^ 64 }
        ensures filed { IsFiled E.Extract self.new }
        ensures same { IsOfSame self.old self.new }
        ensures lists { lists_of self.new ≡ lists_of self.old }
        ensures age { IfOk result (λ n. age_of (store_of self.new) n ≡ (store_of self.old).added) }
        ensures count { OnOk result ((store_of self.new).added ≡ (store_of self.old).added + 1) }
        ensures added { IfOk result (λ n. AddsNode (store_of self.old)
            (store_of self.new) n value) }
        ensures len { OnOk result (len_of (store_of self.new) ≡ len_of (store_of self.old) + 1) }
        ensures unchanged { OnErr result (self.new ≡ self.old) }
        ensures returned { IfErr result (λ e. e.value ≡ value) }
    {
        self.parts.add(value)
    }
}

impl<R: Drop, E: Extract<R> + Drop> Filling<R, E> {
    ghost use Rattle.index_set.specs.Asked.{IsFiled};
    ghost use Rattle.index_set.specs.Refilled.{CanRefill, clash_here, new_list};
    ghost use Rattle.index_set.specs.Set.{contents, lists_of, IsOfSame};

    /// The set with these nodes in an index in place of those that it has, put in one after the other: so they stand in their
    /// order in a sequence, and so do equal ones in the order of a key. Where the index is unique and two of the nodes have
    /// one key, or where memory is refused, the set is dropped. O(n log n) in a tree, O(n) in a sequence and expected O(n)
    /// in buckets, for n nodes.
    pub fn filled(self, index: usize, nodes: &[Node]) -> Result<Self, NoIndex>
        requires { CanRefill E.Extract self index nodes.now }
        ensures filed { IfOk result (λ made. IsFiled E.Extract made) }
        ensures same { IfOk result (λ made. IsOfSame self made) }
        ensures contents { IfOk result (λ made. contents made ≡ contents self) }
        ensures lists { IfOk result (λ made. lists_of made ≡ slice_set (lists_of self) index
            (new_list E.Extract self index nodes.now)) }
        ensures no_clash { OnOk result (clash_here E.Extract self index nodes.now ≡ None) }
        ensures cause { IfErr result (IsCause (Unit {0})
            (clash_here E.Extract self index nodes.now)) }
    {
        let Filling { mut parts } = self;
        let spec = parts.specs[index];
        let column = parts.indices[index].col();
        let made = build(
            parts.alloc,
            &mut parts.store,
            &parts.keys,
            spec,
            column,
            index,
            nodes,
        )?;
        parts.indices[index] = made;
        Ok(Filling { parts })
    }
}
