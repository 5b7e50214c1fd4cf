//! The set, its reads, and changes of its records.
ghost use Rattle.std.specs.Prelude.{◌≡◌, ◌+◌, ◌≤◌, ◌<◌, [], map, length, Some, None, IfOk, IfErr, OnOk, OnErr};
ghost use Rattle.node_store.specs.Store.{IsNodeOf, width_of, empty_store};
ghost use Rattle.container_model.specs.State.{KeysMatch};
ghost use Rattle.index_set.specs.Lists.{ban_from};
ghost use Rattle.index_set.specs.Places.{place_from};

use crate::bans::free_place;
use crate::every::{empty_indices, enter_each, reserve_each};
use crate::nodes::Nodes;
use crate::parts::Parts;
use crate::places::FreePlace;
use any_index::IndexRef;
use container_model::Spec;
use key_extract::Extract;
use node_store::{NoRoom, Node, NodeStore};
use std::alloc::{AllocError, Global};
use std::marker::Model;
use std::mem::replace;

/// Records under one to eight indices, each of which has each node where the record's key puts it, and a unique one each key
/// once. Each goes through a column of the store of its own, one of the first `columns`.
#[derive(Drop)]
pub struct IndexSet<R, E: Extract<R>> {
    pub(crate) parts: Parts<R, E>,
}

impl<R, E: Extract<R>> Model for IndexSet<R, E> {
    ghost use Rattle.index_set.specs.declared.parts.Parts.{Parts};
    ghost use Rattle.index_set.specs.Codes.{parts_code};

    ghost Value = { Parts R E };

    ghost coded = { parts_code R.code E.code };

    ghost use Rattle.index_set.specs.Asked.{IsKept};

    ghost view = { λ s. s.parts };

    ghost invariant = { λ s. IsKept E.Extract s.parts };
}

impl<R: Drop, E: Extract<R> + Drop> IndexSet<R, E> {
    ghost use Rattle.index_set.specs.Asked.{IsKept};
    ghost use Rattle.index_set.specs.Set.{store_of, keys_of, specs_of, columns_of, lists_of};

    /// A set without records, in which there is room for `columns` indices. Index number j of `specs` is asked for by key
    /// number j. O(indices).
    pub fn new(
        alloc: Global,
        specs: Vec<Spec>,
        keys: E,
        columns: usize,
    ) -> Result<IndexSet<R, E>, AllocError>
        requires some { 1 ≤ length specs.items }
        requires few { length specs.items ≤ columns }
        requires most { columns ≤ 8 }
        requires keys { KeysMatch (E.has_key keys) specs.items }
        ensures kept { IfOk result (λ made. IsKept E.Extract made) }
        ensures lists { IfOk result (λ made. lists_of made ≡ map (λ _. []) specs.items) }
        ensures empty { IfOk result (λ made.
            store_of made ≡ empty_store (width_of (store_of made))) }
        ensures keys { IfOk result (λ made. keys_of made ≡ keys) }
        ensures specs { IfOk result (λ made. specs_of made ≡ specs.items) }
        ensures columns { IfOk result (λ made. columns_of made ≡ columns) }
    {
        let indices = empty_indices(alloc, &specs)?;
        let parts = Parts {
            alloc,
            store: NodeStore::new(alloc, columns),
            columns,
            keys,
            specs,
            indices,
        };
        Ok(IndexSet { parts })
    }
}

impl<R, E: Extract<R>> Nodes<R, E> for IndexSet<R, E> {
    ghost parts = { λ s. s };

    fn store(&self) -> &NodeStore<R> {
        &self.parts.store
    }

    fn specs(&self) -> &[Spec] {
        self.parts.specs.as_slice()
    }

    fn at(&self, index: usize) -> IndexRef<'_, R, E> {
        let parts = &self.parts;
        IndexRef::new(&parts.indices[index], &parts.store, &parts.keys)
    }
}

impl<R, E: Extract<R>> IndexSet<R, E> {
    ghost use Rattle.index_set.specs.Asked.{IsKept};
    ghost use Rattle.index_set.specs.Set.{store_of, keys_of, specs_of, columns_of, record_of, lists_of};
    ghost use Rattle.index_set.specs.Writes.{IsRewritten};

    /// How many indices there may be. O(1).
    pub fn columns(&self) -> usize
        ensures { result ≡ columns_of self.now }
    {
        self.parts.columns
    }

    /// The keys of the indices. O(1).
    pub fn keys(&self) -> &E
        ensures { result.now ≡ keys_of self.now }
    {
        &self.parts.keys
    }

    /// The first unique index in which a node has the record's key, with that node, as an `Err`. Where none has it, where the
    /// record goes in the first of the unique trees in which a node comes before it, for `put`; `None` where there is no such
    /// tree. It takes no memory. One search of each unique index: O(log n) for each tree, expected O(1) for buckets.
    pub fn free_place(&self, r: &R) -> Result<Option<FreePlace>, (usize, Node)>
        ensures free { OnOk result (ban_from (E.order_of (keys_of self.now)) (record_of self.now)
            (lists_of self.now) None r.now 0 (specs_of self.now) ≡ None) }
        ensures place { IfOk result (λ place. place ≡ place_from (E.order_of (keys_of self.now))
            (record_of self.now) (lists_of self.now) r.now 0 (specs_of self.now)) }
        ensures taken { IfErr result (λ by. ban_from (E.order_of (keys_of self.now))
            (record_of self.now) (lists_of self.now) None r.now 0 (specs_of self.now) ≡ Some by) }
    {
        let parts = &self.parts;
        free_place(&parts.store, &parts.keys, &parts.specs, &parts.indices, r)
    }

    /// The first unique index in which a node other than `n` has the record's key, with that node. Only the indices at which
    /// the key is another than that of the record of `n` are asked. It takes no memory. O(log n) for each of these.
    pub fn bans(&self, r: &R, n: Node) -> Option<(usize, Node)>
        requires { IsNodeOf (store_of self.now) n }
        ensures { result ≡ ban_from (E.order_of (keys_of self.now)) (record_of self.now)
            (lists_of self.now) (Some n) r.now 0 (specs_of self.now) }
    {
        let changed = self.parts.changed_by(n, r);
        self.parts.bans_changed(r, Some(n), changed)
    }

    /// Gives a node another record, which nothing else bans, and settles it in each index; the old record is handed out. In a
    /// sequence the node keeps its place. It takes no memory. O(log n) for each index at which the key differs.
    pub fn replace(&mut self, n: Node, value: R) -> R
        requires node { IsNodeOf (store_of self.old) n }
        requires allowed { ban_from (E.order_of (keys_of self.old)) (record_of self.old)
            (lists_of self.old) (Some n) value 0 (specs_of self.old) ≡ None }
        ensures kept { IsKept E.Extract self.new }
        ensures old { record_of self.old n ≡ Some result }
        ensures written { IsRewritten E.order_of self.old self.new n value }
    {
        let changed = self.parts.changed_by(n, &value);
        let old = replace(self.parts.store.get_mut(n), value);
        self.parts.settle_changed(n, changed);
        old
    }
}

impl<R: Drop, E: Extract<R>> IndexSet<R, E> {
    ghost use Rattle.index_set.specs.Asked.{IsKept};
    ghost use Rattle.index_set.specs.Set.{store_of, record_of, IsOfSame, IsAlike};
    ghost use Rattle.index_set.specs.Writes.{CanPut, IsPut, IsTaken};

    /// Puts a record in: in each index by its key, or in a sequence last. With `at` an index and a place in it: in that
    /// sequence before the node at the place. An index in which the record's place is `known` is not searched. Where memory is
    /// refused the record is handed back, and nothing has changed. O(log n) for each index.
    pub fn put(
        &mut self,
        value: R,
        at: Option<(usize, u64)>,
        known: Option<FreePlace>,
    ) -> Result<Node, NoRoom<R>>
        requires { CanPut E.order_of self.old value at known }
        ensures kept { IsKept E.Extract self.new }
        ensures same { IsOfSame self.old self.new }
        ensures put { IfOk result (λ n. IsPut E.order_of self.old self.new n value at) }
        ensures unchanged { OnErr result (IsAlike self.old self.new) }
        ensures returned { IfErr result (λ e. e.value ≡ value) }
    {
        let parts = &mut self.parts;
        let Ok(()) = reserve_each(&mut parts.store, &parts.specs, &mut parts.indices) else {
            return Err(NoRoom { value });
        };
        let n = parts.add(value)?;
        enter_each(
            &mut parts.store,
            &parts.keys,
            &parts.specs,
            &mut parts.indices,
            n,
            at,
            known,
        );
        Ok(n)
    }

    /// Takes a node out of each index, and its record out of the set. It takes no memory. O(log n) for each index, but
    /// O(the nodes behind it) in one with places.
    pub fn take(&mut self, n: Node) -> R
        requires { IsNodeOf (store_of self.old) n }
        ensures kept { IsKept E.Extract self.new }
        ensures value { record_of self.old n ≡ Some result }
        ensures taken { IsTaken self.old self.new n }
    {
        self.parts.leave(n);
        self.parts.remove(n)
    }
}
