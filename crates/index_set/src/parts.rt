//! The parts of a set, and the steps that its calls are made of. Between two steps a node may stand in no index, and a
//! record may have other keys than the indices go by.
ghost use Rattle.any_index.specs.Keyed.{marks_of};
ghost use Rattle.std.specs.Prelude.{◌≡◌, ◌+◌, ◌<◌, ◌^◌, ℕ, map, Some, None, IfOk, IfErr, OnOk, OnErr};
ghost use Rattle.list_model.specs.Walk.{without};
ghost use Rattle.node_store.specs.Store.{IsNodeOf, age_of, len_of};
ghost use Rattle.node_store.specs.ByNode.{AddsNode, RemovesNode, same_node};
ghost use Rattle.any_index.specs.Side.{AreNodesOf};
ghost use Rattle.index_set.specs.Changed.{may_differ, differs};
ghost use Rattle.index_set.specs.Each.{changed_from};
ghost use Rattle.index_set.specs.Indices.{LackIt, HoldIt};
ghost use Rattle.index_set.specs.Lists.{settled_at, ban_from};

use crate::bans::first_ban;
use crate::changed::Changed;
use crate::every::{leave_each, settle_each};
use any_index::AnyIndex;
use container_model::Spec;
use key_extract::Extract;
use node_store::{NoRoom, Node, NodeStore};
use std::alloc::Global;

/// Records under one to eight indices, each of which may have any of its nodes. Each goes through a column of the store of
/// its own, one of the first `columns`.
#[derive(Drop)]
pub struct Parts<R, E> {
    pub(crate) alloc: Global,
    pub(crate) store: NodeStore<R>,
    pub(crate) columns: usize,
    pub(crate) keys: E,
    pub(crate) specs: Vec<Spec>,
    pub(crate) indices: Vec<AnyIndex>,
}

impl<R: Drop, E: Extract<R>> Parts<R, E> {
    ghost use Rattle.index_set.specs.Set.{store_of, record_of, lists_of, HasRoom, IsSound, IsKeyed, IsOfSame};

    /// Adds a record, which is in no index yet. Where there is no memory for it, it is handed back. O(1).
    pub(crate) fn add(&mut self, value: R) -> Result<Node, NoRoom<R>>
        requires sound { IsSound E.has_key self.old }
        requires count { (store_of self.old).added + 1 < 2 ^ 64 }
        ensures sound { IsSound E.has_key self.new }
        ensures same { IsOfSame self.old self.new }
        ensures lists { lists_of self.new ≡ lists_of self.old }
        ensures age { IfOk result (λ n. age_of (store_of self.new) n ≡ (store_of self.old).added) }
        ensures count { OnOk result ((store_of self.new).added ≡ (store_of self.old).added + 1) }
        ensures added { IfOk result (λ n. AddsNode (store_of self.old)
            (store_of self.new) n value) }
        ensures len { OnOk result (len_of (store_of self.new) ≡ len_of (store_of self.old) + 1) }
        ensures loose { IfOk result (λ n. LackIt (lists_of self.new) n) }
        ensures keyed { IsKeyed E.order_of (marks_of E.Extract) self.old →
            IsKeyed E.order_of (marks_of E.Extract) self.new }
        ensures room { HasRoom self.old → HasRoom self.new }
        ensures unchanged { OnErr result (self.new ≡ self.old) }
        ensures returned { IfErr result (λ e. e.value ≡ value) }
    {
        self.store.add(value)
    }

    /// Removes a node that is in no index, and returns its record. O(1).
    pub(crate) fn remove(&mut self, n: Node) -> R
        requires sound { IsSound E.has_key self.old }
        requires node { IsNodeOf (store_of self.old) n }
        requires loose { LackIt (lists_of self.old) n }
        ensures sound { IsSound E.has_key self.new }
        ensures same { IsOfSame self.old self.new }
        ensures lists { lists_of self.new ≡ lists_of self.old }
        ensures value { record_of self.old n ≡ Some result }
        ensures removed { RemovesNode (store_of self.old) (store_of self.new) n }
        ensures count { (store_of self.new).added ≡ (store_of self.old).added }
        ensures len { len_of (store_of self.new) + 1 ≡ len_of (store_of self.old) }
        ensures keyed { IsKeyed E.order_of (marks_of E.Extract) self.old →
            IsKeyed E.order_of (marks_of E.Extract) self.new }
        ensures room { HasRoom self.old → HasRoom self.new }
    {
        self.store.remove(n)
    }
}

impl<R, E: Extract<R>> Parts<R, E> {
    ghost use Rattle.index_set.specs.Asked.{IsFiledBut};
    ghost use Rattle.index_set.specs.Set.{store_of, keys_of, specs_of, contents, record_of, lists_of, HasRoom, IsSound, IsKeyed, IsKeyedBut, IsKeyedExcept, IsUniqueExcept, HasKeysOf, IsRestored, IsKeyedBeside, IsFreeBeside, IsOfSame, with_record};

    /// Takes a node out of each index. It reads no record, so the node's may have changed. It takes no memory, and
    /// leaves room for one node. O(log n) for each index, but O(the nodes behind it) in one with places.
    pub(crate) fn leave(&mut self, n: Node)
        requires sound { IsSound E.has_key self.old }
        requires held { HoldIt (lists_of self.old) n }
        ensures sound { IsSound E.has_key self.new }
        ensures same { IsOfSame self.old self.new }
        ensures lists { lists_of self.new ≡ map (without (same_node n)) (lists_of self.old) }
        ensures room { HasRoom self.new }
        ensures keyed { IsKeyedBut E.order_of (marks_of E.Extract) self.old n →
            IsKeyed E.order_of (marks_of E.Extract) self.new }
        ensures contents { contents self.new ≡ contents self.old }
    {
        leave_each(&mut self.store, &self.specs, &mut self.indices, n);
    }

    /// As `settle`, where the record has kept its key at all indices but the changed ones, which alone are settled. It takes
    /// no memory. O(log n) for each of these.
    pub(crate) fn settle_changed(&mut self, n: Node, changed: Changed)
        requires sound { IsSound E.has_key self.old }
        requires held { HoldIt (lists_of self.old) n }
        requires keyed { IsKeyedBut E.order_of (marks_of E.Extract) self.old n }
        requires beside { IsKeyedBeside E.order_of (marks_of E.Extract) self.old changed }
        ensures sound { IsSound E.has_key self.new }
        ensures same { IsOfSame self.old self.new }
        ensures lists { lists_of self.new ≡ changed_from
            (settled_at (E.order_of (keys_of self.old)) (record_of self.old) n) 0
            (specs_of self.old) (lists_of self.old) }
        ensures keyed { IsKeyed E.order_of (marks_of E.Extract) self.new }
        ensures contents { contents self.new ≡ contents self.old }
    {
        settle_each(
            &mut self.store,
            &self.keys,
            &self.specs,
            &mut self.indices,
            n,
            changed,
        );
    }

    /// Called in place of `settle` where the record of `n`, after writes through `get_mut`, has the keys again that it had
    /// before them: as writing a record moves no node, each index has all its nodes where their keys put them, and a unique
    /// one each key once, as before. It takes no memory. O(1).
    pub(crate) fn put_back(&mut self, n: Node)
        requires sound { IsSound E.has_key self.old }
        requires node { IsNodeOf (store_of self.old) n }
        requires restored { IsRestored E.order_of (marks_of E.Extract) self.old n }
        ensures unchanged { self.new ≡ self.old }
        ensures keyed { IsKeyed E.order_of (marks_of E.Extract) self.new }
        ensures unique { (before : R) → HasKeysOf E.order_of self.old n before →
            IsUniqueExcept E.order_of (with_record self.old n before) None →
            IsUniqueExcept E.order_of self.new None }
    {
        // Each node stands where it stood.
    }

    /// The indices at which a record has another key than that of `n`. A comparison for each index that has a key.
    pub(crate) fn changed_by(&self, n: Node, r: &R) -> Changed
        requires sound { IsSound E.has_key self.now }
        requires node { IsNodeOf (store_of self.now) n }
        ensures { (before : R) (index : ℕ) → record_of self.now n ≡ Some before →
            may_differ result index ≡
            differs (E.order_of (keys_of self.now)) (specs_of self.now) r.now before index }
    {
        Changed::between(&self.keys, &self.specs, self.store.get(n), r)
    }

    /// As `bans`, where the record has the excepted node's key at all indices but the changed ones, which alone are asked. It
    /// takes no memory. O(log n) for each of these.
    pub(crate) fn bans_changed(
        &self,
        r: &R,
        except: Option<Node>,
        changed: Changed,
    ) -> Option<(usize, Node)>
        requires sound { IsSound E.has_key self.now }
        requires except { AreNodesOf (store_of self.now) except }
        requires keyed { IsKeyedExcept E.order_of (marks_of E.Extract) self.now except }
        requires unique { IsUniqueExcept E.order_of self.now except }
        requires free { IsFreeBeside E.order_of self.now changed except r.now }
        ensures { result ≡ ban_from (E.order_of (keys_of self.now)) (record_of self.now)
            (lists_of self.now) except r.now 0 (specs_of self.now) }
    {
        first_ban(
            &self.store,
            &self.keys,
            &self.specs,
            &self.indices,
            r,
            except,
            changed,
        )
    }

    // The first unique index in which another node has the key of the record of `n`, which may have changed at these indices
    // alone, with that node.
    pub(crate) fn written_bans(&self, n: Node, changed: Changed) -> Option<(usize, Node)>
        requires filed { IsFiledBut E.Extract self.now n }
        requires node { IsNodeOf (store_of self.now) n }
        requires free { (r : R) → record_of self.now n ≡ Some r →
            IsFreeBeside E.order_of self.now changed (Some n) r }
        ensures { (r : R) → record_of self.now n ≡ Some r →
            result ≡ ban_from (E.order_of (keys_of self.now)) (record_of self.now)
            (lists_of self.now) (Some n) r 0 (specs_of self.now) }
    {
        self.bans_changed(self.store.get(n), Some(n), changed)
    }
}
