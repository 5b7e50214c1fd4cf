//! Growth of the buckets, one at a time: four chains.
ghost use Rattle.std.specs.Prelude.{◌≡◌, ℕ, ◌+◌, ◌-◌, ◌*◌, ◌<◌, ◌≤◌, OnOk, OnErr, Some, IsPermutation, length, slice_get};
ghost use Rattle.node_store.specs.declared.Node.{Node};
ghost use Rattle.node_store.specs.ByNode.{column_of, contents};
ghost use Rattle.node_store.specs.Store.{age_of};
ghost use Rattle.node_store.specs.Column.{KeepsOthers};
ghost use Rattle.node_store.specs.Nodes.{IsDistinct, Lacks};
ghost use Rattle.hash_index.specs.Spelled.{col_of, all_of, buckets_of, grown, leads_to, HasRoom, KeepsTags};
ghost use Rattle.hash_index.specs.Stored.{nodes_of, AreChainsOf, KeepsRest};
ghost use Rattle.hash_index.specs.Walks.{rest_of, Ends};
ghost use Rattle.hash_index.specs.Chains.{members};
ghost use Rattle.hash_index.specs.Segments.{spare};
ghost use Rattle.hash_index.specs.Split.{Builds, IsSame, left, taken};
ghost use Rattle.hash_index.specs.Heads.{alone_in};
ghost use Rattle.hash_index.specs.Grown.{IsGrown};
ghost use Rattle.hash_index.specs.Parts.{Stands, IsParted};
ghost use Rattle.hash_index.specs.Rising.{IsRising};

use crate::HashIndex;
use crate::chain::Chain;
use crate::head::Head;
use node_store::{Link, Node, NodeStore};
use std::alloc::AllocError;

impl HashIndex {
    /// Makes room for one more node: where there are as many nodes as buckets, it adds one bucket, and moves those
    /// nodes of four other chains into it whose hashes lead there. Each chain keeps its order. Where memory is refused,
    /// everything is as before. Expected O(1): buckets that are there are not moved.
    #[inline(never)]
    pub fn reserve_one<R>(&mut self, store: &mut NodeStore<R>) -> Result<(), AllocError>
        requires { AreChainsOf self.old store.old }
        ensures chain { AreChainsOf self.new store.new }
        ensures list { IsPermutation (nodes_of self.old store.old) (nodes_of self.new store.new) }
        ensures order { (b : ℕ) →
            members (column_of store.old (col_of self.old)) (leads_to self.new) b
            (nodes_of self.new store.new) ≡
            members (column_of store.old (col_of self.old)) (leads_to self.new) b
            (nodes_of self.old store.old) }
        ensures tags { KeepsTags (column_of store.old (col_of self.old))
            (column_of store.new (col_of self.old)) }
        ensures room { OnOk result (HasRoom self.new) }
        ensures full { OnErr result (¬ HasRoom self.old) }
        ensures buckets { OnOk result (buckets_of self.new ≡ grown
            (length (nodes_of self.old store.old)) (buckets_of self.old)) }
        ensures unchanged { OnErr result (self.new ≡ self.old) }
        ensures store_unchanged { OnErr result (store.new ≡ store.old) }
        ensures rest { KeepsRest self.old self.new store.old store.new }
    {
        if self.len < self.buckets() {
            return Ok(());
        }
        self.reserve_chains()?;
        self.add_bucket(store);
        Ok(())
    }

    // Makes room for one more bucket. Where memory is refused, everything is as before.
    fn reserve_chains(&mut self) -> Result<(), AllocError>
        ensures same { IsSame self.old self.new }
        ensures count { self.new.chains.len ≡ self.old.chains.len }
        ensures room { OnOk result (4 ≤ spare self.new.chains.segments.items) }
        ensures unchanged { OnErr result (self.new ≡ self.old) }
    {
        self.chains.reserve_bucket(self.alloc)
    }

    // Adds a bucket, for which there is room. All but the first one do not go past the level.
    fn add_bucket<R>(&mut self, store: &mut NodeStore<R>)
        requires chain { AreChainsOf self.old store.old }
        requires room { 4 ≤ spare self.old.chains.segments.items }
        ensures { IsGrown 4 self.old self.new store.old store.new }
    {
        self.raise_level();
        if !self.chains.is_empty() && self.chains.len() + 4 <= self.level * 2 {
            self.add_two(store);
            self.add_two(store);
        } else {
            self.grow_twice(store);
            self.grow_twice(store);
        }
    }

    // Adds two chains, for which there is room, and which may go past the level.
    fn grow_twice<R>(&mut self, store: &mut NodeStore<R>)
        requires chain { AreChainsOf self.old store.old }
        requires room { 2 ≤ spare self.old.chains.segments.items }
        ensures { IsGrown 2 self.old self.new store.old store.new }
    {
        self.grow(store);
        self.grow(store);
    }

    // Adds a chain, for which there is room.
    #[inline(never)]
    fn grow<R>(&mut self, store: &mut NodeStore<R>)
        requires chain { AreChainsOf self.old store.old }
        requires room { 0 < spare self.old.chains.segments.items }
        ensures { IsGrown 1 self.old self.new store.old store.new }
    {
        self.raise_level();
        if self.chains.is_empty() {
            self.chains.push_reserved(Head::none());
        } else {
            self.add_chain(store);
        }
    }

    // Doubles the level where there are twice as many chains, so that there are fewer than that again.
    fn raise_level(&mut self)
        ensures same { IsSame self.old self.new }
        ensures chains { self.new.chains ≡ self.old.chains }
        ensures level { self.new.chains.len < self.new.level * 2 }
    {
        if self.chains.len() == self.level * 2 {
            self.level *= 2;
        }
    }

    // Adds two chains, for which there is room, and which do not go past the level.
    fn add_two<R>(&mut self, store: &mut NodeStore<R>)
        requires chain { AreChainsOf self.old store.old }
        requires some { 0 < self.old.chains.len }
        requires room { 2 ≤ spare self.old.chains.segments.items }
        requires below { self.old.chains.len + 1 < self.old.level * 2 }
        ensures grown { IsGrown 2 self.old self.new store.old store.new }
        ensures level { self.new.level ≡ self.old.level }
    {
        self.add_chain(store);
        self.add_chain(store);
    }

    // Adds a chain, for which there is room, with the nodes that it takes over from the one `level` before it.
    #[inline(always)]
    fn add_chain<R>(&mut self, store: &mut NodeStore<R>)
        requires chain { AreChainsOf self.old store.old }
        requires some { 0 < self.old.chains.len }
        requires room { 0 < spare self.old.chains.segments.items }
        requires below { self.old.chains.len < self.old.level * 2 }
        ensures grown { IsGrown 1 self.old self.new store.old store.new }
        ensures level { self.new.level ≡ self.old.level }
    {
        let from = self.chains.len() - self.level;
        if self.chains.is_empty_at(from) {
            self.chains.push_reserved(Head::none());
        } else {
            self.hand_over(store, from);
        }
    }

    // The same where that one has nodes.
    #[inline(never)]
    fn hand_over<R>(&mut self, store: &mut NodeStore<R>, from: usize)
        requires chain { AreChainsOf self.old store.old }
        requires some { 0 < self.old.chains.len }
        requires room { 0 < spare self.old.chains.segments.items }
        requires below { self.old.chains.len < self.old.level * 2 }
        requires from { from ≡ self.old.chains.len - self.old.level }
        ensures grown { IsGrown 1 self.old self.new store.old store.new }
        ensures level { self.new.level ≡ self.old.level }
    {
        let head = self.chains.head(from);
        match head.alone() {
            Some(n) => self.hand_one(store, from, head, n),
            None => self.hand_many(store, from, head),
        }
    }

    // The same where it has one node: its hash says where that goes, and no link is written.
    fn hand_one<R>(&mut self, store: &NodeStore<R>, from: usize, head: Head, n: Node)
        requires chain { AreChainsOf self.old store.now }
        requires some { 0 < self.old.chains.len }
        requires room { 0 < spare self.old.chains.segments.items }
        requires below { self.old.chains.len < self.old.level * 2 }
        requires from { from ≡ self.old.chains.len - self.old.level }
        requires head { slice_get (all_of self.old) from ≡ Some head }
        requires alone { alone_in head ≡ Some n }
        ensures grown { IsGrown 1 self.old self.new store.now store.now }
        ensures level { self.new.level ≡ self.old.level }
    {
        if self.remainder(store.link(n, self.col).tag) == self.chains.len() {
            self.chains.set(from, Head::none());
            self.chains.push_reserved(head);
        } else {
            self.chains.push_reserved(Head::none());
        }
    }

    // The same for any nodes, which are linked anew.
    #[inline(never)]
    fn hand_many<R>(&mut self, store: &mut NodeStore<R>, from: usize, head: Head)
        requires chain { AreChainsOf self.old store.old }
        requires some { 0 < self.old.chains.len }
        requires room { 0 < spare self.old.chains.segments.items }
        requires below { self.old.chains.len < self.old.level * 2 }
        requires from { from ≡ self.old.chains.len - self.old.level }
        requires head { slice_get (all_of self.old) from ≡ Some head }
        ensures grown { IsGrown 1 self.old self.new store.old store.new }
        ensures level { self.new.level ≡ self.old.level }
    {
        let (stay, moved) = self.part(store, head);
        self.chains.set(from, stay);
        self.chains.push_reserved(moved);
    }

    // Parts the nodes of a chain: those that stay in it once there is one more, and those that go there.
    fn part<R>(&self, store: &mut NodeStore<R>, head: Head) -> (Head, Head)
        requires { Stands (age_of store.old) (column_of store.old) self.now head }
        ensures parted { IsParted (age_of store.old) (column_of store.old) (column_of store.new)
            self.now head result.0 result.1 }
        ensures others { KeepsOthers (column_of store.old) (column_of store.new)
            (col_of self.now) }
        ensures contents { contents store.new ≡ contents store.old }
    {
        let (stay, moved) = self.cut_links(store, head.node());
        let stay = self.head_of(store, stay.first);
        let moved = self.head_of(store, moved.first);
        (stay.cut_from(store, head), moved.cut_from(store, head))
    }

    // Cuts a chain in two, node by node.
    fn cut_links<R>(&self, store: &mut NodeStore<R>, at: Option<Node>) -> (Chain, Chain)
        requires ends { Ends (column_of store.old) self.now at }
        requires distinct { IsDistinct (rest_of (column_of store.old) self.now at) }
        ensures stay { Builds (age_of store.old) (column_of store.new (col_of self.now)) result.0
            (left (column_of store.old (col_of self.now)) self.now
            (rest_of (column_of store.old) self.now at)) }
        ensures moved { Builds (age_of store.old) (column_of store.new (col_of self.now)) result.1
            (taken (column_of store.old (col_of self.now)) self.now
            (rest_of (column_of store.old) self.now at)) }
        ensures stay_rising { IsRising (age_of store.old) (column_of store.new (col_of self.now))
            (left (column_of store.old (col_of self.now)) self.now
            (rest_of (column_of store.old) self.now at)) }
        ensures moved_rising { IsRising (age_of store.old) (column_of store.new (col_of self.now))
            (taken (column_of store.old (col_of self.now)) self.now
            (rest_of (column_of store.old) self.now at)) }
        ensures tags { KeepsTags (column_of store.old (col_of self.now))
            (column_of store.new (col_of self.now)) }
        ensures same { (m : Node) → Lacks (rest_of (column_of store.old) self.now at) m →
            column_of store.new (col_of self.now) m ≡ column_of store.old (col_of self.now) m }
        ensures others { KeepsOthers (column_of store.old) (column_of store.new)
            (col_of self.now) }
        ensures contents { contents store.new ≡ contents store.old }
    {
        let mut stay = Chain::new();
        let mut moved = Chain::new();
        let mut at = at;
        while let Some(n) = at {
            let link = store.link(n, self.col);
            at = link.b;
            if self.remainder(link.tag) == self.chains.len() {
                moved.append(store, self.col, n, link.tag);
            } else {
                stay.append(store, self.col, n, link.tag);
            }
        }
        stay.close(store, self.col);
        moved.close(store, self.col);
        (stay, moved)
    }
}
