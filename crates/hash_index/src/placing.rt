//! Places of nodes in chains, and which one is the last of a chain that rises.
ghost use Rattle.std.specs.Prelude.{◌≡◌, ◌+◌, ◌<◌, get_or, slice_get, option_and_then, Some, None};
ghost use Rattle.std.specs.Option.{is_some};
ghost use Rattle.node_store.specs.declared.Node.{Node};
ghost use Rattle.node_store.specs.Store.{age_of};
ghost use Rattle.node_store.specs.Column.{IsNode, KeepsOthers};
ghost use Rattle.node_store.specs.Nodes.{Lacks, first_or, last_or};
ghost use Rattle.node_store.specs.ByNode.{column_of, contents};
ghost use Rattle.seq_index.specs.Links.{AreNodes, Runs};
ghost use Rattle.hash_index.specs.Chains.{tag_at, untagged, KeepsTags, KeepsOtherNodes};
ghost use Rattle.hash_index.specs.Heads.{first_in};
ghost use Rattle.hash_index.specs.Rising.{Rises, IsBefore, IsBehind, IsLast, known_last, up_at, top_beside};
ghost use Rattle.hash_index.specs.Spelled.{col_of, all_of, heads_of, leads_to};
ghost use Rattle.hash_index.specs.Put.{CanPut, IsPut};
ghost use Rattle.hash_index.specs.Walks.{rest_of};

use crate::HashIndex;
use crate::chain::{set_next, set_prev, set_up};
use crate::head::Head;
use node_store::{Digest, Link, Node, NodeStore};

// How many nodes of a chain that rises are passed, from the last on, to put one behind another so that it still does.
const STEPS: usize = 8;

// The last node of the chain that begins with `first`, which has this link, where the chain is known to rise.
fn last_of(first: Node, link: Link) -> Option<Node>
    ensures { result ≡ known_last first link.b link.up }
{
    if link.b.is_some() {
        link.up
    } else {
        Some(first)
    }
}

impl HashIndex {
    // Puts `n` into the chain of a hash.
    pub(crate) fn put<R>(&mut self, store: &mut NodeStore<R>, n: Node, hash: u64)
        requires { CanPut self.old store.old n }
        ensures { IsPut self.old self.new store.old store.new n hash }
    {
        let chain = self.chain(hash);
        let head = self.chains.head(chain);
        match head.node() {
            Some(first) => self.put_beside(store, n, hash, head, first),
            None => self.put_first(store, n, hash, None),
        }
    }

    // Puts `n` into the chain of a hash that begins with `first`. Where the chain is known to rise, that is behind one of
    // the last few or before all, so that it still does. Else it is behind the first node, which so stays the oldest of
    // its hash if it is, and before that one only where `n` is older and has the same hash.
    fn put_beside<R>(
        &mut self,
        store: &mut NodeStore<R>,
        n: Node,
        hash: u64,
        head: Head,
        first: Node,
    )
        requires put { CanPut self.old store.old n }
        requires head { slice_get (all_of self.old) (leads_to self.old hash) ≡ Some head }
        requires first { first_in head ≡ Some first }
        ensures { IsPut self.old self.new store.old store.new n hash }
    {
        let link = store.link(first, self.col);
        let last = last_of(first, link);
        if store.age(first) < store.age(n) {
            let (at, up) = self.place(store, n, first, last);
            self.put_behind(store, n, hash, head, first, at, up);
        } else if last.is_some() || link.tag == hash {
            self.put_first(store, n, hash, last);
        } else {
            self.put_behind(store, n, hash, head, first, first, None);
        }
    }

    // The node behind which to put `n`, which was added after the first one of a chain, and what the first is to lead up to
    // then: where the chain is known to rise to `last`, one of the last few, so that it still rises, and else the first.
    fn place<R>(
        &self,
        store: &NodeStore<R>,
        n: Node,
        first: Node,
        last: Option<Node>,
    ) -> (Node, Option<Node>)
        requires node { IsNode (column_of store.now (col_of self.now)) n }
        requires new { Lacks (rest_of (column_of store.now) self.now (Some first)) n }
        requires first { first_or (rest_of (column_of store.now) self.now (Some first)) None ≡ Some first }
        requires runs { Runs (untagged (column_of store.now (col_of self.now))) None
            (rest_of (column_of store.now) self.now (Some first)) None }
        requires last { IsLast (age_of store.now) (rest_of (column_of store.now) self.now (Some first)) last }
        ensures { IsBehind (age_of store.now) (rest_of (column_of store.now) self.now (Some first)) result.0 n result.1 }
    {
        match last {
            Some(end) => self.place_near(store, n, first, end),
            None => (first, None),
        }
    }

    // The same where the chain rises to `end`.
    fn place_near<R>(
        &self,
        store: &NodeStore<R>,
        n: Node,
        first: Node,
        end: Node,
    ) -> (Node, Option<Node>)
        requires node { IsNode (column_of store.now (col_of self.now)) n }
        requires new { Lacks (rest_of (column_of store.now) self.now (Some first)) n }
        requires first { first_or (rest_of (column_of store.now) self.now (Some first)) None ≡ Some first }
        requires runs { Runs (untagged (column_of store.now (col_of self.now))) None
            (rest_of (column_of store.now) self.now (Some first)) None }
        requires last { last_or (rest_of (column_of store.now) self.now (Some first)) None ≡ Some end }
        requires rises { Rises (age_of store.now) (rest_of (column_of store.now) self.now (Some first)) }
        ensures { IsBehind (age_of store.now) (rest_of (column_of store.now) self.now (Some first)) result.0 n result.1 }
    {
        let age = store.age(n);
        let mut steps = STEPS;
        let mut top = n;
        let mut at = Some(end);
        while let Some(m) = at {
            if store.age(m) < age {
                return (m, Some(top));
            }
            if steps == 0 {
                break;
            }
            steps -= 1;
            top = end;
            at = store.link(m, self.col).a;
        }
        (first, None)
    }

    // Puts `n` first into the chain of a hash, and makes it lead up to `up`.
    fn put_first<R>(&mut self, store: &mut NodeStore<R>, n: Node, hash: u64, up: Option<Node>)
        requires put { CanPut self.old store.old n }
        requires up { IsBefore (age_of store.old) (rest_of (column_of store.old) self.old
            (get_or (heads_of self.old) (leads_to self.old hash) None)) n up }
        ensures { IsPut self.old self.new store.old store.new n hash }
    {
        let chain = self.chain(hash);
        let head = self.chains.get(chain);
        let link = Link {
            a: None,
            b: head,
            up,
            tag: hash,
            height: 0,
            digest: Digest::ZERO,
        };
        store.set_link(n, self.col, link);
        set_prev(store, self.col, head, Some(n));
        self.chains.set(chain, Head::of(n, hash, head.is_some()));
        self.len += 1;
    }

    // Puts `n` behind the node `at` of the chain of a hash, and makes the first node lead up to `up`.
    fn put_behind<R>(
        &mut self,
        store: &mut NodeStore<R>,
        n: Node,
        hash: u64,
        head: Head,
        first: Node,
        at: Node,
        up: Option<Node>,
    )
        requires put { CanPut self.old store.old n }
        requires head { slice_get (all_of self.old) (leads_to self.old hash) ≡ Some head }
        requires first { first_in head ≡ Some first }
        requires at { IsBehind (age_of store.old) (rest_of (column_of store.old) self.old (Some first)) at n up }
        requires later { tag_at (column_of store.old (col_of self.old)) first ≡ Some hash →
            age_of store.old first < age_of store.old n }
        ensures { IsPut self.old self.new store.old store.new n hash }
    {
        let chain = self.chain(hash);
        let after = store.link(at, self.col).b;
        let between = Link {
            a: Some(at),
            b: after,
            up: None,
            tag: hash,
            height: 0,
            digest: Digest::ZERO,
        };
        store.set_link(n, self.col, between);
        set_next(store, self.col, Some(at), Some(n));
        set_prev(store, self.col, after, Some(n));
        set_up(store, self.col, Some(first), up);
        self.chains.set(chain, head.joined());
        self.len += 1;
    }

    // Says at the first node of a chain which one is the last, once the node between two neighbours has gone, whose link
    // led up to `up`.
    pub(crate) fn set_top<R>(
        &self,
        store: &mut NodeStore<R>,
        before: Option<Node>,
        first: Option<Node>,
        after: Option<Node>,
        up: Option<Node>,
    )
        requires { AreNodes (column_of store.old (col_of self.now)) first }
        ensures up { (m : Node) → first ≡ Some m →
            up_at (column_of store.new (col_of self.now)) m ≡
            top_beside before after up (up_at (column_of store.old (col_of self.now)) m) }
        ensures links { (m : Node) → untagged (column_of store.new (col_of self.now)) m ≡
            untagged (column_of store.old (col_of self.now)) m }
        ensures tags { KeepsTags (column_of store.old (col_of self.now))
            (column_of store.new (col_of self.now)) }
        ensures same { KeepsOtherNodes (column_of store.old (col_of self.now))
            (column_of store.new (col_of self.now)) first }
        ensures others { KeepsOthers (column_of store.old) (column_of store.new)
            (col_of self.now) }
        ensures contents { contents store.new ≡ contents store.old }
    {
        if before.is_none() {
            set_up(store, self.col, first, up);
        } else if after.is_none() && self.rises(store, first) {
            set_up(store, self.col, first, before);
        }
    }

    // Whether the chain that begins with this node is known to rise.
    pub(crate) fn rises<R>(&self, store: &NodeStore<R>, first: Option<Node>) -> bool
        requires { AreNodes (column_of store.now (col_of self.now)) first }
        ensures { result ≡ is_some (option_and_then
            (up_at (column_of store.now (col_of self.now))) first) }
    {
        match first {
            Some(n) => store.link(n, self.col).up.is_some(),
            None => false,
        }
    }
}
