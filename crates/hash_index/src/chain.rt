//! Writes of the links of a chain.
ghost use Rattle.std.specs.Prelude.{◌≡◌, ◌≢◌, ℕ, ◌<◌, nat_lt, true, List, [], ◌∷◌, ◌++◌, Some, None};
ghost use Rattle.std.specs.Option.{option_map_or};
ghost use Rattle.node_store.specs.Store.{IsNodeOf, age_of};
ghost use Rattle.node_store.specs.declared.Node.{Node};
ghost use Rattle.node_store.specs.Nodes.{IsDistinct};
ghost use Rattle.node_store.specs.ByNode.{column_of, contents};
ghost use Rattle.node_store.specs.Column.{KeepsOthers, KeepsNodes, IsNode, Column};
ghost use Rattle.seq_index.specs.Links.{AreNodes, AreNodesOf, SetsNext, SetsPrev, end_beside};
ghost use Rattle.hash_index.specs.Chains.{untagged, tag_at, KeepsTags, KeepsOtherNodes};
ghost use Rattle.hash_index.specs.Rising.{up_at, KeepsUps, IsRising};
ghost use Rattle.hash_index.specs.Split.{Builds};

use node_store::{Digest, Link, Node, NodeStore};

// Makes `next` follow the node `at`, if there is one.
pub(crate) fn set_next<R>(
    store: &mut NodeStore<R>,
    col: usize,
    at: Option<Node>,
    next: Option<Node>,
)
    requires { AreNodes (column_of store.old col) at }
    ensures ends { SetsNext (untagged (column_of store.old col))
        (untagged (column_of store.new col)) at next }
    ensures tags { KeepsTags (column_of store.old col) (column_of store.new col) }
    ensures ups { KeepsUps (column_of store.old col) (column_of store.new col) }
    ensures same { KeepsOtherNodes (column_of store.old col) (column_of store.new col) at }
    ensures others { KeepsOthers (column_of store.old) (column_of store.new) col }
    ensures contents { contents store.new ≡ contents store.old }
{
    if let Some(m) = at {
        let link = store.link(m, col);
        store.set_link(m, col, Link { b: next, ..link });
    }
}

// Makes the node `at`, if there is one, follow `prev`.
pub(crate) fn set_prev<R>(
    store: &mut NodeStore<R>,
    col: usize,
    at: Option<Node>,
    prev: Option<Node>,
)
    requires { AreNodes (column_of store.old col) at }
    ensures ends { SetsPrev (untagged (column_of store.old col))
        (untagged (column_of store.new col)) at prev }
    ensures tags { KeepsTags (column_of store.old col) (column_of store.new col) }
    ensures ups { KeepsUps (column_of store.old col) (column_of store.new col) }
    ensures same { KeepsOtherNodes (column_of store.old col) (column_of store.new col) at }
    ensures others { KeepsOthers (column_of store.old) (column_of store.new) col }
    ensures contents { contents store.new ≡ contents store.old }
{
    if let Some(m) = at {
        let link = store.link(m, col);
        store.set_link(m, col, Link { a: prev, ..link });
    }
}

// Makes the link of the node `at`, if there is one, lead up to `up`.
pub(crate) fn set_up<R>(store: &mut NodeStore<R>, col: usize, at: Option<Node>, up: Option<Node>)
    requires { AreNodes (column_of store.old col) at }
    ensures up { (m : Node) → at ≡ Some m → up_at (column_of store.new col) m ≡ up }
    ensures links { (m : Node) → untagged (column_of store.new col) m ≡ untagged (column_of store.old col) m }
    ensures tags { KeepsTags (column_of store.old col) (column_of store.new col) }
    ensures same { KeepsOtherNodes (column_of store.old col) (column_of store.new col) at }
    ensures nodes { KeepsNodes (column_of store.old col) (column_of store.new col) }
    ensures others { KeepsOthers (column_of store.old) (column_of store.new) col }
    ensures contents { contents store.new ≡ contents store.old }
{
    if let Some(m) = at {
        let link = store.link(m, col);
        store.set_link(m, col, Link { up, ..link });
    }
}

// Whether a node was added after the last one, if there is one.
fn is_after<R>(store: &NodeStore<R>, last: Option<Node>, n: Node) -> bool
    requires last { AreNodesOf store.now last }
    requires node { IsNodeOf store.now n }
    ensures { result ≡ option_map_or (λ m. nat_lt (age_of store.now m) (age_of store.now n)) last true }
{
    match last {
        Some(m) => store.age(m) < store.age(n),
        None => true,
    }
}

// The first node of a chain once the one between two neighbours has gone.
pub(crate) fn first_beside(
    before: Option<Node>,
    first: Option<Node>,
    after: Option<Node>,
) -> Option<Node>
    ensures { result ≡ end_beside before first after }
{
    if before.is_some() { first } else { after }
}

// The ends of a chain that is made node by node, and whether its nodes stand in the order in which they were added.
#[derive(Clone, Copy)]
pub(crate) struct Chain {
    pub(crate) first: Option<Node>,
    last: Option<Node>,
    rises: bool,
}

impl Chain {
    // A chain of no nodes.
    pub(crate) fn new() -> Chain
        ensures { (ages : Node → ℕ) (c : Column) → Builds ages c result [] }
    {
        Chain {
            first: None,
            last: None,
            rises: true,
        }
    }

    // Puts `n` last, which keeps its hash.
    pub(crate) fn append<R>(&mut self, store: &mut NodeStore<R>, col: usize, n: Node, hash: u64)
        requires node { IsNode (column_of store.old col) n }
        requires last { AreNodes (column_of store.old col) self.old.last }
        requires hash { tag_at (column_of store.old col) n ≡ Some hash }
        ensures builds { (xs : List Node) → IsDistinct (xs ++ n ∷ []) →
            Builds (age_of store.old) (column_of store.old col) self.old xs →
            Builds (age_of store.old) (column_of store.new col) self.new (xs ++ n ∷ []) }
        ensures tags { KeepsTags (column_of store.old col) (column_of store.new col) }
        ensures same { (m : Node) → m ≢ n → self.old.last ≢ Some m →
            column_of store.new col m ≡ column_of store.old col m }
        ensures nodes { KeepsNodes (column_of store.old col) (column_of store.new col) }
        ensures others { KeepsOthers (column_of store.old) (column_of store.new) col }
        ensures contents { contents store.new ≡ contents store.old }
    {
        let rises = self.rises && is_after(store, self.last, n);
        let link = Link {
            a: self.last,
            b: None,
            up: None,
            tag: hash,
            height: 0,
            digest: Digest::ZERO,
        };
        store.set_link(n, col, link);
        set_next(store, col, self.last, Some(n));
        self.first = first_beside(self.last, self.first, Some(n));
        self.rises = rises;
        self.last = Some(n);
    }

    // Makes the first node of a chain that rises lead up to the last.
    pub(crate) fn close<R>(&self, store: &mut NodeStore<R>, col: usize)
        requires { AreNodes (column_of store.old col) self.now.first }
        ensures rising { (xs : List Node) → Builds (age_of store.old) (column_of store.old col) self.now xs →
            IsRising (age_of store.old) (column_of store.new col) xs }
        ensures links { (m : Node) → untagged (column_of store.new col) m ≡
            untagged (column_of store.old col) m }
        ensures tags { KeepsTags (column_of store.old col) (column_of store.new col) }
        ensures same { KeepsOtherNodes (column_of store.old col) (column_of store.new col)
            self.now.first }
        ensures nodes { KeepsNodes (column_of store.old col) (column_of store.new col) }
        ensures others { KeepsOthers (column_of store.old) (column_of store.new) col }
        ensures contents { contents store.new ≡ contents store.old }
    {
        let up = if self.rises { self.last } else { None };
        set_up(store, col, self.first, up);
    }
}
