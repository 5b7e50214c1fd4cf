//! An index by itself: its store, its keys, and the calls that ask for no more.
ghost use Rattle.std.specs.Prelude.{◌≡◌, ◌<◌, IsTrue, Some};
ghost use Rattle.node_store.specs.declared.Node.{Node};
ghost use Rattle.node_store.specs.Store.{IsNodeOf};
ghost use Rattle.container_model.specs.State.{has_key_kind};
ghost use Rattle.any_index.specs.Spelled.{HasRoom, Holds, index_of};
ghost use Rattle.any_index.specs.Stored.{IsFiled, IsIn, nodes_of};
ghost use Rattle.index_tests.specs.Lone.{IsLone};

use any_index::AnyIndex;
use container_model::Kind;
use key_extract::Extract;
use node_store::{Node, NodeStore};
use rank_tree::{nth_counted, rank_counted};
use std::alloc::Global;
use std::marker::Model;

/// A search that counts its comparisons.
#[derive(Clone, Copy)]
pub(crate) enum Search {
    Find,
    Lower,
    Upper,
}

impl Search {
    /// Each of them.
    pub(crate) const EACH: [Search; 3] = [Search::Find, Search::Lower, Search::Upper];
}

/// Records under one index.
#[derive(Drop)]
pub(crate) struct Lone<R: Drop, E: Extract<R> + Drop> {
    store: NodeStore<R>,
    index: AnyIndex,
    number: usize,
    keys: E,
}

impl<R: Drop, E: Extract<R> + Drop> Model for Lone<R, E> {
    ghost use Rattle.std.specs.Prelude.{◌≡◌, ℕ};
    ghost use Rattle.any_index.specs.Spelled.{index_of};
    ghost use Rattle.index_tests.specs.Lone.{IsLone};

    ghost Value = { ℕ };

    ghost view = { λ l. 0 };

    ghost invariant = { λ l. IsLone E.Extract l.store l.index l.keys × (index_of l.index ≡ l.number) };
}

// Makes room for one more node. Answers whether there was memory for it.
fn make_room<R, E: Extract<R>>(store: &mut NodeStore<R>, index: &mut AnyIndex, _keys: &E) -> bool
    requires { IsLone E.Extract store.old index.old _keys.now }
    ensures lone { IsLone E.Extract store.new index.new _keys.now }
    ensures number { index_of index.new ≡ index_of index.old }
    ensures room { IsTrue result → HasRoom index.new }
{
    index.reserve_one(store).is_ok()
}

// Adds the value and puts it in.
fn enter_new<R: Drop, E: Extract<R>>(
    store: &mut NodeStore<R>,
    index: &mut AnyIndex,
    keys: &E,
    value: R,
) -> Option<()>
    requires { IsLone E.Extract store.old index.old keys.now }
    ensures lone { IsLone E.Extract store.new index.new keys.now }
    ensures number { index_of index.new ≡ index_of index.old }
{
    if !make_room(store, index, keys) || store.added() == u64::MAX {
        return None;
    }
    let Ok(n) = store.add(value) else {
        return None;
    };
    index.enter(store, keys, n, None, None);
    Some(())
}

// The node at a place of a ranked tree.
fn nth<R>(store: &NodeStore<R>, index: &AnyIndex, place: u64) -> Option<Node>
    requires { IsIn index.now store.now }
    ensures { (n : Node) → result ≡ Some n → Holds (nodes_of index.now store.now) n }
{
    match index {
        AnyIndex::Ranked(tree) => rank_tree::nth(tree, store, place),
        _ => None,
    }
}

// Takes the node at a place of a ranked tree out. Answers whether there was one.
fn leave_at<R, E: Extract<R>>(
    store: &mut NodeStore<R>,
    index: &mut AnyIndex,
    keys: &E,
    place: u64,
) -> bool
    requires { IsLone E.Extract store.old index.old keys.now }
    ensures lone { IsLone E.Extract store.new index.new keys.now }
    ensures number { index_of index.new ≡ index_of index.old }
{
    let Some(n) = nth(store, index, place) else {
        return false;
    };
    index.leave(store, n);
    true
}

// What a search in a tree finds, and the comparisons that it says.
fn searched<R, E: Extract<R>>(
    search: Search,
    store: &NodeStore<R>,
    index: &AnyIndex,
    keys: &E,
    probe: &E::Probe,
) -> Option<(Option<Node>, u64)>
    requires filed { IsFiled E.Extract index.now store.now keys.now }
    requires fits { IsTrue (E.does_fit keys.now (index_of index.now) probe.now) }
{
    match index {
        AnyIndex::Ordered(tree) => Some(match search {
            Search::Find => tree.find_counted(store, keys, probe),
            Search::Lower => tree.lower_counted(store, keys, probe),
            Search::Upper => tree.upper_counted(store, keys, probe),
        }),
        AnyIndex::Ranked(tree) => Some(match search {
            Search::Find => tree.find_counted(store, keys, probe),
            Search::Lower => tree.lower_counted(store, keys, probe),
            Search::Upper => tree.upper_counted(store, keys, probe),
        }),
        _ => None,
    }
}

// The node at a place of a ranked tree, and how many links lead there, and how many lead back to the place that it has.
fn linked<R>(store: &NodeStore<R>, index: &AnyIndex, place: u64) -> (Option<Node>, u64, (u64, u64))
    requires { IsIn index.now store.now }
    ensures { (n : Node) → result.0 ≡ Some n → IsNodeOf store.now n }
{
    let AnyIndex::Ranked(tree) = index else {
        return (None, 0, (0, 0));
    };
    let (found, down) = nth_counted(tree, store, place);
    match found {
        Some(n) => (Some(n), down, rank_counted(tree, store, n)),
        None => (None, down, (0, 0)),
    }
}

impl<R: Drop, E: Extract<R> + Drop> Lone<R, E> {
    /// No records under the index of this number, if it has a key. Its column is behind so many others.
    pub(crate) fn new(
        alloc: Global,
        kind: Kind,
        column: usize,
        number: usize,
        keys: E,
    ) -> Option<Lone<R, E>>
        requires kind { IsTrue (has_key_kind kind) }
        requires column { column < 8 }
    {
        if !keys.has(number) {
            return None;
        }
        Some(Lone {
            store: NodeStore::new(alloc, column + 1),
            index: AnyIndex::new(alloc, kind, column, number),
            number,
            keys,
        })
    }

    pub(crate) fn keys(&self) -> &E {
        &self.keys
    }

    /// Puts the values in, the last one first.
    pub(crate) fn fill(&mut self, mut values: Vec<R>) -> Option<()> {
        for _ in 0..values.len() {
            let Some(value) = values.pop() else {
                return Some(());
            };
            self.insert(value)?;
        }
        Some(())
    }

    fn insert(&mut self, value: R) -> Option<()> {
        enter_new(&mut self.store, &mut self.index, &self.keys, value)
    }

    /// Takes the node at a place out. Answers whether there was one.
    pub(crate) fn leave_at(&mut self, place: u64) -> bool {
        leave_at(&mut self.store, &mut self.index, &self.keys, place)
    }

    /// What a search finds, and the comparisons that it says, where the index is a tree and the probe fits it.
    pub(crate) fn searched(&self, search: Search, probe: &E::Probe) -> Option<(Option<Node>, u64)> {
        if !self.keys.has(self.number) || !self.keys.fits(self.number, probe) {
            return None;
        }
        searched(search, &self.store, &self.index, &self.keys, probe)
    }

    /// The age of the node at a place, and how many links lead there, where as many lead back to the place.
    pub(crate) fn links_to(&self, place: u64) -> Option<(u64, u64)> {
        let (found, down, (rank, up)) = linked(&self.store, &self.index, place);
        let n = found?;
        if rank != place || up != down {
            return None;
        }
        Some((self.store.age(n), down))
    }

    /// How many links are followed to a place that no node has.
    pub(crate) fn links_beyond(&self, place: u64) -> Option<u64> {
        match linked(&self.store, &self.index, place) {
            (None, links, _) => Some(links),
            _ => None,
        }
    }
}
