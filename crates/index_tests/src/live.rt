//! Numbers in a set whose indices come and go.
ghost use Rattle.std.specs.Prelude.{◌≡◌, ◌≤◌, ◌<◌, ◌+◌, ◌++◌, ◌∷◌, [], false, not, length, remove, IsTrue, IfSome, IfOk};
ghost use Rattle.container_model.specs.State.{KeysMatch, has_key_kind, is_hashed_kind};
ghost use Rattle.container_model.specs.declared.handle.Kind.TheVariants.{Ordered};
ghost use Rattle.index_set.specs.Set.{specs_of, kind_at, store_of};
ghost use Rattle.index_tests.specs.Tens.{has_tens, CauseNodes, IsLive};

use crate::set::insert;
use crate::tens::Tens;
use container_model::{Kind, Spec};
use index_set::{IndexSet, NoIndex, Nodes};
use node_store::Node;
use std::alloc::{AllocError, Global};

/// Three numbers under the indices of a set, in the order in which they came.
#[derive(Drop)]
pub(crate) struct Live {
    pub(crate) set: IndexSet<u64, Tens>,
    pub(crate) nodes: [Node; 3],
}

/// Why an index was not added, with the ages of nodes.
#[derive(Clone, Copy)]
pub(crate) enum Refusal {
    Columns,
    Clash { first: u64, second: u64 },
    Memory,
}

/// The ages of the nodes that a walk meets.
pub(crate) type Walk = [Option<u64>; 3];

// An index in order, which may have two nodes of one key.
fn in_order(alloc: Global) -> Result<Vec<Spec>, AllocError>
    ensures { IfOk result (λ made. made.items ≡ record { kind = Ordered; unique = false } ∷ []) }
{
    let mut specs = Vec::new(alloc);
    specs.push(Spec {
        kind: Kind::Ordered,
        unique: false,
    })?;
    Ok(specs)
}

// Whether an index of the kind compares records.
fn has_key(kind: Kind) -> bool
    ensures { result ≡ has_key_kind kind }
{
    matches!(kind, Kind::Ordered | Kind::Ranked | Kind::Hashed)
}

impl Live {
    /// Three numbers under an index in order, in a set with room for so many indices, one to eight.
    pub(crate) fn new(alloc: Global, numbers: [u64; 3], columns: usize) -> Option<Live>
        requires some { 1 ≤ columns }
        requires most { columns ≤ 8 }
        ensures { IfSome result (λ made. IsLive made.set made.nodes) }
    {
        let Ok(specs) = in_order(alloc) else {
            return None;
        };
        let Ok(made) = IndexSet::new(alloc, specs, Tens { keyed: 1 }, columns) else {
            return None;
        };
        let mut set = made;
        let [a, b, c] = numbers;
        let first = insert(&mut set, a)?;
        let second = insert(&mut set, b)?;
        let third = insert(&mut set, c)?;
        let nodes = [first, second, third];
        Some(Live { set, nodes })
    }

    // The keys that there are with such an index more, where those that have a key stand before the others.
    fn keys_with(&self, spec: Spec) -> Option<Tens>
        requires { IsLive self.now.set self.now.nodes }
        ensures keys { IfSome result (λ keys. KeysMatch (has_tens keys)
            (specs_of self.now.set ++ spec ∷ [])) }
        ensures few { IfSome result (λ keys. keys.keyed ≤ length (specs_of self.now.set) + 1) }
    {
        let keyed = self.set.keys().keyed;
        if has_key(spec.kind) {
            if keyed == self.set.specs().len() {
                return Some(Tens { keyed: keyed + 1 });
            }
            return None;
        }
        if spec.unique {
            return None;
        }
        Some(Tens { keyed })
    }

    // The cause, with the ages of its nodes.
    fn told(&self, why: NoIndex) -> Refusal
        requires { CauseNodes (store_of self.now.set) why }
    {
        match why {
            NoIndex::Columns => Refusal::Columns,
            NoIndex::Clash { first, second } => {
                let store = self.set.store();
                let (first, second) = (store.age(first), store.age(second));
                Refusal::Clash { first, second }
            }
            NoIndex::Memory => Refusal::Memory,
        }
    }

    /// Adds an index, and tells why not; none where no set may have such an index.
    pub(crate) fn add(&mut self, spec: Spec) -> Option<Result<(), Refusal>>
        requires { IsLive self.old.set self.old.nodes }
        ensures { IsLive self.new.set self.new.nodes }
    {
        let keys = self.keys_with(spec)?;
        match self.set.add_index(spec, keys, &self.nodes) {
            Ok(()) => Some(Ok(())),
            Err(refused) => Some(Err(self.told(refused.why))),
        }
    }

    /// Tells the same, and adds none.
    pub(crate) fn check(&mut self, spec: Spec) -> Option<Result<(), Refusal>>
        requires { IsLive self.old.set self.old.nodes }
        ensures { IsLive self.new.set self.new.nodes }
    {
        let keys = self.keys_with(spec)?;
        match self.set.check_index(spec, &keys, &self.nodes) {
            Ok(()) => Some(Ok(())),
            Err(why) => Some(Err(self.told(why))),
        }
    }

    // The keys that are left where an index goes.
    fn keys_without(&self, index: usize) -> Tens
        requires live { IsLive self.now.set self.now.nodes }
        requires index { index < length (specs_of self.now.set) }
        ensures keys { KeysMatch (has_tens result) (remove (specs_of self.now.set) index) }
        ensures few { result.keyed + 1 ≤ length (specs_of self.now.set) }
    {
        let keyed = self.set.keys().keyed;
        if index < keyed {
            Tens { keyed: keyed - 1 }
        } else {
            Tens { keyed }
        }
    }

    /// Drops an index, if it is one of several.
    pub(crate) fn drop_index(&mut self, index: usize) -> Option<()>
        requires { IsLive self.old.set self.old.nodes }
        ensures { IsLive self.new.set self.new.nodes }
    {
        let count = self.set.specs().len();
        if index >= count || count < 2 {
            return None;
        }
        let keys = self.keys_without(index);
        self.set.drop_index(index, keys);
        Some(())
    }

    // Whether there is such an index, and it has an order.
    fn has_walk(&self, index: usize) -> bool
        ensures index { IsTrue result → index < length (specs_of self.now.set) }
        ensures kind { IsTrue result → IsTrue (not (is_hashed_kind (kind_at self.now.set index))) }
    {
        index < self.set.specs().len() && self.set.specs()[index].kind != Kind::Hashed
    }

    /// The ages of the index's nodes in its order, if it has one.
    pub(crate) fn walk(&self, index: usize) -> Option<Walk>
        requires { IsLive self.now.set self.now.nodes }
    {
        if !self.has_walk(index) {
            return None;
        }
        let mut walked = [None; 3];
        let order = self.set.at(index);
        let mut at = order.first();
        for place in 0..3usize {
            let Some(n) = at else {
                return Some(walked);
            };
            walked[place] = Some(self.set.store().age(n));
            at = order.next(n);
        }
        Some(walked)
    }

    /// The age of the index's first node of this ten, if it has a key and such a node.
    pub(crate) fn find(&self, index: usize, number: u64) -> Option<u64>
        requires { IsLive self.now.set self.now.nodes }
    {
        if index >= self.set.keys().keyed {
            return None;
        }
        let found = self.set.at(index).find(&number)?;
        Some(self.set.store().age(found))
    }
}
