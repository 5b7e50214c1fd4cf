//! A record comes into a set of two kinds of index, is found in each, changes and goes.
ghost use Rattle.std.specs.Prelude.{◌≡◌, ◌<◌, IfOk, IfSome, None};
ghost use Rattle.node_store.specs.Store.{IsNodeOf};
ghost use Rattle.index_set.specs.Set.{specs_of, store_of, IsOfSame, IsSound};
ghost use Rattle.index_set.specs.Writes.{IsPut};
ghost use Rattle.index_tests.specs.Pairs.{ordered_and_hashed, IsPair};

use container_model::{Entry, Handle, Kind, Spec};
use index_set::{ByRow, IndexSet, Nodes, RowEdit};
use key_extract::Extract;
use node_store::Node;
use std::alloc::{AllocError, Global};
use std::cmp::Ordering;

/// Numbers that all have one key at each index.
#[derive(Drop)]
struct OneKey;

impl Extract<u64> for OneKey {
    ghost use Rattle.std.specs.Prelude.{refl, true};
    ghost use Rattle.std.proofs.Math.Nat.{le_refl};
    ghost use Rattle.std.specs.Ordering.{ordering_index};
    ghost use Rattle.std.specs.declared.cmp.Ordering.TheVariants.{Equal};
    ghost use Rattle.key_extract.specs.Digests.{one_orders, one_cuts};

    type Probe = ();

    ghost has_key = { λ keys index. true };

    ghost does_fit = { λ keys index probe. true };

    ghost is_whole = { λ keys index probe. true };

    ghost order_of = { λ keys index a b. Equal };

    ghost probe_order_of = { λ keys index a probe. Equal };

    ghost hash_of = { λ keys index a. 0 };

    ghost probe_hash_of = { λ keys index probe. 0 };

    ghost digest_of = { λ keys index a. 0 };

    ghost probe_digest_of = { λ keys index probe. 0 };

    fn has(&self, _index: usize) -> bool {
        true
    }

    fn fits(&self, _index: usize, _probe: &()) -> bool {
        true
    }

    fn whole(&self, _index: usize, _probe: &()) -> bool {
        true
    }

    fn order(&self, _index: usize, _a: &u64, _b: &u64) -> Ordering {
        Ordering::Equal
    }

    fn order_probe(&self, _index: usize, _a: &u64, _probe: &()) -> Ordering {
        Ordering::Equal
    }

    fn same(&self, _index: usize, _a: &u64, _b: &u64) -> bool {
        true
    }

    fn hash(&self, _index: usize, _a: &u64) -> u64 {
        0
    }

    fn hash_probe(&self, _index: usize, _probe: &()) -> u64 {
        0
    }

    fn digest(&self, _index: usize, _a: &u64) -> u64 {
        0
    }

    fn digest_probe(&self, _index: usize, _probe: &()) -> u64 {
        0
    }

    ghost order_total = { λ keys index has. record { antisymm = λ x y. refl; trans = λ x y z a b. a; congr = λ x y z e. refl } };

    ghost probe_cuts = { λ keys index probe has fits x y h. le_refl (ordering_index Equal) };

    ghost whole_fits = { λ keys index probe has whole. whole };

    ghost whole_is_one_key = { λ keys index probe has whole a b e f. refl };

    ghost same_hash = { λ keys index a b has e. refl };

    ghost whole_hash = { λ keys index a probe has whole e. refl };

    ghost digest_order = { λ keys index has. one_orders (λ a b. Equal) 0 };

    ghost probe_digest_order = { λ keys index probe has fits. one_cuts (λ a. Equal) 0 };

    ghost one_digest = { λ keys other index at same. refl };
}

// Puts a record into each index, unless a unique one has its key.
pub(crate) fn insert<R: Drop, E: Extract<R>>(set: &mut IndexSet<R, E>, value: R) -> Option<Node>
    requires { (store_of set.old).added < 1000 }
    ensures put { IfSome result (λ n. IsPut E.order_of set.old set.new n value None) }
    ensures sound { IfSome result (λ n. IsSound E.has_key set.new) }
{
    let Ok(_) = set.free_place(&value) else {
        return None;
    };
    set.put(value, None, None).ok()
}

// Gives a node another record, unless a unique index has its key at another node. Answers whether it did.
fn rewrite<R: Drop, E: Extract<R>>(set: &mut IndexSet<R, E>, n: Node, value: R) -> bool
    requires node { IsNodeOf (store_of set.old) n }
    requires sound { IsSound E.has_key set.old }
    ensures same { IsOfSame set.old set.new }
    ensures node { IsNodeOf (store_of set.new) n }
    ensures sound { IsSound E.has_key set.new }
{
    match set.bans(&value, n) {
        Some(_) => false,
        None => {
            set.replace(n, value);
            true
        }
    }
}

// Gives a node another row, and its own again. Answers whether no other record has the key of either.
fn rewrite_and_undo(set: &mut IndexSet<Entry<u64>, ByRow<OneKey>>, n: Node, row: u64) -> bool
    requires { IsPair set.old n }
    ensures { IsPair set.new n }
{
    let mut edit = RowEdit::new(row);
    set.modify_or_undo(n, &mut edit, false).is_none()
}

// An index in order, and a hashed one without two records of one key.
fn two_indices(alloc: Global) -> Result<Vec<Spec>, AllocError>
    ensures { IfOk result (λ made. made.items ≡ ordered_and_hashed) }
{
    let mut specs = Vec::new(alloc);
    specs.push(Spec {
        kind: Kind::Ordered,
        unique: false,
    })?;
    specs.push(Spec {
        kind: Kind::Hashed,
        unique: true,
    })?;
    Ok(specs)
}

// A record of this row.
fn entry(row: u64) -> Entry<u64> {
    let handle = Handle { slot: 0, stamp: 0 };
    Entry { handle, row }
}

// Whether the first node of the key is this one in each index.
fn finds(set: &IndexSet<Entry<u64>, ByRow<OneKey>>, n: Node) -> bool
    requires { IsPair set.now n }
{
    let store = set.store();
    store.is_node(set.at(0).find(&()), n) && store.is_node(set.at(1).find(&()), n)
}

// Whether some node of the key is this one in each index.
fn finds_any(set: &IndexSet<Entry<u64>, ByRow<OneKey>>, n: Node) -> bool
    requires { IsPair set.now n }
{
    let store = set.store();
    store.is_node(set.at(0).find_any(&()), n) && store.is_node(set.at(1).find_any(&()), n)
}

// Whether no index has a node of the key.
fn finds_none(set: &IndexSet<Entry<u64>, ByRow<OneKey>>) -> bool
    requires { specs_of set.now ≡ ordered_and_hashed }
{
    set.at(0).find_any(&()).is_none() && set.at(1).find_any(&()).is_none()
}

// Whether the record is another one after a change, and still that one after a change that was undone.
fn changes(set: &mut IndexSet<Entry<u64>, ByRow<OneKey>>, n: Node) -> bool
    requires { IsPair set.old n }
    ensures { IsPair set.new n }
{
    rewrite(set, n, entry(8)) && rewrite_and_undo(set, n, 9) && set.store().get(n).row == 8
}

// Whether nothing is found once the set is emptied, though one record was added.
fn is_emptied(set: &mut IndexSet<Entry<u64>, ByRow<OneKey>>) -> bool
    requires { specs_of set.old ≡ ordered_and_hashed }
{
    set.clear();
    finds_none(set) && set.store().len() == 0 && set.store().added() == 1
}

/// Whether a number that was put in is found at its key in each index, also once it is another of that key, and once a change
/// was undone, until the set is emptied.
pub(crate) fn script(alloc: Global) -> Option<bool> {
    let Ok(specs) = two_indices(alloc) else {
        return None;
    };
    let keys = ByRow { keys: OneKey };
    let Ok(made) = IndexSet::new(alloc, specs, keys, 2) else {
        return None;
    };
    let mut set = made;
    let n = insert(&mut set, entry(7))?;
    let is_found = finds(&set, n);
    let is_changed = changes(&mut set, n);
    let is_found_again = finds_any(&set, n);
    let one = set.specs().len() == 2 && set.store().len() == 1;
    Some(is_found && is_changed && is_found_again && one && is_emptied(&mut set))
}
