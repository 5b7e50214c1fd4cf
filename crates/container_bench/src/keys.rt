//! The keys of records.
ghost use Rattle.std.specs.Prelude.{◌≡◌, ◌++◌, ◌∷◌, [], IfOk, length, take};
ghost use Rattle.container_bench.specs.Keys.{has_key, is_key, key_at, numbers, pair_cmp};

use crate::record::Record;
use key_extract::{Extract, count_digest};
use std::alloc::AllocError;
use std::cmp::Ordering;
use std::marker::Model;

/// What an index compares.
#[derive(Clone, Copy)]
pub enum Key {
    Nothing,
    Id,
    Price,
    Owner,
    /// The owner, and of one owner's records the greatest price first.
    OwnerAndPrice,
}

impl Key {
    /// The numbers that the key has in a record.
    pub(crate) fn numbers(self, row: &Record) -> (u64, u64)
        ensures { result ≡ numbers self row.now }
    {
        match self {
            Key::Nothing => (0, 0),
            Key::Id => (row.id, 0),
            Key::Price => (row.price, 0),
            Key::Owner => (row.owner, 0),
            Key::OwnerAndPrice => (row.owner, u64::MAX - row.price),
        }
    }

    fn is_some(self) -> bool
        ensures { result ≡ is_key self }
    {
        !matches!(self, Key::Nothing)
    }
}

fn compare(a: (u64, u64), b: (u64, u64)) -> Ordering
    ensures { result ≡ pair_cmp a b }
{
    match a.0.cmp(&b.0) {
        Ordering::Equal => a.1.cmp(&b.1),
        order => order,
    }
}

/// The keys of the indices.
#[derive(Drop)]
pub struct Keys {
    keys: Vec<Key>,
}

impl Model for Keys {
    ghost use Rattle.std.specs.Prelude.{List};
    ghost use Rattle.container_bench.specs.declared.keys.Key.{Key as AKey};

    ghost Value = { List AKey };

    ghost view = { λ k. k.keys.items };
}

impl Keys {
    pub(crate) fn new(keys: Vec<Key>) -> Keys
        ensures { result ≡ keys.items }
    {
        Keys { keys }
    }

    /// These keys and that of one index more, the last.
    pub(crate) fn with(&self, key: Key) -> Result<Keys, AllocError>
        ensures { IfOk result (λ made. made ≡ self.now ++ key ∷ []) }
    {
        let mut keys = self.keys.to_vec(*self.keys.allocator())?;
        keys.push(key)?;
        Ok(Keys { keys })
    }

    /// The first so many of these keys.
    pub(crate) fn of_first(&self, count: usize) -> Result<Keys, AllocError>
        ensures { IfOk result (λ made. made ≡ take count self.now) }
    {
        let mut keys = self.keys.to_vec(*self.keys.allocator())?;
        keys.truncate(count);
        Ok(Keys { keys })
    }

    /// How many these are.
    pub(crate) fn len(&self) -> usize
        ensures { result ≡ length self.now }
    {
        self.keys.len()
    }

    fn at(&self, index: usize) -> Key
        ensures { result ≡ key_at self.now index }
    {
        if index < self.keys.len() {
            self.keys[index]
        } else {
            Key::Nothing
        }
    }

    fn has_key(&self, index: usize) -> bool
        ensures { result ≡ has_key self.now index }
    {
        self.at(index).is_some()
    }

    fn numbers_at(&self, index: usize, row: &Record) -> (u64, u64)
        ensures { result ≡ numbers (key_at self.now index) row.now }
    {
        self.at(index).numbers(row)
    }
}

impl Extract<Record> for Keys {
    ghost use Rattle.std.specs.Prelude.{true, refl};
    ghost use Rattle.std.proofs.Common.{◌∙◌};
    ghost use Rattle.std.proofs.lemmas.Cmp.{on_total, tied_back};
    ghost use Rattle.key_extract.specs.Laws.{cuts_at};
    ghost use Rattle.container_bench.specs.Keys.{has_key, key_at, numbers, pair_cmp};
    ghost use Rattle.container_bench.specs.Pairs.{pairs_total, same_first};
    ghost use Rattle.key_extract.specs.KeyDigests.{count_digest};
    ghost use Rattle.container_bench.specs.Digests.{digest_by, digests_order, digests_cut, one_digest};

    type Probe = (u64, u64);

    ghost has_key = { has_key };

    ghost does_fit = { λ keys index probe. true };

    ghost is_whole = { λ keys index probe. true };

    ghost order_of = { λ keys index a b. pair_cmp (numbers (key_at keys index) a) (numbers (key_at keys index) b) };

    ghost probe_order_of = { λ keys index a probe. pair_cmp (numbers (key_at keys index) a) probe };

    ghost hash_of = { λ keys index a. (numbers (key_at keys index) a).0 };

    ghost probe_hash_of = { λ keys index probe. probe.0 };

    ghost digest_of = { λ keys index. digest_by (key_at keys index) };

    ghost probe_digest_of = { λ keys index probe. count_digest probe.0 };

    fn has(&self, index: usize) -> bool {
        self.has_key(index)
    }

    fn fits(&self, _index: usize, _probe: &(u64, u64)) -> bool {
        true
    }

    fn whole(&self, _index: usize, _probe: &(u64, u64)) -> bool {
        true
    }

    fn order(&self, index: usize, a: &Record, b: &Record) -> Ordering {
        compare(self.numbers_at(index, a), self.numbers_at(index, b))
    }

    fn order_probe(&self, index: usize, a: &Record, probe: &(u64, u64)) -> Ordering {
        compare(self.numbers_at(index, a), *probe)
    }

    fn same(&self, index: usize, a: &Record, b: &Record) -> bool {
        compare(self.numbers_at(index, a), self.numbers_at(index, b)).is_eq()
    }

    fn hash(&self, index: usize, a: &Record) -> u64 {
        self.numbers_at(index, a).0
    }

    fn hash_probe(&self, _index: usize, probe: &(u64, u64)) -> u64 {
        probe.0
    }

    fn digest(&self, index: usize, a: &Record) -> u64 {
        count_digest(self.numbers_at(index, a).0)
    }

    fn digest_probe(&self, _index: usize, probe: &(u64, u64)) -> u64 {
        count_digest(probe.0)
    }

    ghost order_total = { λ keys index has. on_total (numbers (key_at keys index)) pairs_total };

    ghost probe_cuts = { λ keys index probe has fits a b. cuts_at pairs_total probe (numbers (key_at keys index) a) (numbers (key_at keys index) b) };

    ghost whole_fits = { λ keys index probe has whole. whole };

    ghost whole_is_one_key = { λ keys index probe has whole a b e f. pairs_total.congr (numbers (key_at keys index) a) probe (numbers (key_at keys index) b) e ∙ tied_back pairs_total (numbers (key_at keys index) b) probe f };

    ghost same_hash = { λ keys index a b has e. same_first (numbers (key_at keys index) a) (numbers (key_at keys index) b) e };

    ghost whole_hash = { λ keys index a probe has whole e. same_first (numbers (key_at keys index) a) probe e };

    ghost digest_order = { λ keys index has. digests_order (key_at keys index) };

    ghost probe_digest_order = { λ keys index probe has fits. digests_cut (key_at keys index) probe };

    ghost one_digest = { λ keys other index at. one_digest (key_at other at) (key_at keys index) };
}
