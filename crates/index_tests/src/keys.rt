//! Records with a key, their order, and their hashes.

use key_extract::Extract;
use std::cmp::Ordering;

/// A record of a key and what else it has.
#[derive(Drop)]
pub(crate) struct Keyed<T> {
    pub(crate) key: u64,
    pub(crate) rest: T,
}

/// Orders such records by their keys, the same way at each index. Three keys in turn have one hash, so buckets have
/// chains.
pub(crate) struct ByKey;

impl<T> Extract<Keyed<T>> for ByKey {
    ghost use Rattle.std.specs.Prelude.{true, refl, ◌/◌};
    ghost use Rattle.std.proofs.Common.{ap, ◌∙◌};
    ghost use Rattle.std.specs.Ordering.{nat_cmp};
    ghost use Rattle.std.proofs.lemmas.Cmp.{nat_cmp_total, on_total, tied_back};
    ghost use Rattle.std.proofs.lemmas.Map.Lookups.{exact_unsigned};
    ghost use Rattle.key_extract.specs.Laws.{cuts_at};
    ghost use Rattle.index_tests.specs.Keys.{by_key};
    ghost use Rattle.key_extract.specs.Digests.{one_orders, one_cuts};

    type Probe = u64;

    ghost has_key = { λ keys index. true };

    ghost does_fit = { λ keys index probe. true };

    ghost is_whole = { λ keys index probe. true };

    ghost order_of = { λ keys index. by_key };

    ghost probe_order_of = { λ keys index a probe. nat_cmp a.key probe };

    ghost hash_of = { λ keys index a. a.key / 3 };

    ghost probe_hash_of = { λ keys index probe. probe / 3 };

    ghost digest_of = { λ keys index a. 0 };

    ghost probe_digest_of = { λ keys index probe. 0 };

    fn has(&self, _index: usize) -> bool {
        true
    }

    fn fits(&self, _index: usize, _probe: &u64) -> bool {
        true
    }

    fn whole(&self, _index: usize, _probe: &u64) -> bool {
        true
    }

    fn order(&self, _index: usize, a: &Keyed<T>, b: &Keyed<T>) -> Ordering {
        a.key.cmp(&b.key)
    }

    fn order_probe(&self, _index: usize, a: &Keyed<T>, probe: &u64) -> Ordering {
        a.key.cmp(probe)
    }

    fn same(&self, _index: usize, a: &Keyed<T>, b: &Keyed<T>) -> bool {
        a.key.cmp(&b.key).is_eq()
    }

    fn hash(&self, _index: usize, a: &Keyed<T>) -> u64 {
        a.key / 3
    }

    fn hash_probe(&self, _index: usize, probe: &u64) -> u64 {
        *probe / 3
    }

    fn digest(&self, _index: usize, _a: &Keyed<T>) -> u64 {
        0
    }

    fn digest_probe(&self, _index: usize, _probe: &u64) -> u64 {
        0
    }

    ghost order_total = { λ keys index has. on_total (λ a. a.key) nat_cmp_total };

    ghost probe_cuts = { λ keys index probe has fits x y h. cuts_at nat_cmp_total probe x.key y.key h };

    ghost whole_fits = { λ keys index probe has whole. whole };

    ghost whole_is_one_key = { λ keys index probe has whole a b e f. nat_cmp_total.congr a.key probe b.key e ∙ tied_back nat_cmp_total b.key probe f };

    ghost same_hash = { λ keys index a b has e. ap (λ key. key / 3) (exact_unsigned a.key b.key e) };

    ghost whole_hash = { λ keys index a probe has whole e. ap (λ key. key / 3) (exact_unsigned a.key probe e) };

    ghost digest_order = { λ keys index has. one_orders (by_key) 0 };

    ghost probe_digest_order = { λ keys index probe has fits. one_cuts (λ a. nat_cmp a.key probe) 0 };

    ghost one_digest = { λ keys other index at same. refl };
}
