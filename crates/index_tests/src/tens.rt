//! Numbers by their tens.

use key_extract::Extract;
use std::cmp::Ordering;

/// The first so many indices go by the tens of numbers, and the others have no key. Three tens in turn have one hash.
#[derive(Clone, Copy, Drop)]
pub(crate) struct Tens {
    pub(crate) keyed: usize,
}

impl Extract<u64> for Tens {
    ghost use Rattle.std.specs.Prelude.{true, ◌/◌, refl};
    ghost use Rattle.std.proofs.Common.{ap, ◌∙◌};
    ghost use Rattle.std.specs.Ordering.{nat_cmp};
    ghost use Rattle.std.proofs.lemmas.Cmp.{nat_cmp_total, on_total, tied_back};
    ghost use Rattle.std.proofs.lemmas.Map.Lookups.{exact_unsigned};
    ghost use Rattle.key_extract.specs.Laws.{cuts_at};
    ghost use Rattle.index_tests.specs.Tens.{has_tens, by_tens, hash_of_tens};
    ghost use Rattle.key_extract.specs.Digests.{one_orders, one_cuts};

    type Probe = u64;

    ghost has_key = { has_tens };

    ghost does_fit = { λ keys index probe. true };

    ghost is_whole = { λ keys index probe. true };

    ghost order_of = { λ keys index. by_tens };

    ghost probe_order_of = { λ keys index a probe. by_tens a probe };

    ghost hash_of = { λ keys index a. hash_of_tens a };

    ghost probe_hash_of = { λ keys index probe. hash_of_tens probe };

    ghost digest_of = { λ keys index a. 0 };

    ghost probe_digest_of = { λ keys index probe. 0 };

    fn has(&self, index: usize) -> bool {
        index < self.keyed
    }

    fn fits(&self, _index: usize, _probe: &u64) -> bool {
        true
    }

    fn whole(&self, _index: usize, _probe: &u64) -> bool {
        true
    }

    fn order(&self, _index: usize, a: &u64, b: &u64) -> Ordering {
        (*a / 10).cmp(&(*b / 10))
    }

    fn order_probe(&self, _index: usize, a: &u64, probe: &u64) -> Ordering {
        (*a / 10).cmp(&(*probe / 10))
    }

    fn same(&self, _index: usize, a: &u64, b: &u64) -> bool {
        *a / 10 == *b / 10
    }

    fn hash(&self, _index: usize, a: &u64) -> u64 {
        *a / 10 / 3
    }

    fn hash_probe(&self, _index: usize, probe: &u64) -> u64 {
        *probe / 10 / 3
    }

    fn digest(&self, _index: usize, _a: &u64) -> u64 {
        0
    }

    fn digest_probe(&self, _index: usize, _probe: &u64) -> u64 {
        0
    }

    ghost order_total = { λ keys index has. on_total (λ a. a / 10) nat_cmp_total };

    ghost probe_cuts = { λ keys index probe has fits x y h. cuts_at nat_cmp_total (probe / 10) (x / 10) (y / 10) h };

    ghost whole_fits = { λ keys index probe has whole. whole };

    ghost whole_is_one_key = { λ keys index probe has whole a b e f. nat_cmp_total.congr (a / 10) (probe / 10) (b / 10) e ∙ tied_back nat_cmp_total (b / 10) (probe / 10) f };

    ghost same_hash = { λ keys index a b has e. ap (λ ten. ten / 3) (exact_unsigned (a / 10) (b / 10) e) };

    ghost whole_hash = { λ keys index a probe has whole e. ap (λ ten. ten / 3) (exact_unsigned (a / 10) (probe / 10) e) };

    ghost digest_order = { λ keys index has. one_orders (by_tens) 0 };

    ghost probe_digest_order = { λ keys index probe has fits. one_cuts (λ a. by_tens a probe) 0 };

    ghost one_digest = { λ keys other index at same. refl };
}
