//! A thousand numbers in four orders, and their own order with a count of the comparisons that searches make.

use key_extract::Extract;
use std::alloc::Global;
use std::cell::Cell;
use std::cmp::Ordering;

/// The order of numbers, with a count of the comparisons with a probe.
#[derive(Drop)]
pub(crate) struct Numbers {
    compared: Cell<u64>,
}

impl Numbers {
    /// With no comparison counted.
    pub(crate) fn new() -> Numbers {
        Numbers {
            compared: Cell::new(0),
        }
    }

    /// Begins to count again.
    pub(crate) fn restart(&self) {
        self.compared.set(0);
    }

    /// The comparisons with a probe since then.
    pub(crate) fn compared(&self) -> u64 {
        self.compared.get()
    }
}

impl Extract<u64> for Numbers {
    ghost use Rattle.std.specs.Prelude.{true, refl};
    ghost use Rattle.std.proofs.Common.{◌∙◌};
    ghost use Rattle.std.specs.Ordering.{nat_cmp};
    ghost use Rattle.std.proofs.lemmas.Cmp.{nat_cmp_total, tied_back};
    ghost use Rattle.key_extract.specs.Laws.{cuts_at};
    ghost use Rattle.key_extract.specs.Digests.{one_orders, one_cuts};

    type Probe = u64;

    ghost has_key = { λ keys index. true };

    ghost does_fit = { λ keys index probe. true };

    ghost is_whole = { λ keys index probe. true };

    ghost order_of = { λ keys index. nat_cmp };

    ghost probe_order_of = { λ keys index a probe. nat_cmp a probe };

    ghost hash_of = { λ keys index a. 0 };

    ghost probe_hash_of = { λ keys index probe. 0 };

    ghost digest_of = { λ keys index a. 0 };

    ghost probe_digest_of = { λ keys index probe. 0 };

    fn has(&self, _index: usize) -> bool {
        true
    }

    fn fits(&self, _index: usize, _probe: &u64) -> bool {
        true
    }

    fn whole(&self, _index: usize, _probe: &u64) -> bool {
        true
    }

    fn order(&self, _index: usize, a: &u64, b: &u64) -> Ordering {
        a.cmp(b)
    }

    fn order_probe(&self, _index: usize, a: &u64, probe: &u64) -> Ordering {
        self.compared.set(self.compared.get().wrapping_add(1));
        a.cmp(probe)
    }

    fn same(&self, _index: usize, a: &u64, b: &u64) -> bool {
        a.cmp(b).is_eq()
    }

    fn hash(&self, _index: usize, _a: &u64) -> u64 {
        0
    }

    fn hash_probe(&self, _index: usize, _probe: &u64) -> u64 {
        0
    }

    fn digest(&self, _index: usize, _a: &u64) -> u64 {
        0
    }

    fn digest_probe(&self, _index: usize, _probe: &u64) -> u64 {
        0
    }

    ghost order_total = { λ keys index has. nat_cmp_total };

    ghost probe_cuts = { λ keys index probe has fits. cuts_at nat_cmp_total probe };

    ghost whole_fits = { λ keys index probe has whole. whole };

    ghost whole_is_one_key = { λ keys index probe has whole a b e f. nat_cmp_total.congr a probe b e ∙ tied_back nat_cmp_total b probe f };

    ghost same_hash = { λ keys index a b has e. refl };

    ghost whole_hash = { λ keys index a probe has whole e. refl };

    ghost digest_order = { λ keys index has. one_orders (nat_cmp) 0 };

    ghost probe_digest_order = { λ keys index probe has fits. one_cuts (λ a. nat_cmp a probe) 0 };

    ghost one_digest = { λ keys other index at same. refl };
}

/// Where a thousand numbers are put in, as they come.
#[derive(Clone, Copy)]
pub(crate) enum End {
    Front,
    Back,
    /// At both by turns.
    Both,
    /// In the middle.
    Middle,
}

impl End {
    /// Each of them.
    pub(crate) const EACH: [End; 4] = [End::Front, End::Back, End::Both, End::Middle];

    // The number that comes once so many have come.
    fn number(self, before: u16) -> u16 {
        match self {
            End::Front => 999u16.saturating_sub(before),
            End::Back => before,
            End::Both => in_turns(before),
            End::Middle => in_turns(999u16.saturating_sub(before)),
        }
    }
}

// 500, 499, 501, 498 and so on.
fn in_turns(before: u16) -> u16 {
    let half = before / 2;
    if before % 2 == 0 {
        half.saturating_add(500)
    } else {
        499u16.saturating_sub(half)
    }
}

/// The numbers below 1,000, the one that comes first last.
pub(crate) fn a_thousand(end: End, alloc: Global) -> Option<Vec<u16>> {
    let mut numbers = Vec::new(alloc);
    for k in 0..1000u16 {
        numbers.push(end.number(999u16.saturating_sub(k))).ok()?;
    }
    Some(numbers)
}
