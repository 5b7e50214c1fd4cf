//! Orders and their keys.
ghost use Rattle.std.specs.Prelude.{◌≡◌};
ghost use Rattle.embedded.specs.Fields.{field_of};

use key_extract::{Extract, count_digest};
use std::cmp::Ordering;

/// An order in a book.
#[derive(Clone, Copy, Debug, PartialEq, Eq)]
pub struct Order {
    /// Its number.
    pub id: u64,
    /// What it bids.
    pub price: u64,
    /// Whose it is.
    pub owner: u64,
}

/// The keys of orders: at index 0 the number, at 1 the price, at each later one the owner.
#[derive(Clone, Copy)]
pub struct Fields;

// The key at an index.
fn field(index: usize, order: &Order) -> u64
    ensures { result ≡ field_of index order.now }
{
    match index {
        0 => order.id,
        1 => order.price,
        _ => order.owner,
    }
}

impl Extract<Order> for Fields {
    ghost use Rattle.std.specs.Prelude.{true, refl};
    ghost use Rattle.std.proofs.Common.{◌∙◌};
    ghost use Rattle.std.specs.Ordering.{nat_cmp};
    ghost use Rattle.std.proofs.lemmas.Cmp.{nat_cmp_total, on_total, tied_back};
    ghost use Rattle.std.proofs.lemmas.Map.Lookups.{exact_unsigned};
    ghost use Rattle.key_extract.specs.Laws.{cuts_at};
    ghost use Rattle.embedded.specs.Fields.{field_of, by_field, to_field};
    ghost use Rattle.key_extract.specs.KeyDigests.{count_digest};
    ghost use Rattle.key_extract.specs.DigestLaws.{counts_order, counts_cut};
    ghost use Rattle.embedded.specs.Digests.{digest_by, one_digest};

    type Probe = u64;

    ghost has_key = { λ keys index. true };

    ghost does_fit = { λ keys index probe. true };

    ghost is_whole = { λ keys index probe. true };

    ghost order_of = { by_field };

    ghost probe_order_of = { to_field };

    ghost hash_of = { λ keys. field_of };

    ghost probe_hash_of = { λ keys index probe. probe };

    ghost digest_of = { digest_by };

    ghost probe_digest_of = { λ keys index probe. count_digest probe };

    fn has(&self, _index: usize) -> bool {
        true
    }

    fn fits(&self, _index: usize, _probe: &u64) -> bool {
        true
    }

    fn whole(&self, _index: usize, _probe: &u64) -> bool {
        true
    }

    fn order(&self, index: usize, a: &Order, b: &Order) -> Ordering {
        field(index, a).cmp(&field(index, b))
    }

    fn order_probe(&self, index: usize, a: &Order, probe: &u64) -> Ordering {
        field(index, a).cmp(probe)
    }

    fn same(&self, index: usize, a: &Order, b: &Order) -> bool {
        field(index, a).cmp(&field(index, b)).is_eq()
    }

    fn hash(&self, index: usize, a: &Order) -> u64 {
        field(index, a)
    }

    fn hash_probe(&self, _index: usize, probe: &u64) -> u64 {
        *probe
    }

    fn digest(&self, index: usize, a: &Order) -> u64 {
        count_digest(field(index, a))
    }

    fn digest_probe(&self, _index: usize, probe: &u64) -> u64 {
        count_digest(*probe)
    }

    ghost order_total = { λ keys index has. on_total (field_of index) nat_cmp_total };

    ghost probe_cuts = { λ keys index probe has fits a b. cuts_at nat_cmp_total probe (field_of index a) (field_of index b) };

    ghost whole_fits = { λ keys index probe has whole. whole };

    ghost whole_is_one_key = { λ keys index probe has whole a b e f. nat_cmp_total.congr (field_of index a) probe (field_of index b) e ∙ tied_back nat_cmp_total (field_of index b) probe f };

    ghost same_hash = { λ keys index a b has e. exact_unsigned (field_of index a) (field_of index b) e };

    ghost whole_hash = { λ keys index a probe has whole e. exact_unsigned (field_of index a) probe e };

    ghost digest_order = { λ keys index has. counts_order (field_of index) };

    ghost probe_digest_order = { λ keys index probe has fits. counts_cut (field_of index) probe };

    ghost one_digest = { one_digest };
}
