//! The keys of records with handles: each is a row with its handle, and its keys are the row's.

use container_model::Entry;
use key_extract::Extract;
use std::cmp::Ordering;

/// The keys of rows, as keys of rows with their handles.
#[derive(Drop)]
pub struct ByRow<E> {
    /// The keys of the rows.
    pub keys: E,
}

impl<R, E: Extract<R>> Extract<Entry<R>> for ByRow<E> {
    ghost use Rattle.std.proofs.lemmas.Cmp.{on_total};
    ghost use Rattle.key_extract.specs.Digests.{cuts_on};
    ghost use Rattle.container_model.specs.declared.handle.Entry.{Entry};
    ghost use Rattle.index_set.specs.ByRow.{unnamed};

    type Probe = E::Probe;

    ghost has_key = { λ by index. E.has_key by.keys index };

    ghost does_fit = { λ by index probe. E.does_fit by.keys index probe };

    ghost is_whole = { λ by index probe. E.is_whole by.keys index probe };

    ghost order_of = { λ by index a b. E.order_of by.keys index a.row b.row };

    ghost probe_order_of = { λ by index a probe. E.probe_order_of by.keys index a.row probe };

    ghost hash_of = { λ by index a. E.hash_of by.keys index a.row };

    ghost probe_hash_of = { λ by index probe. E.probe_hash_of by.keys index probe };

    ghost digest_of = { λ by index a. E.digest_of by.keys index a.row };

    ghost probe_digest_of = { λ by index probe. E.probe_digest_of by.keys index probe };

    fn has(&self, index: usize) -> bool {
        self.keys.has(index)
    }

    fn fits(&self, index: usize, probe: &E::Probe) -> bool {
        self.keys.fits(index, probe)
    }

    fn whole(&self, index: usize, probe: &E::Probe) -> bool {
        self.keys.whole(index, probe)
    }

    fn order(&self, index: usize, a: &Entry<R>, b: &Entry<R>) -> Ordering {
        self.keys.order(index, &a.row, &b.row)
    }

    fn order_probe(&self, index: usize, a: &Entry<R>, probe: &E::Probe) -> Ordering {
        self.keys.order_probe(index, &a.row, probe)
    }

    fn same(&self, index: usize, a: &Entry<R>, b: &Entry<R>) -> bool {
        self.keys.same(index, &a.row, &b.row)
    }

    fn hash(&self, index: usize, a: &Entry<R>) -> u64 {
        self.keys.hash(index, &a.row)
    }

    fn hash_probe(&self, index: usize, probe: &E::Probe) -> u64 {
        self.keys.hash_probe(index, probe)
    }

    fn digest(&self, index: usize, a: &Entry<R>) -> u64 {
        self.keys.digest(index, &a.row)
    }

    fn digest_probe(&self, index: usize, probe: &E::Probe) -> u64 {
        self.keys.digest_probe(index, probe)
    }

    ghost order_total = { λ by index has. on_total (λ (e : Entry R). e.row) (E.order_total by.keys index has) };

    ghost probe_cuts = { λ by index probe has fits a b. E.probe_cuts by.keys index probe has fits a.row b.row };

    ghost whole_fits = { λ by index probe. E.whole_fits by.keys index probe };

    ghost whole_is_one_key = { λ by index probe has whole a b. E.whole_is_one_key by.keys index probe has whole a.row b.row };

    ghost same_hash = { λ by index a b. E.same_hash by.keys index a.row b.row };

    ghost whole_hash = { λ by index a probe. E.whole_hash by.keys index a.row probe };

    ghost digest_order = { λ by index has a b. E.digest_order by.keys index has a.row b.row };

    ghost probe_digest_order = { λ by index probe has fits. cuts_on (λ (e : Entry R). e.row) (E.probe_digest_order by.keys index probe has fits) };

    ghost one_digest = { λ by other index at same. λ i a. E.one_digest by.keys other.keys index at (λ j r t. same j (unnamed r) (unnamed t)) i a.row };
}
