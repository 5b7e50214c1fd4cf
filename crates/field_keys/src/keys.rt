//! The keys of a record's indices.
ghost use Rattle.std.specs.Prelude.{◌≡◌, map};
ghost use Rattle.field_keys.specs.Fields.{part_of};
ghost use Rattle.field_keys.specs.Indices.{declared_keys};
ghost use Rattle.field_keys.specs.Values.{key_at};

use crate::compare::{compare_records, compare_search};
use crate::field::Fields;
use crate::hash::{hash_record, hash_values};
use crate::index::Index;
use crate::part::KeyPart;
use crate::search::Search;
use crate::source::Source;
use key_extract::Extract;
use std::cmp::Ordering;
use std::marker::Model;

/// The keys of indices, in index order: records compare by the first part at which they differ. An index whose key has no part
/// has no key.
#[derive(Drop)]
pub struct FieldKeys {
    source: Source,
}

impl Model for FieldKeys {
    ghost use Rattle.std.specs.Prelude.{List};
    ghost use Rattle.key_extract.specs.declared.key.Part.{Part};
    ghost use Rattle.field_keys.specs.Indices.{keys_in};

    ghost Value = { List (List Part) };

    ghost view = { λ k. keys_in k.source };
}

impl FieldKeys {
    /// The keys of a table, one for each index. O(1).
    pub fn new(keys: &'static [&'static [KeyPart]]) -> FieldKeys
        ensures { result ≡ map (λ key. map part_of key.now) keys.now }
    {
        FieldKeys {
            source: Source::Keys(keys),
        }
    }

    /// The keys of declared indices. O(1).
    pub fn declared(indices: &'static [Index]) -> FieldKeys
        ensures { result ≡ declared_keys indices.now }
    {
        FieldKeys {
            source: Source::Declared(indices),
        }
    }

    // The parts of the index's key.
    fn parts(&self, index: usize) -> &[KeyPart]
        ensures { map part_of result.now ≡ key_at self.now index }
    {
        self.source.parts(index)
    }
}

impl<R: Fields> Extract<R> for FieldKeys {
    ghost use Rattle.std.specs.Prelude.{true, length, nat_le, not, refl};
    ghost use Rattle.std.proofs.lemmas.Cmp.{on_total};
    ghost use Rattle.key_extract.specs.Keys.{key_cmp, probe_cmp};
    ghost use Rattle.key_extract.specs.Laws.{keys_total, probe_cuts as probe_cuts_rows, whole_is_one, same_rows_hash, whole_rows_hash};
    ghost use Rattle.key_extract.specs.Hashes.{row_hash, probe_hash};
    ghost use Rattle.field_keys.specs.Values.{key_at};
    ghost use Rattle.field_keys.specs.Sought.{sought, whole_length};
    ghost use Rattle.key_extract.specs.Digests.{one_orders, one_cuts};

    type Probe = Search;

    ghost has_key = { λ keys index. nat_le 1 (length (key_at keys index)) };

    ghost does_fit = { λ keys index probe. true };

    ghost is_whole = { λ keys index probe. not probe.leading };

    ghost order_of = { λ keys index a b. key_cmp (key_at keys index) (R.row_of a) (R.row_of b) };

    ghost probe_order_of = { λ keys index a probe. probe_cmp (key_at keys index) (R.row_of a) (sought (key_at keys index) probe) };

    ghost hash_of = { λ keys index a. row_hash (key_at keys index) (R.row_of a) };

    ghost probe_hash_of = { λ keys index probe. probe_hash (sought (key_at keys index) probe) };

    ghost digest_of = { λ keys index a. 0 };

    ghost probe_digest_of = { λ keys index probe. 0 };

    fn has(&self, index: usize) -> bool {
        1 <= self.parts(index).len()
    }

    fn fits(&self, _index: usize, _probe: &Search) -> bool {
        true
    }

    fn whole(&self, _index: usize, probe: &Search) -> bool {
        !probe.is_leading()
    }

    fn order(&self, index: usize, a: &R, b: &R) -> Ordering {
        compare_records(self.parts(index), a, b)
    }

    fn order_probe(&self, index: usize, a: &R, probe: &Search) -> Ordering {
        compare_search(self.parts(index), a, probe)
    }

    fn same(&self, index: usize, a: &R, b: &R) -> bool {
        compare_records(self.parts(index), a, b).is_eq()
    }

    fn hash(&self, index: usize, a: &R) -> u64 {
        hash_record(self.parts(index), a)
    }

    fn hash_probe(&self, index: usize, probe: &Search) -> u64 {
        hash_values(self.parts(index), probe.values())
    }

    fn digest(&self, _index: usize, _a: &R) -> u64 {
        0
    }

    fn digest_probe(&self, _index: usize, _probe: &Search) -> u64 {
        0
    }

    ghost order_total = { λ keys index has. on_total R.row_of (keys_total (key_at keys index)) };

    ghost probe_cuts = { λ keys index probe has fits a b. probe_cuts_rows (key_at keys index) (sought (key_at keys index) probe) (R.row_of a) (R.row_of b) };

    ghost whole_fits = { λ keys index probe has whole. refl };

    ghost whole_is_one_key = { λ keys index probe has whole a b. whole_is_one (key_at keys index) (sought (key_at keys index) probe) (whole_length (key_at keys index) probe whole) (R.row_of a) (R.row_of b) };

    ghost same_hash = { λ keys index a b has same. same_rows_hash (key_at keys index) (R.row_of a) (R.row_of b) same };

    ghost whole_hash = { λ keys index a probe has whole same. whole_rows_hash (key_at keys index) (R.row_of a) (sought (key_at keys index) probe) (whole_length (key_at keys index) probe whole) same };

    ghost digest_order = { λ keys index has. one_orders (λ a b. key_cmp (key_at keys index) (R.row_of a) (R.row_of b)) 0 };

    ghost probe_digest_order = { λ keys index probe has fits. one_cuts (λ a. probe_cmp (key_at keys index) (R.row_of a) (sought (key_at keys index) probe)) 0 };

    ghost one_digest = { λ keys other index at same. refl };
}
