//! One index more, and one less.
ghost use Rattle.std.specs.Prelude.{◌≡◌, ◌+◌, ◌<◌, ℕ, IfErr, None, OnErr, OnOk, Some, length};
ghost use Rattle.container_model.specs.Indices.{clash, with_index, without_index};
ghost use Rattle.linked_set.specs.Asked.{HasKeysWith, HasKeysWithout};
ghost use Rattle.linked_set.specs.Records.{alone, state_of};
ghost use Rattle.linked_set.specs.Refusal.{IsRefusal};

use crate::index_changes::{add_index, check_index, drop_index};
use crate::linked_set::LinkedSet;
use container_model::{Refused, Spec, Why};
use index_set::ByRow;
use key_extract::Extract;

impl<R: Drop, E: Extract<R> + Drop> LinkedSet<R, E> {
    /// Adds an index, the last, which has all records: in a sequence in the order of their insertion, and so those of one key
    /// in an index in order. From now on the keys are the given ones. Where the index is unique and two records have one key,
    /// or where memory is refused, the keys are handed back, and nothing is changed. It copies no record. It takes memory for
    /// a node for each record, and what the index itself takes. O(n log n), and expected O(n) in buckets or a sequence.
    pub fn add_index(&mut self, spec: Spec, keys: E) -> Result<(), Refused<E>>
        requires room { length self.old.specs < self.old.most }
        requires keys { HasKeysWith E.has_key E.order_of E.hash_of (alone self.old) spec keys }
        ensures no_clash { OnOk result (clash E.order_of (alone self.old) spec keys ≡ None) }
        ensures ok { (max writes : ℕ) → OnOk result (state_of self.new max (writes + 1) ≡
            with_index E.order_of (state_of self.old max writes) spec keys) }
        ensures added { self.new.added ≡ self.old.added }
        ensures why { IfErr result
            (λ refused. IsRefusal (clash E.order_of (alone self.old) spec keys) refused.why) }
        ensures handed_back { IfErr result (λ refused. refused.row ≡ Some keys) }
        ensures unchanged { OnErr result (self.new ≡ self.old) }
    {
        add_index(self.alloc, &mut self.set, &self.slots, spec, keys)
    }

    /// Why such an index may not be added, as `add_index` tells it, and the keys; nothing changes. It takes the memory and
    /// the time that adding it takes.
    pub fn check_index(&mut self, spec: Spec, keys: E) -> (Result<(), Why>, E)
        requires room { length self.old.specs < self.old.most }
        requires keys { HasKeysWith E.has_key E.order_of E.hash_of (alone self.old) spec keys }
        ensures no_clash { OnOk result.0 (clash E.order_of (alone self.old) spec keys ≡ None) }
        ensures why { IfErr result.0 (IsRefusal (clash E.order_of (alone self.old) spec keys)) }
        ensures keys { result.1 ≡ keys }
        ensures unchanged { self.new ≡ self.old }
    {
        let keys = ByRow { keys };
        let why = check_index(self.alloc, &mut self.set, &self.slots, spec, &keys);
        (why, keys.keys)
    }

    /// Drops one of several indices; those after it move up by one. From now on the keys are the given ones. It takes no
    /// memory. O(records) for an index with places or buckets, and O(indices) otherwise.
    pub fn drop_index(&mut self, index: usize, keys: E)
        requires several { 1 < length self.old.specs }
        requires keys { HasKeysWithout E.has_key E.order_of E.hash_of (alone self.old) index keys }
        ensures left { (max writes : ℕ) → state_of self.new max (writes + 1) ≡
            without_index (state_of self.old max writes) index keys }
        ensures added { self.new.added ≡ self.old.added }
    {
        drop_index(&mut self.set, &self.slots, index, keys);
    }
}
