//! One index more.
ghost use Rattle.std.specs.Prelude.{◌≡◌, ◌<◌, ◌⊎◌, IsTrue, None, Some, IfErr, OnErr, OnOk, length};
ghost use Rattle.container_model.specs.Change.{spent as the_spent};
ghost use Rattle.container_model.specs.Indices.{add_index_refusal, with_index};
ghost use Rattle.linked_set.specs.Asked.{HasKeysWith};
ghost use Rattle.linked_set.specs.Rearranged.{is_after_memory};

use crate::container::MultiIndex;
use container_model::{Refused, Spec, Why};
use key_extract::Extract;

impl<R: Drop, E: Extract<R> + Drop> MultiIndex<R, E> {
    /// Adds an index, the last, which has all records: in a sequence or a hashed index by rising stamp, and in one in order
    /// so where keys are equal. From now on the container goes by the given keys, which are its own at each index that is
    /// there. Refused are, in this order: `Definition`, where there are as many indices as there may be; `Clash`, where the
    /// index is unique and two records have one key: `second`, the oldest that has the key of an older one, and `first`,
    /// the oldest that has its key; `Spent`. The keys are then handed back, and the container is unchanged. It copies no
    /// record. It takes memory for a node for each record, and what the index itself takes, and may be refused it before
    /// `Clash` or `Spent` is seen. O(n log n), and expected O(n) in a hashed index or a sequence.
    pub fn add_index(&mut self, spec: Spec, keys: E) -> Result<(), Refused<E>>
        requires { HasKeysWith E.has_key E.order_of E.hash_of self.old spec keys }
        ensures allowed { OnOk result (add_index_refusal E.order_of self.old spec keys ≡ None) }
        ensures ok { OnOk result (self.new ≡ with_index E.order_of self.old spec keys) }
        ensures why { IfErr result
            (λ refused. (Some refused.why ≡ add_index_refusal E.order_of self.old spec keys) ⊎
            ((refused.why ≡ Why.Memory) ×
            IsTrue (is_after_memory (add_index_refusal E.order_of self.old spec keys)))) }
        ensures handed_back { IfErr result (λ refused. refused.row ≡ Some keys) }
        ensures unchanged { OnErr result (self.new ≡ self.old) }
    {
        if self.set.specs().len() == self.set.most() {
            return Err(Refused {
                why: Why::Definition,
                row: Some(keys),
            });
        }
        if let Some(why) = self.spent() {
            return Err(self.refused_index(spec, keys, why));
        }
        match self.set.add_index(spec, keys) {
            Ok(()) => {
                self.writes += 1;
                Ok(())
            }
            Err(refused) => Err(refused),
        }
    }

    // Why an index may not be added where no write may take place: a clash comes first.
    fn refused_index(&mut self, spec: Spec, keys: E, spent: Why) -> Refused<E>
        requires room { length self.old.specs < self.old.most }
        requires spent { the_spent self.old ≡ Some spent }
        requires keys { HasKeysWith E.has_key E.order_of E.hash_of self.old spec keys }
        ensures why { (Some result.why ≡ add_index_refusal E.order_of self.old spec keys) ⊎
            ((result.why ≡ Why.Memory) ×
            IsTrue (is_after_memory (add_index_refusal E.order_of self.old spec keys))) }
        ensures handed_back { result.row ≡ Some keys }
        ensures unchanged { self.new ≡ self.old }
    {
        let (checked, given) = self.set.check_index(spec, keys);
        let why = match checked {
            Ok(()) => spent,
            Err(why) => why,
        };
        Refused {
            why,
            row: Some(given),
        }
    }
}
