//! One index less.
ghost use Rattle.std.specs.Prelude.{◌≡◌, None, Some, IfErr, OnErr, OnOk};
ghost use Rattle.container_model.specs.Indices.{drop_index_refusal as the_refusal, without_index};
ghost use Rattle.linked_set.specs.Asked.{HasKeysWithout};

use crate::container::MultiIndex;
use container_model::{Refused, Why};
use key_extract::Extract;

impl<R: Drop, E: Extract<R> + Drop> MultiIndex<R, E> {
    /// Drops one of several indices; those after it move up by one. From now on the container goes by the given keys, which
    /// at each index that stays are its own, at its new number. Refused are, in this order: `Definition`, where it is the
    /// only index; `Spent`. The keys are then handed back, and the container is unchanged. It takes no memory. O(records)
    /// for an index with places or buckets, and O(indices) otherwise.
    pub fn drop_index(&mut self, index: usize, keys: E) -> Result<(), Refused<E>>
        requires { HasKeysWithout E.has_key E.order_of E.hash_of self.old index keys }
        ensures allowed { OnOk result (the_refusal self.old ≡ None) }
        ensures ok { OnOk result (self.new ≡ without_index self.old index keys) }
        ensures why { IfErr result (λ refused. Some refused.why ≡ the_refusal self.old) }
        ensures handed_back { IfErr result (λ refused. refused.row ≡ Some keys) }
        ensures unchanged { OnErr result (self.new ≡ self.old) }
    {
        if let Some(why) = self.drop_index_refusal() {
            return Err(Refused {
                why,
                row: Some(keys),
            });
        }
        self.set.drop_index(index, keys);
        self.writes += 1;
        Ok(())
    }

    // Why an index may not be dropped.
    fn drop_index_refusal(&self) -> Option<Why>
        ensures { result ≡ the_refusal self.now }
    {
        if self.set.specs().len() == 1 {
            return Some(Why::Definition);
        }
        self.spent()
    }
}
