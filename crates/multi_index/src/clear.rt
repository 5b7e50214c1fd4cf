//! Taking all records out.
ghost use Rattle.std.specs.Prelude.{◌≡◌, None, Some, IfErr, OnErr, OnOk};
ghost use Rattle.container_model.specs.Change.{cleared, spent};

use crate::container::MultiIndex;
use container_model::{Refused, Why};
use key_extract::Extract;
use linked_set::is_spent;

impl<R: Drop, E: Extract<R> + Drop> MultiIndex<R, E> {
    /// Takes every record out. `Spent` alone refuses, and then nothing is changed. It takes no memory. O(records + slots).
    pub fn clear(&mut self) -> Result<(), Refused<R>>
        ensures allowed { OnOk result (spent self.old ≡ None) }
        ensures ok { OnOk result (self.new ≡ cleared self.old) }
        ensures why { IfErr result (λ refused. Some refused.why ≡ spent self.old) }
        ensures handed_back { IfErr result (λ refused. refused.row ≡ None) }
        ensures unchanged { OnErr result (self.new ≡ self.old) }
    {
        if let Some(why) = self.spent() {
            return Err(Refused { why, row: None });
        }
        self.set.clear();
        self.writes += 1;
        Ok(())
    }

    // Why no write may take place.
    pub(crate) fn spent(&self) -> Option<Why>
        ensures { result ≡ spent self.now }
    {
        if is_spent(self.writes) {
            Some(Why::Spent)
        } else {
            None
        }
    }
}
