//! Giving a record another row.
ghost use Rattle.std.specs.Prelude.{◌≡◌, None, Some, IfOk, IfErr, OnOk, OnErr};
ghost use Rattle.container_model.specs.State.{row_of};
ghost use Rattle.container_model.specs.Change.{replace_refusal, with_replaced};

use crate::container::MultiIndex;
use container_model::{Handle, Refused};
use key_extract::Extract;

impl<R: Drop, E: Extract<R> + Drop> MultiIndex<R, E> {
    /// Gives a record another row, and hands out the old one; its handle stays. Refused are, in this order: `Stale`; `Banned`,
    /// by the first unique index in which another record has the row's key; `Spent`. The row is then handed back, and the
    /// container is unchanged. In a sequence the record keeps its place; in an index in order it keeps it where its key is
    /// still in order between its neighbours, else it goes after all records whose key is at most its own. It takes no
    /// memory. O(log n) for each index.
    pub fn replace(&mut self, handle: Handle, row: R) -> Result<R, Refused<R>>
        ensures old { IfOk result (λ old. row_of self.old.entries handle ≡ Some old) }
        ensures allowed { OnOk result (replace_refusal E.order_of self.old handle row ≡ None) }
        ensures ok { OnOk result (self.new ≡ with_replaced E.order_of self.old handle row) }
        ensures why { IfErr result (λ refused. Some refused.why ≡
            replace_refusal E.order_of self.old handle row) }
        ensures handed_back { IfErr result (λ refused. refused.row ≡ Some row) }
        ensures unchanged { OnErr result (self.new ≡ self.old) }
    {
        let limit = self.spent();
        match self.set.rewrite(handle, row, limit) {
            Ok(old) => {
                self.writes += 1;
                Ok(old)
            }
            Err(refused) => Err(refused),
        }
    }
}
