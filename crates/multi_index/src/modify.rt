//! Changing a record in place.
ghost use Rattle.std.specs.Prelude.{◌≡◌, ◌+◌, None, Some, IfErr, IfOk, OnErr, OnOk};
ghost use Rattle.container_model.specs.State.{row_of};
ghost use Rattle.container_model.specs.Insert.{ban};
ghost use Rattle.container_model.specs.Change.{modify_refusal, with_modified};
ghost use Rattle.linked_set.specs.Modified.{told};

use crate::container::MultiIndex;
use container_model::{Handle, Refused};
use key_extract::Extract;
use linked_set::Modified;
use modify_ops::Edit;

impl<R: Drop, E: Extract<R> + Drop> MultiIndex<R, E> {
    /// Changes a record in place; its handle stays, and it settles as after `replace`. Where another record has its new key
    /// in a unique index, it is taken out, and the answer has the changed row, the first such index and the record there.
    /// `Stale` and `Spent` are refused, in this order: the edit is then not applied, and the container is unchanged. It takes
    /// no memory. O(log n) for each index, but to take a record out of an index whose places can be counted O(the records
    /// behind it).
    pub fn modify<T: Edit<R>>(
        &mut self,
        handle: Handle,
        edit: &mut T,
    ) -> Result<Modified<R>, Refused<R>>
        ensures allowed { OnOk result (modify_refusal self.old handle ≡ None) }
        ensures ok { (r : R) → row_of self.old.entries handle ≡ Some r →
            OnOk result (self.new ≡ with_modified E.order_of self.old handle
            (T.applied edit.old r)) }
        ensures answer { (r : R) → row_of self.old.entries handle ≡ Some r →
            IfOk result (λ told_of. told_of ≡
            told (ban E.order_of self.old (Some handle) (T.applied edit.old r))
            (T.applied edit.old r)) }
        ensures edit { (r : R) → row_of self.old.entries handle ≡ Some r →
            OnOk result (edit.new ≡ T.after_apply edit.old r) }
        ensures why { IfErr result (λ refused. Some refused.why ≡ modify_refusal self.old handle) }
        ensures nothing_handed_in { IfErr result (λ refused. refused.row ≡ None) }
        ensures not_applied { OnErr result (edit.new ≡ edit.old) }
        ensures unchanged { OnErr result (self.new ≡ self.old) }
    {
        let limit = self.spent();
        match self.set.change(handle, edit, limit) {
            Ok(told) => {
                self.writes += 1;
                Ok(told)
            }
            Err(why) => Err(Refused { why, row: None }),
        }
    }
}
