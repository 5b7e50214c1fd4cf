//! Changing a record in place, and undoing the change where it is refused.
ghost use Rattle.std.specs.Prelude.{◌≡◌, ◌+◌, None, Some, IfErr, OnErr, OnOk};
ghost use Rattle.container_model.specs.State.{row_of};
ghost use Rattle.container_model.specs.Undone.{KeepsKeys, modify_or_undo_refusal, with_modified_or_undone};

use crate::container::MultiIndex;
use container_model::{Handle, Refused};
use key_extract::Extract;
use modify_ops::Edit;

impl<R: Drop, E: Extract<R> + Drop> MultiIndex<R, E> {
    /// Changes a record in place; its handle stays, and it settles as after `replace`. Refused are, in this order: `Stale`,
    /// and then the edit is not applied; `Banned`, by the first unique index in which another record has the new key;
    /// `Spent`. For these two the edit was applied and is undone, which has to give the row its keys back: the record then
    /// has the row that undoing left, and stands in every index where it stood. It takes no memory. O(log n) for each index.
    pub fn modify_or_undo<T: Edit<R>>(
        &mut self,
        handle: Handle,
        edit: &mut T,
    ) -> Result<(), Refused<R>>
        requires undone { KeepsKeys E.order_of self.old handle
            (λ r. T.undone (T.after_apply edit.old r) (T.applied edit.old r)) }
        ensures allowed { OnOk result (modify_or_undo_refusal E.order_of self.old handle
            (T.applied edit.old) ≡ None) }
        ensures why { IfErr result (λ refused. Some refused.why ≡
            modify_or_undo_refusal E.order_of self.old handle (T.applied edit.old)) }
        ensures nothing_handed_in { IfErr result (λ refused. refused.row ≡ None) }
        ensures left { self.new ≡ with_modified_or_undone E.order_of self.old handle
            (T.applied edit.old) (λ r. T.undone (T.after_apply edit.old r) (T.applied edit.old r)) }
        ensures kept_edit { (r : R) → row_of self.old.entries handle ≡ Some r →
            OnOk result (edit.new ≡ T.after_apply edit.old r) }
        ensures undone_edit { (r : R) → row_of self.old.entries handle ≡ Some r →
            OnErr result (edit.new ≡ T.after_undo (T.after_apply edit.old r)
            (T.applied edit.old r)) }
        ensures not_applied { row_of self.old.entries handle ≡ None → edit.new ≡ edit.old }
    {
        if let Some(why) = self.set.change_or_undo(handle, edit, self.writes) {
            return Err(Refused { why, row: None });
        }
        self.writes += 1;
        Ok(())
    }
}
