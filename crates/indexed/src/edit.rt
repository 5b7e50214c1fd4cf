//! Changes of a record by an edit, which changes it in place.
ghost use Rattle.std.specs.Prelude.{◌≡◌, None, Some, IfErr, IfOk, OnErr, OnOk};
ghost use Rattle.container_model.specs.State.{row_of};
ghost use Rattle.container_model.specs.Change.{modify_refusal, with_modified};
ghost use Rattle.container_model.specs.Insert.{ban};
ghost use Rattle.container_model.specs.Undone.{KeepsKeys, modify_or_undo_refusal, with_modified_or_undone};
ghost use Rattle.linked_set.specs.Modified.{told};
ghost use Rattle.indexed.specs.Orders.{by_key};

use crate::container::Indexed;
use field_keys::Fields;
use multi_index::{Edit, Handle, Modified, Why};

impl<R: Fields + Drop> Indexed<R> {
    /// Changes a record in place by an edit; its handle stays. Where another record has its new key in a unique index, it is
    /// taken out, and the answer says so. `Stale` and `Spent` are refused, in this order: the edit is then not applied, and
    /// the container is unchanged. O(log n) for each index.
    pub fn modify<T: Edit<R>>(&mut self, handle: Handle, edit: &mut T) -> Result<Modified<R>, Why>
        ensures allowed { OnOk result (modify_refusal self.old handle ≡ None) }
        ensures ok { (r : R) → row_of self.old.entries handle ≡ Some r →
            OnOk result (self.new ≡ with_modified (by_key R.row_of) self.old handle
            (T.applied edit.old r)) }
        ensures answer { (r : R) → row_of self.old.entries handle ≡ Some r →
            IfOk result (λ told_of. told_of ≡
            told (ban (by_key R.row_of) self.old (Some handle) (T.applied edit.old r))
            (T.applied edit.old r)) }
        ensures edit { (r : R) → row_of self.old.entries handle ≡ Some r →
            OnOk result (edit.new ≡ T.after_apply edit.old r) }
        ensures why { IfErr result (λ why. Some why ≡ modify_refusal self.old handle) }
        ensures not_applied { OnErr result (edit.new ≡ edit.old) }
        ensures unchanged { OnErr result (self.new ≡ self.old) }
    {
        match self.records.modify(handle, edit) {
            Ok(modified) => Ok(modified),
            Err(refused) => Err(refused.why),
        }
    }

    /// Changes a record in place by an edit, and undoes it where the new record is refused, as `replace` refuses it; its handle
    /// stays. Undoing has to give the record its keys back: it then stands in every index where it stood. O(log n) for each
    /// index.
    pub fn modify_or_undo<T: Edit<R>>(&mut self, handle: Handle, edit: &mut T) -> Result<(), Why>
        requires undone { KeepsKeys (by_key R.row_of) self.old handle
            (λ r. T.undone (T.after_apply edit.old r) (T.applied edit.old r)) }
        ensures allowed { OnOk result (modify_or_undo_refusal (by_key R.row_of) self.old handle
            (T.applied edit.old) ≡ None) }
        ensures why { IfErr result (λ why. Some why ≡
            modify_or_undo_refusal (by_key R.row_of) self.old handle (T.applied edit.old)) }
        ensures left { self.new ≡ with_modified_or_undone (by_key R.row_of) self.old handle
            (T.applied edit.old) (λ r. T.undone (T.after_apply edit.old r) (T.applied edit.old r)) }
        ensures kept_edit { (r : R) → row_of self.old.entries handle ≡ Some r →
            OnOk result (edit.new ≡ T.after_apply edit.old r) }
        ensures undone_edit { (r : R) → row_of self.old.entries handle ≡ Some r →
            OnErr result (edit.new ≡ T.after_undo (T.after_apply edit.old r)
            (T.applied edit.old r)) }
        ensures not_applied { row_of self.old.entries handle ≡ None → edit.new ≡ edit.old }
    {
        match self.records.modify_or_undo(handle, edit) {
            Ok(()) => Ok(()),
            Err(refused) => Err(refused.why),
        }
    }
}
