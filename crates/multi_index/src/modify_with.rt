//! Changing a record by a function.
ghost use Rattle.std.specs.Prelude.{◌≡◌, None, Some, IfErr, OnErr, OnOk, IfOk, Ok, Err};
ghost use Rattle.std.specs.Fn.{FnOnceReturnsAtMut};
ghost use Rattle.std.specs.Result.{MatchResult};
ghost use Rattle.container_model.specs.declared.refusal.Why.TheVariants.{Stale};
ghost use Rattle.container_model.specs.State.{row_of};
ghost use Rattle.container_model.specs.Insert.{ban};
ghost use Rattle.container_model.specs.Change.{modify_refusal, replace_refusal, with_modified, with_replaced};
ghost use Rattle.linked_set.specs.Modified.{told};

use crate::container::MultiIndex;
use container_model::{Handle, Refused};
use key_extract::Extract;
use linked_set::Modified;
use modify_ops::RowEdit;

impl<R: Copy + Drop, E: Extract<R> + Drop> MultiIndex<R, E> {
    /// Changes a record by a function, and answers and leaves what `modify` does: where another record has its new key in a
    /// unique index, it is taken out. The function is called once, on a copy, unless the handle is `Stale`. O(log n) for each
    /// index, but to take a record out of an index whose places can be counted O(the records behind it).
    pub fn modify_with<F: FnOnce(&mut R) + Drop>(
        &mut self,
        handle: Handle,
        change: F,
    ) -> Result<Modified<R>, Refused<R>>
        requires { F.IsAlwaysCallable change }
        ensures ok { (old : R) → row_of self.old.entries handle ≡ Some old → OnOk result
            ((new : R) × FnOnceReturnsAtMut F.FnOnce change old tt new ×
            (result ≡ Ok (told (ban E.order_of self.old (Some handle) new) new)) ×
            (self.new ≡ with_modified E.order_of self.old handle new)) }
        ensures allowed { OnOk result (modify_refusal self.old handle ≡ None) }
        ensures why { IfErr result (λ refused. Some refused.why ≡ modify_refusal self.old handle) }
        ensures nothing_handed_in { IfErr result (λ refused. refused.row ≡ None) }
        ensures unchanged { OnErr result (self.new ≡ self.old) }
        ensures indices { self.new.specs ≡ self.old.specs }
    {
        let mut row = self.copy_of(handle)?;
        change(&mut row);
        self.modify(handle, &mut RowEdit::new(row))
    }

    /// Changes a record by a function, and leaves the container unchanged where the new record is refused, as `replace` does.
    /// The function is called once, on a copy, unless the handle is `Stale`. O(log n) for each index.
    pub fn replace_with<F: FnOnce(&mut R) + Drop>(
        &mut self,
        handle: Handle,
        change: F,
    ) -> Result<(), Refused<R>>
        requires { F.IsAlwaysCallable change }
        ensures live { (old : R) → row_of self.old.entries handle ≡ Some old →
            (new : R) × FnOnceReturnsAtMut F.FnOnce change old tt new ×
            MatchResult result
            (λ _. (replace_refusal E.order_of self.old handle new ≡ None) ×
            (self.new ≡ with_replaced E.order_of self.old handle new))
            (λ refused. Some refused.why ≡ replace_refusal E.order_of self.old handle new) }
        ensures stale { row_of self.old.entries handle ≡ None →
            result ≡ Err (record { why = Stale; row = None }) }
        ensures unchanged { OnErr result (self.new ≡ self.old) }
        ensures indices { self.new.specs ≡ self.old.specs }
    {
        let mut row = self.copy_of(handle)?;
        change(&mut row);
        match self.replace(handle, row) {
            Ok(_) => Ok(()),
            Err(refused) => Err(refused),
        }
    }

    // The record of a handle.
    fn copy_of(&self, handle: Handle) -> Result<R, Refused<R>>
        ensures row { IfOk result (λ row. row_of self.now.entries handle ≡ Some row) }
        ensures none { OnErr result (row_of self.now.entries handle ≡ None) }
        ensures why { IfErr result (λ refused. refused ≡ record { why = Stale; row = None }) }
    {
        match self.get(handle) {
            Ok(row) => Ok(*row),
            Err(why) => Err(Refused { why, row: None }),
        }
    }
}
