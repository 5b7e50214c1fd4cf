//! Changes of records.
ghost use Rattle.std.specs.Prelude.{◌≡◌, ◌<◌, Err, IfErr, IfOk, IsTrue, None, Ok, OnErr, OnOk, Some, length, not};
ghost use Rattle.std.specs.Fn.{FnOnceReturnsAtMut};
ghost use Rattle.std.specs.Result.{MatchResult};
ghost use Rattle.container_model.specs.State.{is_hashed_kind, row_of};
ghost use Rattle.container_model.specs.Change.{cleared, erase_refusal, erased_count, modify_refusal, next_in, replace_refusal, spent, with_erased, with_key_erased, with_modified, with_replaced};
ghost use Rattle.container_model.specs.Insert.{ban};
ghost use Rattle.linked_set.specs.Modified.{told};
ghost use Rattle.indexed.specs.Kinds.{kind_of};
ghost use Rattle.indexed.specs.Orders.{by_key, to_search};

use crate::container::Indexed;
use crate::kinds::{Keyed, Tag, Walked};
use crate::stop::check_search;
use field_keys::{Fields, Search};
use multi_index::{Erased, Handle, Modified, Refused, Why};

impl<R: Fields + Drop> Indexed<R> {
    /// Gives a record another row, and hands out the old one; its handle stays. Refused are, in this order: `Stale`; `Banned`,
    /// by the first unique index in which another record has the row's key; `Spent`. The row is then handed back, and the
    /// container is unchanged. O(log n) for each index.
    pub fn replace(&mut self, handle: Handle, row: R) -> Result<R, Refused<R>>
        ensures old { IfOk result (λ old. row_of self.old.entries handle ≡ Some old) }
        ensures allowed { OnOk result
            (replace_refusal (by_key R.row_of) self.old handle row ≡ None) }
        ensures ok { OnOk result (self.new ≡ with_replaced (by_key R.row_of) self.old handle row) }
        ensures why { IfErr result (λ refused. Some refused.why ≡
            replace_refusal (by_key R.row_of) self.old handle row) }
        ensures handed_back { IfErr result (λ refused. refused.row ≡ Some row) }
        ensures unchanged { OnErr result (self.new ≡ self.old) }
    {
        self.records.replace(handle, row)
    }

    /// Takes a record out of every index, and hands it over with the handle of the record after it in an index that is not
    /// hashed. `Stale` and `Spent` are refused, in this order, and change nothing. O(log n) for each index, but O(the records
    /// behind it) in one whose places can be counted.
    pub fn erase_at<K: Walked>(&mut self, tag: Tag<K>, handle: Handle) -> Result<Erased<R>, Why>
        requires within { tag.0 < length R.indices }
        requires kind { kind_of R.indices tag.0 ≡ K.kind }
        ensures row { IfOk result (λ erased. row_of self.old.entries handle ≡ Some erased.row) }
        ensures next { IfOk result (λ erased. erased.next ≡ next_in self.old tag.0 handle) }
        ensures allowed { OnOk result (erase_refusal self.old handle (Some tag.0) ≡ None) }
        ensures ok { OnOk result (self.new ≡ with_erased self.old handle) }
        ensures why { IfErr result (λ why. Some why ≡ erase_refusal self.old handle (Some tag.0)) }
        ensures unchanged { OnErr result (self.new ≡ self.old) }
    {
        self.check_tag(tag, "erase_at");
        match self.records.erase(handle, Some(tag.0)) {
            Ok(erased) => Ok(erased),
            Err(refused) => Err(refused.why),
        }
    }

    /// Takes out every record that has the key at the index, also a leading part of one, and answers how many there were.
    /// `Spent` alone refuses, and then nothing is changed. For each record that goes, O(log n) for each index.
    pub fn erase_key<K: Keyed>(&mut self, tag: Tag<K>, search: &Search) -> Result<u64, Why>
        requires within { tag.0 < length R.indices }
        requires kind { kind_of R.indices tag.0 ≡ K.kind }
        requires whole { IsTrue (is_hashed_kind K.kind) → IsTrue (not search.now.leading) }
        ensures count { IfOk result (λ count. count ≡
            erased_count (to_search R.row_of) self.old tag.0 search.now) }
        ensures allowed { OnOk result (spent self.old ≡ None) }
        ensures ok { OnOk result (self.new ≡
            with_key_erased (to_search R.row_of) self.old tag.0 search.now) }
        ensures why { IfErr result (λ why. Some why ≡ spent self.old) }
        ensures unchanged { OnErr result (self.new ≡ self.old) }
    {
        self.check_tag(tag, "erase_key");
        check_search::<K>(search, tag.0, "erase_key");
        match self.records.erase_key(tag.0, search) {
            Ok(count) => Ok(count),
            Err(refused) => Err(refused.why),
        }
    }

    /// Takes every record out. `Spent` alone refuses, and then nothing is changed. O(records + slots).
    pub fn clear(&mut self) -> Result<(), Why>
        ensures allowed { OnOk result (spent self.old ≡ None) }
        ensures ok { OnOk result (self.new ≡ cleared self.old) }
        ensures why { IfErr result (λ why. Some why ≡ spent self.old) }
        ensures unchanged { OnErr result (self.new ≡ self.old) }
    {
        match self.records.clear() {
            Ok(()) => Ok(()),
            Err(refused) => Err(refused.why),
        }
    }
}

impl<R: Fields + Copy + Drop> Indexed<R> {
    /// Changes a record by a function, which is called once, on a copy, unless the handle is `Stale`. Where another record has
    /// the new key in a unique index, the record is taken out, and the answer says so. O(log n) for each index.
    pub fn modify_with<F: FnOnce(&mut R) + Drop>(
        &mut self,
        handle: Handle,
        change: F,
    ) -> Result<Modified<R>, Why>
        requires { F.IsAlwaysCallable change }
        ensures ok { (old : R) → row_of self.old.entries handle ≡ Some old → OnOk result
            ((new : R) × FnOnceReturnsAtMut F.FnOnce change old tt new ×
            (result ≡ Ok (told (ban (by_key R.row_of) self.old (Some handle) new) new)) ×
            (self.new ≡ with_modified (by_key R.row_of) self.old handle new)) }
        ensures allowed { OnOk result (modify_refusal self.old handle ≡ None) }
        ensures why { IfErr result (λ why. Some why ≡ modify_refusal self.old handle) }
        ensures unchanged { OnErr result (self.new ≡ self.old) }
    {
        match self.records.modify_with(handle, change) {
            Ok(modified) => Ok(modified),
            Err(refused) => Err(refused.why),
        }
    }

    /// Changes a record by a function, and leaves the container unchanged where the new record is refused, as `replace` does.
    /// The function is called once, on a copy, unless the handle is `Stale`. O(log n) for each index.
    pub fn replace_with<F: FnOnce(&mut R) + Drop>(
        &mut self,
        handle: Handle,
        change: F,
    ) -> Result<(), Why>
        requires { F.IsAlwaysCallable change }
        ensures live { (old : R) → row_of self.old.entries handle ≡ Some old →
            (new : R) × FnOnceReturnsAtMut F.FnOnce change old tt new ×
            MatchResult result
            (λ _. (replace_refusal (by_key R.row_of) self.old handle new ≡ None) ×
            (self.new ≡ with_replaced (by_key R.row_of) self.old handle new))
            (λ why. Some why ≡ replace_refusal (by_key R.row_of) self.old handle new) }
        ensures stale { row_of self.old.entries handle ≡ None → result ≡ Err Why.Stale }
        ensures unchanged { OnErr result (self.new ≡ self.old) }
    {
        match self.records.replace_with(handle, change) {
            Ok(()) => Ok(()),
            Err(refused) => Err(refused.why),
        }
    }
}
