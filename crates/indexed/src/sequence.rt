//! Places in a sequence.
ghost use Rattle.std.specs.Prelude.{◌≡◌, ◌<◌, IfErr, IfOk, None, OnErr, OnOk, Some, length, unwrap_or};
ghost use Rattle.container_model.specs.Insert.{insert_at_refusal, new_handle, with_inserted};
ghost use Rattle.container_model.specs.Sequence.{relocate_refusal, with_relocated};
ghost use Rattle.indexed.specs.Kinds.{kind_of};
ghost use Rattle.indexed.specs.Orders.{by_key};

use crate::container::Indexed;
use crate::kinds::{Arranged, Tag};
use field_keys::Fields;
use multi_index::{Handle, Refused, Why};

impl<R: Fields + Drop> Indexed<R> {
    /// Puts a record in before the place of a sequence, and as `insert` does in the other indices; at the place `len` it
    /// goes last. A refused one is handed back, and the container is unchanged: `Place`, where the place is past the end,
    /// comes before what `insert` refuses. O(log n) for each index, but O(n) in the sequence.
    pub fn insert_at<K: Arranged>(
        &mut self,
        tag: Tag<K>,
        place: u64,
        row: R,
    ) -> Result<Handle, Refused<R>>
        requires within { tag.0 < length R.indices }
        requires kind { kind_of R.indices tag.0 ≡ K.kind }
        ensures handle { IfOk result (λ handle. handle ≡ new_handle self.old) }
        ensures allowed { OnOk result
            (insert_at_refusal (by_key R.row_of) self.old tag.0 place row ≡ None) }
        ensures ok { OnOk result (self.new ≡ with_inserted (by_key R.row_of) self.old
            (Some (tag.0, place)) row) }

        // Memory is refused only where nothing else is.
        ensures why { IfErr result (λ refused. refused.why ≡
            unwrap_or (insert_at_refusal (by_key R.row_of) self.old tag.0 place row) Why.Memory) }
        ensures handed_back { IfErr result (λ refused. refused.row ≡ Some row) }
        ensures unchanged { OnErr result (self.new ≡ self.old) }
    {
        self.check_tag(tag, "insert_at");
        self.records.insert_at(tag.0, place, row)
    }

    /// Moves a record before the place of a sequence, or at the place `len` last. The place counts with the record still in.
    /// A refused move changes nothing: `Stale` comes before `Place`, where the place is past the end, and that before `Spent`.
    /// O(the distance of the place from the nearer end), in a sequence with places O(the records between both places).
    pub fn relocate<K: Arranged>(
        &mut self,
        tag: Tag<K>,
        place: u64,
        handle: Handle,
    ) -> Result<(), Why>
        requires within { tag.0 < length R.indices }
        requires kind { kind_of R.indices tag.0 ≡ K.kind }
        ensures allowed { OnOk result (relocate_refusal self.old tag.0 place handle ≡ None) }
        ensures ok { OnOk result (self.new ≡ with_relocated self.old tag.0 place handle) }
        ensures why { IfErr result (λ why. Some why ≡
            relocate_refusal self.old tag.0 place handle) }
        ensures unchanged { OnErr result (self.new ≡ self.old) }
    {
        self.check_tag(tag, "relocate");
        match self.records.relocate(tag.0, place, handle) {
            Ok(()) => Ok(()),
            Err(refused) => Err(refused.why),
        }
    }
}
