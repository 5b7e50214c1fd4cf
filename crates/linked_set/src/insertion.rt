//! Putting records in.
ghost use Rattle.any_index.specs.Keyed.{marks_of};
ghost use Rattle.std.specs.Prelude.{◌≡◌, ◌+◌, ◌<◌, ◌≤◌, ◌^◌, ℕ, IfErr, IfOk, IfSome, None, OnErr, OnOk, Some, length, unwrap_or};
ghost use Rattle.std.specs.Option.{option_map_or};
ghost use Rattle.container_model.specs.Insert.{ban_from, free_slot, with_inserted};
ghost use Rattle.index_set.specs.Places.{place_from};
ghost use Rattle.index_set.specs.Set.{keys_of, specs_of, contents, record_of, lists_of};
ghost use Rattle.linked_set.specs.Asked.{CanGrow};
ghost use Rattle.index_set.specs.ByRow.{order_by_row};
ghost use Rattle.linked_set.specs.Linked.{entries_in, handles_in};
ghost use Rattle.linked_set.specs.Records.{kept_out, state_of};
ghost use Rattle.linked_set.specs.Seen.{IsLinked};

use crate::beside::is_there;
use crate::linked::{free_place, put_in};
use crate::linked_set::LinkedSet;
use container_model::{Entry, Handle, Refused, Why};
use index_set::{ByRow, FreePlace, IndexSet};
use key_extract::Extract;
use node_store::Node;
use slot_table::SlotTable;

impl<R: Drop, E: Extract<R> + Drop> LinkedSet<R, E> {
    /// Puts a record in, whose handle has the least free slot and this stamp: before the place of a sequence where one is
    /// asked for, and elsewhere at its usual place. A refused one is handed back, and nothing is changed: a ban comes before the
    /// `limit`, which is what else keeps every record out. O(log n) for each index, but O(n) where a place is asked for.
    pub fn insert(
        &mut self,
        at: Option<(usize, u64)>,
        row: R,
        stamp: u64,
        limit: Option<Why>,
    ) -> Result<Handle, Refused<R>>
        requires room { CanGrow self.old limit }
        requires within { IfSome at (λ at. at.1 ≤ length self.old.entries) }
        ensures handle { IfOk result (λ handle. handle ≡
            record { slot = free_slot self.old.entries; stamp = stamp }) }
        ensures allowed { OnOk result (kept_out E.order_of self.old None row limit ≡ None) }
        ensures ok { (max writes : ℕ) → stamp ≡ writes + 1 → OnOk result
            (state_of self.new max (writes + 1) ≡
            with_inserted E.order_of (state_of self.old max writes) at row) }
        ensures count { OnOk result (self.new.added ≡ self.old.added + 1) }

        // Memory is refused only where nothing else is.
        ensures why { IfErr result (λ refused. refused.why ≡
            unwrap_or (kept_out E.order_of self.old None row limit) Why.Memory) }
        ensures handed_back { IfErr result (λ refused. refused.row ≡ Some row) }
        ensures unchanged { OnErr result (self.new ≡ self.old) }
    {
        let entry = self.entry(row, stamp);
        let place = match admitted(&self.set, &self.slots, limit, &entry) {
            Ok(place) => place,
            Err(why) => {
                return Err(Refused {
                    why,
                    row: Some(entry.row),
                });
            }
        };
        let handle = entry.handle;
        let at = place_there(&self.set, at);
        match put_in(&mut self.set, &mut self.slots, at, entry, place) {
            Ok(()) => Ok(handle),
            Err(refused) => Err(Refused {
                why: Why::Memory,
                row: Some(refused.value.row),
            }),
        }
    }

    // The record with the handle that it gets where it may go in.
    fn entry(&self, row: R, stamp: u64) -> Entry<R>
        requires { length self.now.entries < 2 ^ 32 }
        ensures { result ≡ record {
          handle = record { slot = free_slot self.now.entries; stamp = stamp };
          row = row;
        } }
    {
        let slot = self.slots.least_free() as u32;
        Entry {
            handle: Handle { slot, stamp },
            row,
        }
    }
}

// What is known of where a record goes. Else why it may not go in: a ban comes before the limit.
fn admitted<R, E: Extract<R>>(
    set: &IndexSet<Entry<R>, ByRow<E>>,
    slots: &SlotTable<Node>,
    limit: Option<Why>,
    entry: &Entry<R>,
) -> Result<Option<FreePlace>, Why>
    requires { IsLinked E.has_key E.order_of (marks_of E.Extract) set.now slots.now.items }
    ensures place { IfOk result (λ place. place ≡ place_from (order_by_row E.order_of (keys_of set.now))
        (record_of set.now) (lists_of set.now) entry.now 0 (specs_of set.now)) }
    ensures allowed { OnOk result (option_map_or (λ at. Some (Why.Banned at.0 at.1))
        (ban_from (E.order_of (keys_of set.now).keys) (entries_in (contents set.now))
        (handles_in (record_of set.now) (lists_of set.now)) None entry.now.row 0
        (specs_of set.now)) limit ≡ None) }
    ensures why { IfErr result (λ why. option_map_or (λ at. Some (Why.Banned at.0 at.1))
        (ban_from (E.order_of (keys_of set.now).keys) (entries_in (contents set.now))
        (handles_in (record_of set.now) (lists_of set.now)) None entry.now.row 0
        (specs_of set.now)) limit ≡ Some why) }
{
    let place = match free_place(set, slots, entry) {
        Ok(place) => place,
        Err((index, by)) => return Err(Why::Banned { index, by }),
    };
    match limit {
        None => Ok(place),
        Some(why) => Err(why),
    }
}

// The place of an index that is asked for, where the index is there.
fn place_there<R, E: Extract<R>>(
    set: &IndexSet<Entry<R>, ByRow<E>>,
    at: Option<(usize, u64)>,
) -> Option<(usize, u64)>
    ensures there { IfSome result (λ place. (at ≡ Some place) ×
        (place.0 < length (specs_of set.now))) }
    ensures past { result ≡ None → IfSome at (λ place. length (specs_of set.now) ≤ place.0) }
{
    let place = at?;
    if is_there(set, place.0) {
        Some(place)
    } else {
        None
    }
}
