//! A book of orders.
ghost use Rattle.std.specs.Prelude.{◌≡◌, ◌⊎◌, true, false, [], None, Some, Ok, IfErr, IfOk, IfSome, IsTrue, OnErr, OnOk, unwrap_or};
ghost use Rattle.list_model.specs.Place.{Inclusive};
ghost use Rattle.container_model.specs.State.{empty_with_most, list_at, row_of};
ghost use Rattle.container_model.specs.Find.{counted, found, found_range, probe_side};
ghost use Rattle.container_model.specs.Insert.{ban, insert_refusal, new_handle, with_inserted};
ghost use Rattle.container_model.specs.Change.{erase_key_refusal, erase_refusal, erased_count, modify_refusal, replace_refusal, with_erased, with_key_erased, with_modified, with_replaced};
ghost use Rattle.container_model.specs.Indices.{add_index_refusal, with_index};
ghost use Rattle.container_model.specs.Undone.{modify_or_undo_refusal};
ghost use Rattle.linked_set.specs.Modified.{told};
ghost use Rattle.multi_index.specs.Rearranged.{is_after_memory};
ghost use Rattle.embedded.specs.Fields.{by_field, to_field, by_owner, indices, has_owners, drop_owners_refusal, without_owners};

use crate::order::{Fields, Order};
use crate::renumber::Renumber;
use container_model::{Handle, Kind, Refused, Spec, Why};
use multi_index::{Modified, MultiIndex};
use std::alloc::{AllocError, Global};
use std::marker::Model;
use std::ops::Bound;

/// Orders, each under its number, its price and its owner. While the book is listed by owner, they stand in one index more, and it
/// is known whether that is unique.
#[derive(Drop)]
pub struct Book {
    orders: MultiIndex<Order, Fields>,
    owners: Option<bool>,
}

impl Model for Book {
    ghost use Rattle.std.specs.Prelude.{◌≡◌};
    ghost use Rattle.container_model.specs.State.{State};
    ghost use Rattle.embedded.specs.declared.order.Order.{Order as AnOrder};
    ghost use Rattle.embedded.specs.declared.order.Fields.{Fields as Keys};
    ghost use Rattle.embedded.specs.Fields.{indices};

    ghost Value = { State Keys AnOrder };

    ghost view = { λ b. b.orders };

    ghost invariant = { λ b. (b.orders.specs ≡ indices b.owners) × (b.orders.most ≡ 4) };
}

const SPECS: [Spec; 3] = [
    Spec {
        kind: Kind::Ordered,
        unique: true,
    },
    Spec {
        kind: Kind::Ranked,
        unique: false,
    },
    Spec {
        kind: Kind::Hashed,
        unique: false,
    },
];

impl Book {
    /// A book without orders, for at most `max`. O(1).
    pub fn new(alloc: Global, max: u32) -> Result<Book, AllocError>
        ensures { IfOk result (λ book. book ≡ empty_with_most 4 (record {}) (indices None) max 0) }
    {
        let orders = MultiIndex::with_most(alloc, SPECS.to_vec(alloc)?, Fields, 4, max, 0)?;
        Ok(Book {
            orders,
            owners: None,
        })
    }

    /// Puts an order in, unless one has its number or the book is full; a refused one is handed back, and nothing is
    /// changed. O(log n).
    pub fn place(&mut self, order: Order) -> Result<Handle, Refused<Order>>
        ensures handle { IfOk result (λ handle. handle ≡ new_handle self.old) }
        ensures allowed { OnOk result (insert_refusal by_field self.old order ≡ None) }
        ensures placed { OnOk result (self.new ≡ with_inserted by_field self.old None order) }
        ensures why { IfErr result (λ refused. refused.why ≡ unwrap_or (insert_refusal by_field self.old order) Why.Memory) }
        ensures handed_back { IfErr result (λ refused. refused.row ≡ Some order) }
        ensures unchanged { OnErr result (self.new ≡ self.old) }
    {
        self.orders.insert(order)
    }

    /// Puts another order in the place of one, under its handle, and hands out the one that was there. The new one is handed
    /// back, and nothing is changed, where the handle names no order or another order has the new one's number. O(log n).
    pub fn amend(&mut self, handle: Handle, order: Order) -> Result<Order, Refused<Order>>
        ensures old { IfOk result (λ old. row_of self.old.entries handle ≡ Some old) }
        ensures allowed { OnOk result (replace_refusal by_field self.old handle order ≡ None) }
        ensures amended { OnOk result (self.new ≡ with_replaced by_field self.old handle order) }
        ensures why { IfErr result (λ refused. Some refused.why ≡ replace_refusal by_field self.old handle order) }
        ensures handed_back { IfErr result (λ refused. refused.row ≡ Some order) }
        ensures unchanged { OnErr result (self.new ≡ self.old) }
    {
        self.orders.replace(handle, order)
    }

    /// Gives an order another number. Where another order has that number, the order is lost, and the answer has it, and the
    /// other one's handle. Nothing is changed where the handle names no order. O(log n).
    pub fn renumber(&mut self, handle: Handle, id: u64) -> Result<Modified<Order>, Why>
        ensures allowed { OnOk result (modify_refusal self.old handle ≡ None) }
        ensures renumbered { (order : Order) → row_of self.old.entries handle ≡ Some order →
            OnOk result (self.new ≡ with_modified by_field self.old handle (record order { id = id })) }
        ensures answer { (order : Order) → row_of self.old.entries handle ≡ Some order →
            IfOk result (λ answer. answer ≡ told (ban by_field self.old (Some handle) (record order { id = id })) (record order { id = id })) }
        ensures why { IfErr result (λ why. Some why ≡ modify_refusal self.old handle) }
        ensures unchanged { OnErr result (self.new ≡ self.old) }
    {
        let mut edit = Renumber { id };
        match self.orders.modify(handle, &mut edit) {
            Ok(modified) => Ok(modified),
            Err(refused) => Err(refused.why),
        }
    }

    /// Gives an order the number of an edit, which then has the old one. Where another order has that number, or the handle
    /// names no order, neither the book nor the edit is changed. O(log n).
    pub fn try_renumber(&mut self, handle: Handle, edit: &mut Renumber) -> Result<(), Why>
        ensures allowed { OnOk result (modify_or_undo_refusal by_field self.old handle (λ order. record order { id = edit.old.id }) ≡ None) }
        ensures renumbered { (order : Order) → row_of self.old.entries handle ≡ Some order →
            OnOk result (self.new ≡ with_replaced by_field self.old handle (record order { id = edit.old.id })) }
        ensures old_number { (order : Order) → row_of self.old.entries handle ≡ Some order → OnOk result (edit.new.id ≡ order.id) }
        ensures why { IfErr result (λ why. Some why ≡ modify_or_undo_refusal by_field self.old handle (λ order. record order { id = edit.old.id })) }
        ensures unchanged { OnErr result (self.new ≡ self.old) }
        ensures number_back { OnErr result (edit.new ≡ edit.old) }
    {
        // `writes` says that no two orders share a slot: so undoing leaves the very book that was there.
        let _writes = self.orders.writes();
        match self.orders.modify_or_undo(handle, edit) {
            Ok(()) => Ok(()),
            Err(refused) => Err(refused.why),
        }
    }

    /// Takes an order out, and hands it over. Nothing is changed where the handle names none. O(log n).
    pub fn cancel(&mut self, handle: Handle) -> Result<Order, Why>
        ensures order { IfOk result (λ order. row_of self.old.entries handle ≡ Some order) }
        ensures allowed { OnOk result (erase_refusal self.old handle None ≡ None) }
        ensures cancelled { OnOk result (self.new ≡ with_erased self.old handle) }
        ensures why { IfErr result (λ why. Some why ≡ erase_refusal self.old handle None) }
        ensures unchanged { OnErr result (self.new ≡ self.old) }
    {
        match self.orders.erase(handle, None) {
            Ok(erased) => Ok(erased.row),
            Err(refused) => Err(refused.why),
        }
    }

    /// Takes out all orders of an owner, and says how many they were. O(log n) for each.
    pub fn cancel_all(&mut self, owner: u64) -> Result<u64, Refused<Order>>
        ensures count { IfOk result (λ count. count ≡ erased_count to_field self.old 2 owner) }
        ensures allowed { OnOk result (erase_key_refusal self.old 2 ≡ None) }
        ensures cancelled { OnOk result (self.new ≡ with_key_erased to_field self.old 2 owner) }
        ensures why { IfErr result (λ refused. Some refused.why ≡ erase_key_refusal self.old 2) }
        ensures handed_back { IfErr result (λ refused. refused.row ≡ None) }
        ensures unchanged { OnErr result (self.new ≡ self.old) }
    {
        self.orders.erase_key(2, &owner)
    }

    /// The first order of those that bid this price. O(log n).
    pub fn first_at(&self, price: u64) -> Option<Handle>
        ensures { Ok result ≡ found to_field self.now 1 price }
    {
        self.orders.find(1, &price).unwrap_or(None)
    }

    /// How many orders an owner has. Expected O(1 + those orders).
    pub fn count_of(&self, owner: u64) -> u64
        ensures { Ok result ≡ counted to_field self.now 2 owner }
    {
        self.orders.count(2, &owner).unwrap_or(0)
    }

    /// The orders by price, those of one price as they came. O(n).
    pub fn by_price(&self) -> Result<Vec<Handle>, Why>
        ensures ok { IfOk result (λ handles. handles.items ≡ list_at self.now.lists 1) }
        ensures memory_only { IfErr result (λ why. why ≡ Why.Memory) }
    {
        self.orders.view(1)
    }

    /// Lists the orders by owner from now on, and those of one owner as they came. Nothing is changed where they are listed so
    /// already, or where `unique` is asked for and an owner has two orders, the first two of which are told. O(n log n).
    pub fn list_owners(&mut self, unique: bool) -> Result<(), Why>
        ensures allowed { OnOk result (add_index_refusal by_field self.old (by_owner unique) self.old.keys ≡ None) }
        ensures listed { OnOk result (self.new ≡ with_index by_field self.old (by_owner unique) self.old.keys) }
        ensures why { IfErr result (λ why. (Some why ≡ add_index_refusal by_field self.old (by_owner unique) self.old.keys) ⊎ ((why ≡ Why.Memory) × IsTrue (is_after_memory (add_index_refusal by_field self.old (by_owner unique) self.old.keys)))) }
        ensures unchanged { OnErr result (self.new ≡ self.old) }
    {
        if self.owners.is_some() {
            return Err(Why::Definition);
        }
        let spec = Spec {
            kind: Kind::Ordered,
            unique,
        };
        match self.orders.add_index(spec, Fields) {
            Ok(()) => {
                self.owners = Some(unique);
                Ok(())
            }
            Err(refused) => Err(refused.why),
        }
    }

    /// Lists them so no more. O(1).
    pub fn drop_owners(&mut self) -> Result<(), Why>
        ensures allowed { OnOk result (drop_owners_refusal self.old ≡ None) }
        ensures dropped { OnOk result (self.new ≡ without_owners self.old) }
        ensures why { IfErr result (λ why. Some why ≡ drop_owners_refusal self.old) }
        ensures unchanged { OnErr result (self.new ≡ self.old) }
    {
        if self.owners.is_none() {
            return Ok(());
        }
        match self.orders.drop_index(3, Fields) {
            Ok(()) => {
                self.owners = None;
                Ok(())
            }
            Err(refused) => Err(refused.why),
        }
    }

    /// The orders by owner, where they are listed so, and else none. O(n).
    pub fn by_owner(&self, alloc: Global) -> Result<Vec<Handle>, Why>
        ensures listed { IfOk result (λ handles. has_owners self.now ≡ true → handles.items ≡ list_at self.now.lists 3) }
        ensures none { IfOk result (λ handles. has_owners self.now ≡ false → handles.items ≡ []) }
        ensures memory_only { IfErr result (λ why. why ≡ Why.Memory) }
    {
        match self.owners {
            Some(_) => self.orders.view(3),
            None => Ok(Vec::new(alloc)),
        }
    }

    /// The orders that bid from `low` to `high`, both included, by price. O(log n + those orders).
    pub fn between(&self, low: u64, high: u64) -> Result<Vec<Handle>, Why>
        ensures ok { IfOk result (λ handles. found_range self.now 1 (Inclusive (probe_side to_field self.now 1 low)) (Inclusive (probe_side to_field self.now 1 high)) ≡ Ok handles.items) }
        ensures memory_only { IfErr result (λ why. why ≡ Why.Memory) }
    {
        self.orders
            .range(1, Bound::Included(&low), Bound::Included(&high))
    }

    /// The order of a handle, if it is in the book. O(1).
    pub fn get(&self, handle: Handle) -> Option<&Order>
        ensures row { IfSome result (λ order. row_of self.now.entries handle ≡ Some order.now) }
        ensures none { result ≡ None → row_of self.now.entries handle ≡ None }
    {
        self.orders.get(handle).ok()
    }
}
