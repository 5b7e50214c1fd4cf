//! Indices added and dropped.
ghost use Rattle.any_index.specs.Keyed.{marks_of};
ghost use Rattle.std.specs.Prelude.{◌≡◌, ◌+◌, ℕ, None, Some, IfErr, OnErr, OnOk};
ghost use Rattle.container_model.specs.Indices.{clash, with_index, without_index};
ghost use Rattle.index_set.specs.Set.{store_of, record_of};
ghost use Rattle.linked_set.specs.Asked.{CanAddIndex, CanDropIndex};
ghost use Rattle.linked_set.specs.Refusal.{HasItsNodes, IsRefusal, by_handles};
ghost use Rattle.linked_set.specs.Seen.{seen, IsLinked};

use crate::linked::handle_at;
use crate::walk::by_age;
use container_model::{Entry, Refused, Spec, Why};
use index_set::{ByRow, IndexSet, NoIndex};
use key_extract::Extract;
use node_store::Node;
use slot_table::SlotTable;
use std::alloc::Global;

/// Adds an index, the last, which has all records: in a sequence in the order of their adds, and so those of one key in an
/// index in order. From now on the set goes by the given keys. Where the index is unique and two records have one key, or
/// where memory is refused, the keys are handed back, and all is as before. It copies no record. It takes memory for a
/// node for each record, and what the index itself takes. O(n log n), and expected O(n) in buckets or a sequence.
pub(crate) fn add_index<R, E: Extract<R> + Drop>(
    alloc: Global,
    set: &mut IndexSet<Entry<R>, ByRow<E>>,
    slots: &SlotTable<Node>,
    spec: Spec,
    keys: E,
) -> Result<(), Refused<E>>
    requires { CanAddIndex E.Extract set.old slots.now.items spec keys }
    ensures linked { IsLinked E.has_key E.order_of (marks_of E.Extract) set.new slots.now.items }
    ensures count { (store_of set.new).added ≡ (store_of set.old).added }
    ensures no_clash { OnOk result (clash E.order_of (seen set.old 0 0) spec keys ≡ None) }
    ensures ok { OnOk result ((max writes : ℕ) → seen set.new max (writes + 1) ≡
        with_index E.order_of (seen set.old max writes) spec keys) }
    ensures why { IfErr result (λ refused. IsRefusal
        (clash E.order_of (seen set.old 0 0) spec keys) refused.why) }
    ensures handed_back { IfErr result (λ refused. refused.row ≡ Some keys) }
    ensures same { OnErr result ((max writes : ℕ) → seen set.new max writes ≡
        seen set.old max writes) }
{
    let Ok(nodes) = by_age(alloc, set) else {
        return Err(Refused {
            why: Why::Memory,
            row: Some(keys),
        });
    };
    match set.add_index(spec, ByRow { keys }, &nodes) {
        Ok(()) => Ok(()),
        Err(refused) => Err(Refused {
            why: told(set, refused.why),
            row: Some(refused.keys.keys),
        }),
    }
}

/// Why such an index may not be added, as `add_index` tells it; nothing changes. It takes the memory and the time that
/// adding it takes.
pub(crate) fn check_index<R, E: Extract<R> + Drop>(
    alloc: Global,
    set: &mut IndexSet<Entry<R>, ByRow<E>>,
    slots: &SlotTable<Node>,
    spec: Spec,
    keys: &ByRow<E>,
) -> Result<(), Why>
    requires { CanAddIndex E.Extract set.old slots.now.items spec keys.now.keys }
    ensures linked { IsLinked E.has_key E.order_of (marks_of E.Extract) set.new slots.now.items }
    ensures count { (store_of set.new).added ≡ (store_of set.old).added }
    ensures same { (max writes : ℕ) → seen set.new max writes ≡ seen set.old max writes }
    ensures no_clash { OnOk result (clash E.order_of (seen set.old 0 0) spec keys.now.keys ≡ None) }
    ensures why { IfErr result (IsRefusal
        (clash E.order_of (seen set.old 0 0) spec keys.now.keys)) }
{
    let Ok(nodes) = by_age(alloc, set) else {
        return Err(Why::Memory);
    };
    match set.check_index(spec, keys, &nodes) {
        Ok(()) => Ok(()),
        Err(why) => Err(told(set, why)),
    }
}

/// Drops one of several indices; those after it move up by one. From now on the set goes by the given keys. It takes no
/// memory. O(records) for an index with places or buckets, and O(indices) otherwise.
pub(crate) fn drop_index<R, E: Extract<R> + Drop>(
    set: &mut IndexSet<Entry<R>, ByRow<E>>,
    slots: &SlotTable<Node>,
    index: usize,
    keys: E,
)
    requires { CanDropIndex E.Extract set.old slots.now.items index keys }
    ensures linked { IsLinked E.has_key E.order_of (marks_of E.Extract) set.new slots.now.items }
    ensures count { (store_of set.new).added ≡ (store_of set.old).added }
    ensures ok { (max writes : ℕ) → seen set.new max (writes + 1) ≡
        without_index (seen set.old max writes) index keys }
{
    set.drop_index(index, ByRow { keys });
}

// The refusal, by the handles of its nodes.
fn told<R, E: Extract<R>>(set: &IndexSet<Entry<R>, ByRow<E>>, why: NoIndex) -> Why
    requires { HasItsNodes (store_of set.now) why }
    ensures { result ≡ by_handles (record_of set.now) why }
{
    match why {
        NoIndex::Columns => Why::Definition,
        NoIndex::Clash { first, second } => Why::Clash {
            first: handle_at(set, first),
            second: handle_at(set, second),
        },
        NoIndex::Memory => Why::Memory,
    }
}
