//! The orders of a table's indices under another declaration.

ghost use Rattle.std.specs.Prelude.{◌≡◌, ◌<◌, IfErr, IfOk, map, length};
ghost use Rattle.table_alter.specs.Altered.{IsClash, IsSomeClash, index_at, new_order as the_new_order, of_not_added, order_of as the_order_of};

use crate::fault::Unalterable;
use crate::same::place_before;
use crate::scaffold::scaffold;
use container_model::{Entry, Handle, Why};
use key_extract::Row;
use std::alloc::{AllocError, Global};
use table_records::NotAdded;
use table_schema::{IndexSpec, TableSpec};
use table_step::Table;

// An equal index, newly allocated.
fn copy_index(index: &IndexSpec) -> Result<IndexSpec, AllocError>
    ensures { IfOk result (λ copy. copy ≡ index.now) }
{
    Ok(IndexSpec {
        name: index.name.copy()?,
        kind: index.kind,
        unique: index.unique,
        key: index.key.as_ref().map(|key| key.copy()),
    })
}

// Why an index is not added.
fn why_not(why: NotAdded, place: usize) -> Unalterable
    ensures { result ≡ of_not_added place why }
{
    match why {
        NotAdded::Memory => Unalterable::Memory,
        NotAdded::Refused { why, .. } => match why {
            Why::Memory => Unalterable::Memory,
            Why::Clash { first, second } => Unalterable::Clash {
                index: place,
                first,
                second,
            },
            _ => Unalterable::Unfit,
        },
    }
}

// The order that an index of this place has which is added to these records.
fn new_order(
    alloc: Global,
    after: &TableSpec,
    place: usize,
    writes: u64,
    entries: &[Entry<Row>],
) -> Result<Vec<Handle>, Unalterable>
    requires { place < length after.now.indices }
    ensures order { IfOk result (λ order. order.items ≡ the_new_order entries.now (index_at after.now place)) }
    ensures why { IfErr result (IsClash entries.now place (index_at after.now place)) }
{
    let index = &after.indices()[place];
    let mut records = scaffold(alloc, after, index.name.as_str(), writes, entries)?;
    if let Err(why) = records.add_index(copy_index(index)?) {
        return Err(why_not(why, place));
    }
    match records.container().view(1) {
        Ok(order) => Ok(order),
        Err(_) => Err(Unalterable::Memory),
    }
}

// The order of an index: its own where it stood before.
fn order_of(
    alloc: Global,
    table: &Table,
    after: &TableSpec,
    place: usize,
    entries: &[Entry<Row>],
) -> Result<Vec<Handle>, Unalterable>
    requires { place < length after.now.indices }
    ensures order { IfOk result (λ order. order.items ≡ the_order_of table.now after.now entries.now (index_at after.now place)) }
    ensures why { IfErr result (IsClash entries.now place (index_at after.now place)) }
{
    let records = table.records();
    let container = records.container();
    match place_before(records.spec(), after, &after.indices()[place]) {
        Some(before) => match container.view(before) {
            Ok(order) => Ok(order),
            Err(_) => Err(Unalterable::Memory),
        },
        None => new_order(alloc, after, place, container.writes(), entries),
    }
}

/// The orders of all indices.
pub(crate) fn orders_of(
    alloc: Global,
    table: &Table,
    after: &TableSpec,
    entries: &[Entry<Row>],
) -> Result<Vec<Vec<Handle>>, Unalterable>
    ensures orders { IfOk result (λ orders. map (λ order. order.items) orders.items ≡ map (the_order_of table.now after.now entries.now) after.now.indices) }
    ensures why { IfErr result (IsSomeClash entries.now after.now) }
{
    let count = after.indices().len();
    let mut orders = Vec::with_capacity(alloc, count)?;
    for place in 0..count {
        orders.push(order_of(alloc, table, after, place, entries)?)?;
    }
    Ok(orders)
}
