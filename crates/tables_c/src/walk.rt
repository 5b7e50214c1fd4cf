//! Walks along an index, and places there.

ghost use Rattle.std.specs.Prelude.{◌≡◌, IsTrue};
ghost use Rattle.tables_c.specs.Rows.{first, is_walked, nth_step, number_told, place_step, rank_step, walk_step, walked};

use crate::status::{KIND, OK, refusal_number};
use crate::told::Told;
use container_model::{Handle, Kind, Why};
use table_records::Records;

/// Which record of an index is asked for.
#[derive(Clone, Copy, Debug, PartialEq, Eq)]
pub(crate) enum Walk {
    /// The first one.
    First,
    /// The last one.
    Last,
    /// The one after a record.
    Next(Handle),
    /// The one before a record.
    Previous(Handle),
}

// Whether there is an index of the number whose records have an order.
fn is_walked(records: &Records, index: usize) -> bool
    ensures { result ≡ is_walked records.now index }
{
    let indices = records.spec().indices();
    index < indices.len() && indices[index].kind != Kind::Hashed
}

// The first record of an index.
fn first(records: &Records, index: usize) -> Option<Handle>
    requires { IsTrue (is_walked records.now index) }
    ensures { result ≡ first records.now.records index }
{
    match records.container().iter(index).next() {
        Some((handle, _)) => Some(handle),
        None => None,
    }
}

fn walked(records: &Records, index: usize, walk: Walk) -> Result<Option<Handle>, Why>
    requires { IsTrue (is_walked records.now index) }
    ensures { result ≡ walked records.now.records index walk }
{
    let container = records.container();
    match walk {
        Walk::First => Ok(first(records, index)),
        Walk::Last => container.project_prev(index, None),
        Walk::Next(handle) => container.project_next(index, Some(handle)),
        Walk::Previous(handle) => container.project_prev(index, Some(handle)),
    }
}

/// Finds a record of the index of a number.
pub(crate) fn walk_step(records: &Records, index: usize, walk: Walk) -> Told
    ensures { result ≡ walk_step records.now index walk }
{
    if is_walked(records, index) {
        Told::found(walked(records, index, walk))
    } else {
        Told::status(KIND)
    }
}

/// Finds the record at a place of the index of a number.
pub(crate) fn nth_step(records: &Records, index: usize, place: u64) -> Told
    ensures { result ≡ nth_step records.now index place }
{
    Told::found(records.container().nth(index, place))
}

/// The number, or why there is none.
pub(crate) fn number_told(found: Result<u64, Why>) -> (u8, u64)
    ensures { result ≡ number_told found }
{
    match found {
        Ok(number) => (OK, number),
        Err(why) => (refusal_number(why), 0),
    }
}

/// Finds the rank of a record in the index of a number.
pub(crate) fn rank_step(records: &Records, index: usize, handle: Handle) -> (u8, u64)
    ensures { result ≡ rank_step index handle records.now }
{
    number_told(records.container().rank(index, Some(handle)))
}

/// Finds the place of a record in the index of a number.
pub(crate) fn place_step(records: &Records, index: usize, handle: Handle) -> (u8, u64)
    ensures { result ≡ place_step index handle records.now }
{
    number_told(records.container().place_of(index, handle))
}
