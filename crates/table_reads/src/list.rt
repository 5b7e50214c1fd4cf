//! Listing records.

ghost use Rattle.std.specs.Prelude.{◌<◌, length};
ghost use Rattle.table_reads.specs.Found.{Reads};
ghost use Rattle.table_reads.specs.Reads.{list_in, list_step};

use crate::found::{Found, Refusal};
use key_extract::Text;
use table_records::Records;
use table_terms::{Kinds, index_named};

/// Finds the records of the named index, in its order.
pub(crate) fn list<'a>(records: &'a Records, name: &Text) -> Result<Found<'a>, Refusal>
    ensures { Reads records.now result (list_step records.now name.now) }
{
    let index = index_named(records.spec().indices(), Kinds::All, name.as_str())?;
    list_in(records, index)
}

fn list_in<'a>(records: &'a Records, index: usize) -> Result<Found<'a>, Refusal>
    requires { index < length records.now.shape.indices }
    ensures { Reads records.now result (list_in records.now index) }
{
    let handles = records.container().view(index)?;
    Ok(Found::Records(handles))
}
