//! Showing a record.

ghost use Rattle.table_reads.specs.Found.{Reads};
ghost use Rattle.table_reads.specs.Reads.{get_step};

use crate::found::{Found, Refusal};
use table_cmd::HandleText;
use table_records::Records;
use table_reply::Record;
use table_terms::handle_for;

/// Finds the record of the handle that a text spells.
#[tactic(auto, unfolding(crate::specs::Reads::get_record))]
pub(crate) fn get<'a>(records: &'a Records, text: HandleText) -> Result<Found<'a>, Refusal>
    ensures { Reads records.now result (get_step records.now text) }
{
    let handle = handle_for(text)?;
    let row = records.container().get(handle)?;
    Ok(Found::Record(Record { handle, row }))
}
