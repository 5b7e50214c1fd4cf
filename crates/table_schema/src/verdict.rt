//! Tests drafts, and makes a schema of them.
ghost use Rattle.table_schema.specs.Meaning.{GivesSchema, tested};

use crate::draft::DraftTable;
use crate::fault::SchemaFault;
use crate::limits::is_within_limits;
use crate::names::have_good_names;
use crate::resolve;
use crate::schema::Schema;
use std::alloc::Global;

/// The schema that the drafts say, with a column's place for each name in a key. `Limit`, `Name` and `Key` are each tested over
/// all drafts before the next.
///
/// O(length of the drafts); names and keys are compared only within the limits.
#[tactic(auto, unfolding(crate::specs::Meaning::tested))]
pub fn schema_of_drafts(alloc: Global, drafts: &[DraftTable]) -> Result<Schema, SchemaFault>
    ensures { GivesSchema result (tested drafts.now) }
{
    if !is_within_limits(drafts) {
        return Err(SchemaFault::Limit);
    }
    if !have_good_names(drafts) {
        return Err(SchemaFault::Name);
    }
    match resolve::tables(alloc, drafts)? {
        Some(tables) => Ok(Schema::new(tables)),
        None => Err(SchemaFault::Key),
    }
}
