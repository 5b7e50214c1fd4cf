//! What a call answers.

ghost use Rattle.std.specs.Prelude.{◌≡◌};
ghost use Rattle.tables_c.specs.Calls.{number_of};
ghost use Rattle.tables_c.specs.Rows.{refusal_number};

use container_model::Why;
use table_schema::SchemaFault;

/// Done.
pub const OK: u8 = 0;

/// Memory was refused.
pub const MEMORY: u8 = 1;

/// The schema is no TOML.
pub const TOML: u8 = 2;

/// A key of the schema is missing or unknown, or its value is of another type.
pub const SHAPE: u8 = 3;

/// A number of the schema is outside its limits.
pub const LIMIT: u8 = 4;

/// A name of the schema is none, or stands twice.
pub const NAME: u8 = 5;

/// An index of the schema has a key that it may not have, or lacks the one that it needs.
pub const KEY: u8 = 6;

/// The handle is open where it is to be closed, or closed where it is to be open.
pub const HANDLE: u8 = 7;

/// What waits is longer than the room for it.
pub const ROOM: u8 = 8;

/// There is no such record.
pub const NONE: u8 = 9;

/// The cells are no row of the table.
pub const ROW: u8 = 10;

/// The cells are no search key of the index.
pub const SEARCH: u8 = 11;

/// No index has the number, or it is of a kind that has no such call.
pub const KIND: u8 = 12;

/// The handle names no record.
pub const STALE: u8 = 13;

/// A record is in the way at a unique index.
pub const BANNED: u8 = 14;

/// The record was taken out, as another is in its way at a unique index.
pub const LOST: u8 = 15;

/// There are as many records as there may be.
pub const FULL: u8 = 16;

/// The last change has the greatest number.
pub const SPENT: u8 = 17;

/// No table of the schema has the number.
pub const TABLE: u8 = 18;

/// The place is greater than the number of records.
pub const PLACE: u8 = 19;

/// A file or the folder can't be opened, read, made, written or synced.
pub const DEVICE: u8 = 20;

/// Another program has the folder.
pub const TAKEN: u8 = 21;

/// The folder has a table of this name with another declaration.
pub const OTHER: u8 = 22;

/// What stands in the folder is not whole, or is not of these tables.
pub const HURT: u8 = 23;

/// A log can't be written or synced, now or before.
pub const LOG: u8 = 24;

// The status of a fault.
pub(crate) fn number_of(fault: SchemaFault) -> u8
    ensures { result ≡ number_of fault }
{
    match fault {
        SchemaFault::Memory => MEMORY,
        SchemaFault::Toml => TOML,
        SchemaFault::Shape => SHAPE,
        SchemaFault::Limit => LIMIT,
        SchemaFault::Name => NAME,
        SchemaFault::Key => KEY,
    }
}

// The status of a refusal. The last three are of no call that is made here.
pub(crate) fn refusal_number(why: Why) -> u8
    ensures { result ≡ refusal_number why }
{
    match why {
        Why::Stale => STALE,
        Why::Banned { .. } => BANNED,
        Why::Full => FULL,
        Why::Spent => SPENT,
        Why::Memory => MEMORY,
        Why::Place => PLACE,
        Why::Kind | Why::Definition | Why::Order | Why::Clash { .. } => KIND,
    }
}
