//! What a line asks for.

ghost use Rattle.std.specs.Prelude.{◌≡◌};
ghost use Rattle.table_cmd.specs.Command.{added_in, set_in, table_in};

use crate::items::Items;
use container_model::{Handle, Kind};
use key_extract::{Cell, Text};

/// A value of a command.
#[derive(Debug, Drop)]
pub enum Value {
    /// Null, a whole number of 64 bits with its sign, a text or a truth value.
    Cell(Cell),
    /// JSON that is a cell of no type: an array, an object, a number with a fraction or an exponent, `-0`, or
    /// a whole number beyond 64 bits.
    Other,
}

/// A value under the name of its column.
#[derive(Debug, Drop)]
pub struct Field {
    /// The name, which may be that of no column.
    pub name: Text,
    /// The value, which may be no cell of the column's type.
    pub value: Value,
}

/// The fields of a row. Those that were read from a line are in ascending order of their names' bytes, each name once.
pub type Fields = Items<Field>;

/// The values of a key, or of its leading parts, first part first.
pub type Key = Items<Value>;

/// Where a range of an index ends on one side, by the keys that are this one or begin with it.
#[derive(Debug, Drop)]
pub enum KeyBound {
    /// They are still in the range.
    Included(Key),
    /// They are no longer in the range.
    Excluded(Key),
    /// There is no bound on this side.
    Unbounded,
}

/// What a modification does to the cells of a record.
#[derive(Debug, Drop)]
pub enum Changes {
    /// Each of these cells becomes the value.
    Set(Fields),
    /// To each of these cells the value is added.
    Add(Fields),
    /// Some cells become a value, and to others one is added.
    Both { set: Fields, add: Fields },
}

impl Changes {
    /// The cells that become a value, as long as they are borrowed. O(1).
    pub fn set(&self) -> &[Field]
        ensures { result.now ≡ set_in self.now }
    {
        match self {
            Changes::Set(set) | Changes::Both { set, .. } => set.as_slice(),
            Changes::Add(_) => &[],
        }
    }

    /// The cells to which a value is added, as long as they are borrowed. O(1).
    pub fn added(&self) -> &[Field]
        ensures { result.now ≡ added_in self.now }
    {
        match self {
            Changes::Add(add) | Changes::Both { add, .. } => add.as_slice(),
            Changes::Set(_) => &[],
        }
    }
}

/// What a text that should spell a handle says: `slot:stamp`, both decimal, with no sign and no leading zeros, the slot
/// at most 4294967295 and the stamp at most 18446744073709551615.
#[derive(Clone, Copy, Debug, PartialEq, Eq)]
pub enum HandleText {
    /// The handle that it spells, which may be that of no record.
    Handle(Handle),
    /// The text spells no handle.
    Bad,
}

/// Handles in an order, as texts say them.
pub type Handles = Items<HandleText>;

/// Names of columns in an order, each perhaps with a `-` before it.
pub type Names = Items<Text>;

/// Where an insertion goes at one index: before the record of a place.
#[derive(Debug, Drop)]
pub struct Position {
    /// The name of the index.
    pub index: Text,
    /// The place, counted from 0 at the front. It may be past the last record.
    pub place: u64,
}

/// A command on one table, with the names that the line gave: they may be those of no table, index or column.
#[derive(Debug, Drop)]
pub enum Command {
    /// A new record with this row. With a position it goes there at that index, and without one last at each sequence.
    Insert {
        table: Text,
        row: Fields,
        position: Option<Position>,
    },
    /// This row in place of a record's.
    Replace {
        table: Text,
        handle: HandleText,
        row: Fields,
    },
    /// A record's cells change. Where another record has the new key at a unique index, the record goes, or with `rollback`
    /// it stays as it was.
    Modify {
        table: Text,
        handle: HandleText,
        changes: Changes,
        rollback: bool,
    },
    /// A record gets this key at the index, whole. Where another record has the new key at a unique index, the record
    /// goes, or with `rollback` it stays as it was.
    ModifyKey {
        table: Text,
        index: Text,
        handle: HandleText,
        key: Key,
        rollback: bool,
    },
    /// A record goes. With an index, the record after it there is asked for.
    Erase {
        table: Text,
        handle: HandleText,
        index: Option<Text>,
    },
    /// All records go whose key at the index is or begins with this one.
    EraseKey {
        table: Text,
        index: Text,
        key: Key,
    },
    /// All records go.
    Clear {
        table: Text,
    },
    /// A record of a sequence goes before the record that is at a place, counted from 0. The place may be past the last
    /// record.
    Move {
        table: Text,
        index: Text,
        handle: HandleText,
        place: u64,
    },
    /// The records of a sequence in the order of their handles here, each of which must be named once.
    Rearrange {
        table: Text,
        index: Text,
        handles: Handles,
    },
    /// The records of a sequence in the opposite order.
    Reverse {
        table: Text,
        index: Text,
    },
    /// The records of a sequence in ascending order of these columns, or descending where a name has a `-`. Records that
    /// are equal in all of them stay as they stand.
    Sort {
        table: Text,
        index: Text,
        by: Names,
    },
    /// A new index of this name, the last of the table's; where it is unique, no two records may have one key there. Its key,
    /// if it has one, is of these columns, descending where a name has a `-`.
    AddIndex {
        table: Text,
        index: Text,
        kind: Kind,
        unique: bool,
        key: Option<Names>,
    },
    /// The index goes, and its name is free.
    DropIndex {
        table: Text,
        index: Text,
    },
    /// The record of a handle.
    Get {
        table: Text,
        handle: HandleText,
    },
    /// How many records there are.
    Size {
        table: Text,
    },
    /// The first record at the index whose key is or begins with this one.
    Find {
        table: Text,
        index: Text,
        key: Key,
    },
    /// How many records at the index have a key that is or begins with this one.
    Count {
        table: Text,
        index: Text,
        key: Key,
    },
    /// The first record at the index whose key does not come before this one, or its leading part.
    Lower {
        table: Text,
        index: Text,
        key: Key,
    },
    /// The first record at the index whose key, or leading part, comes after this one.
    Upper {
        table: Text,
        index: Text,
        key: Key,
    },
    /// The records at the index between two bounds, in its order.
    Range {
        table: Text,
        index: Text,
        low: KeyBound,
        high: KeyBound,
    },
    /// The record at a place of the index, counted from 0.
    Nth {
        table: Text,
        index: Text,
        place: u64,
    },
    /// How many records stand before a record at the index; before the end all do.
    Rank {
        table: Text,
        index: Text,
        position: Option<HandleText>,
    },
    /// The place of a record at the index, counted from 0.
    Place {
        table: Text,
        index: Text,
        handle: HandleText,
    },
    /// How many records stand before the one that `Find` answers; all where it answers none.
    FindRank {
        table: Text,
        index: Text,
        key: Key,
    },
    /// How many records stand before the one that `Lower` answers; all where it answers none.
    LowerRank {
        table: Text,
        index: Text,
        key: Key,
    },
    /// How many records stand before the one that `Upper` answers; all where it answers none.
    UpperRank {
        table: Text,
        index: Text,
        key: Key,
    },
    /// The record after another at the index. After the last comes the end, and after the end the end.
    Next {
        table: Text,
        index: Text,
        position: Option<HandleText>,
    },
    /// The record before another at the index. Before the end comes the last, and before the first the end.
    Prev {
        table: Text,
        index: Text,
        position: Option<HandleText>,
    },
    /// All records, in the order of the index.
    List {
        table: Text,
        index: Text,
    },
}

impl Command {
    /// The table's name. O(1).
    pub fn table(&self) -> &str
        ensures { result.now ≡ table_in self.now }
    {
        match self {
            Command::Insert { table, .. }
            | Command::Replace { table, .. }
            | Command::Modify { table, .. }
            | Command::ModifyKey { table, .. }
            | Command::Erase { table, .. }
            | Command::EraseKey { table, .. }
            | Command::Clear { table }
            | Command::Move { table, .. }
            | Command::Rearrange { table, .. }
            | Command::Reverse { table, .. }
            | Command::Sort { table, .. }
            | Command::AddIndex { table, .. }
            | Command::DropIndex { table, .. }
            | Command::Get { table, .. }
            | Command::Size { table }
            | Command::Find { table, .. }
            | Command::Count { table, .. }
            | Command::Lower { table, .. }
            | Command::Upper { table, .. }
            | Command::Range { table, .. }
            | Command::Nth { table, .. }
            | Command::Rank { table, .. }
            | Command::Place { table, .. }
            | Command::FindRank { table, .. }
            | Command::LowerRank { table, .. }
            | Command::UpperRank { table, .. }
            | Command::Next { table, .. }
            | Command::Prev { table, .. }
            | Command::List { table, .. } => table.as_str(),
        }
    }
}
