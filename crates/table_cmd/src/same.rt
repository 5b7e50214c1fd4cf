//! Whether commands are the same.

ghost use Rattle.std.specs.Prelude.{◌≡◌, ◌↔◌, IsTrue, true};
ghost use Rattle.table_cmd.specs.Command.{is_index_change, is_keyed, is_row_change, is_sequence_change, is_unkeyed_read};

use crate::command::Command;
use crate::groups::by_group;
use crate::part::CommandPart;

// Whether a command that is one of these is the same as the other, part by part. Beside each part stands a name for the other's.
macro_rules! same_among {
    ($command:expr, $other:expr; $($op:ident { $($part:ident: $others:ident),* })*) => {
        match $command {
            $(Command::$op { $($part),* } => match $other {
                Command::$op { $($part: $others),* } => $($part.is_same($others))&&*,
                _ => false,
            },)*
            _ => unreachable!(),
        }
    };
}

impl Command {
    /// Whether the commands are the same, part by part. O(length of all texts + parts).
    pub fn is_same(&self, other: &Command) -> bool
        ensures { IsTrue result ↔ (self.now ≡ other.now) }
    {
        by_group!(
            self;
            self.is_same_row_change(other),
            self.is_same_sequence_change(other),
            self.is_same_index_change(other),
            self.is_same_keyed(other),
            self.is_same_read(other)
        )
    }

    // The same of a change of one record.
    fn is_same_row_change(&self, other: &Command) -> bool
        requires { is_row_change self.now ≡ true }
        ensures { IsTrue result ↔ (self.now ≡ other.now) }
    {
        same_among! { self, other;
            Insert { table: other_table, row: other_row, position: other_position }
            Replace { table: other_table, handle: other_handle, row: other_row }
            Modify { table: other_table, handle: other_handle, changes: other_changes, rollback: other_rollback }
            ModifyKey { table: other_table, index: other_index, handle: other_handle, key: other_key, rollback: other_rollback }
            Erase { table: other_table, handle: other_handle, index: other_index }
        }
    }

    // The same of a change of a sequence or of the whole table.
    fn is_same_sequence_change(&self, other: &Command) -> bool
        requires { is_sequence_change self.now ≡ true }
        ensures { IsTrue result ↔ (self.now ≡ other.now) }
    {
        same_among! { self, other;
            Clear { table: other_table }
            Move { table: other_table, index: other_index, handle: other_handle, place: other_place }
            Rearrange { table: other_table, index: other_index, handles: other_handles }
            Reverse { table: other_table, index: other_index }
            Sort { table: other_table, index: other_index, by: other_by }
        }
    }

    // The same of a change of the table's indices.
    fn is_same_index_change(&self, other: &Command) -> bool
        requires { is_index_change self.now ≡ true }
        ensures { IsTrue result ↔ (self.now ≡ other.now) }
    {
        same_among! { self, other;
            AddIndex { table: other_table, index: other_index, kind: other_kind, unique: other_unique, key: other_key }
            DropIndex { table: other_table, index: other_index }
        }
    }

    // The same of a command by a key.
    fn is_same_keyed(&self, other: &Command) -> bool
        requires { is_keyed self.now ≡ true }
        ensures { IsTrue result ↔ (self.now ≡ other.now) }
    {
        same_among! { self, other;
            EraseKey { table: other_table, index: other_index, key: other_key }
            Find { table: other_table, index: other_index, key: other_key }
            Count { table: other_table, index: other_index, key: other_key }
            Lower { table: other_table, index: other_index, key: other_key }
            Upper { table: other_table, index: other_index, key: other_key }
            FindRank { table: other_table, index: other_index, key: other_key }
            LowerRank { table: other_table, index: other_index, key: other_key }
            UpperRank { table: other_table, index: other_index, key: other_key }
        }
    }

    // The same of a read that has no key.
    fn is_same_read(&self, other: &Command) -> bool
        requires { is_unkeyed_read self.now ≡ true }
        ensures { IsTrue result ↔ (self.now ≡ other.now) }
    {
        same_among! { self, other;
            Get { table: other_table, handle: other_handle }
            Size { table: other_table }
            Range { table: other_table, index: other_index, low: other_low, high: other_high }
            Nth { table: other_table, index: other_index, place: other_place }
            Rank { table: other_table, index: other_index, position: other_position }
            Place { table: other_table, index: other_index, handle: other_handle }
            Next { table: other_table, index: other_index, position: other_position }
            Prev { table: other_table, index: other_index, position: other_position }
            List { table: other_table, index: other_index }
        }
    }
}
