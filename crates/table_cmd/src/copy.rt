//! Copies of commands.

ghost use Rattle.std.specs.Prelude.{◌≡◌, IfOk, Ok, true};
ghost use Rattle.table_cmd.specs.Command.{is_index_change, is_keyed, is_row_change, is_sequence_change, is_unkeyed_read};

use crate::command::Command;
use crate::groups::by_group;
use crate::part::CommandPart;
use std::alloc::AllocError;

// A copy of a part with the copies of those behind it: all or none. What was copied before memory ran out is let go here, where its
// type is not known. A drop of a known type would be written out, and proved, at each call.
fn copy_before<A: CommandPart + Drop, B: Drop>(
    part: &A,
    copies: Result<B, AllocError>,
) -> Result<(A, B), AllocError>
    ensures { IfOk result (λ all. (all.0 ≡ part.now) × (copies ≡ Ok all.1)) }
{
    let copies = copies?;
    Ok((part.copy()?, copies))
}

// Copies of parts, each paired with those behind it.
macro_rules! copies {
    ($part:ident) => { $part.copy() };
    ($part:ident, $($behind:ident),*) => { copy_before($part, copies!($($behind),*)) };
}

// The names of such copies.
macro_rules! copied {
    ($part:ident) => { $part };
    ($part:ident, $($behind:ident),*) => { ($part, copied!($($behind),*)) };
}

// A copy of a command that is one of these.
macro_rules! copy_among {
    ($command:expr; $($op:ident { $($part:ident),* })*) => {
        match $command {
            $(Command::$op { $($part),* } => {
                let copied!($($part),*) = copies!($($part),*)?;
                Ok(Command::$op { $($part),* })
            })*
            _ => unreachable!(),
        }
    };
}

impl Command {
    /// An equal command, newly allocated. O(length of all texts + parts).
    pub fn copy(&self) -> Result<Command, AllocError>
        ensures { IfOk result (λ copy. copy ≡ self.now) }
    {
        by_group!(
            self;
            self.copy_row_change(),
            self.copy_sequence_change(),
            self.copy_index_change(),
            self.copy_keyed(),
            self.copy_read()
        )
    }

    // The same of a change of one record.
    fn copy_row_change(&self) -> Result<Command, AllocError>
        requires { is_row_change self.now ≡ true }
        ensures { IfOk result (λ copy. copy ≡ self.now) }
    {
        copy_among! { self;
            Insert { table, row, position }
            Replace { table, handle, row }
            Modify { table, handle, changes, rollback }
            ModifyKey { table, index, handle, key, rollback }
            Erase { table, handle, index }
        }
    }

    // The same of a change of a sequence or of the whole table.
    fn copy_sequence_change(&self) -> Result<Command, AllocError>
        requires { is_sequence_change self.now ≡ true }
        ensures { IfOk result (λ copy. copy ≡ self.now) }
    {
        copy_among! { self;
            Clear { table }
            Move { table, index, handle, place }
            Rearrange { table, index, handles }
            Reverse { table, index }
            Sort { table, index, by }
        }
    }

    // The same of a change of the table's indices.
    fn copy_index_change(&self) -> Result<Command, AllocError>
        requires { is_index_change self.now ≡ true }
        ensures { IfOk result (λ copy. copy ≡ self.now) }
    {
        copy_among! { self;
            AddIndex { table, index, kind, unique, key }
            DropIndex { table, index }
        }
    }

    // The same of a command by a key.
    fn copy_keyed(&self) -> Result<Command, AllocError>
        requires { is_keyed self.now ≡ true }
        ensures { IfOk result (λ copy. copy ≡ self.now) }
    {
        copy_among! { self;
            EraseKey { table, index, key }
            Find { table, index, key }
            Count { table, index, key }
            Lower { table, index, key }
            Upper { table, index, key }
            FindRank { table, index, key }
            LowerRank { table, index, key }
            UpperRank { table, index, key }
        }
    }

    // The same of a read that has no key.
    fn copy_read(&self) -> Result<Command, AllocError>
        requires { is_unkeyed_read self.now ≡ true }
        ensures { IfOk result (λ copy. copy ≡ self.now) }
    {
        copy_among! { self;
            Get { table, handle }
            Size { table }
            Range { table, index, low, high }
            Nth { table, index, place }
            Rank { table, index, position }
            Place { table, index, handle }
            Next { table, index, position }
            Prev { table, index, position }
            List { table, index }
        }
    }
}
