//! Records by their fields, and keys of them from a table.

ghost use Rattle.std.specs.Prelude.{ℕ, IsTrue};

use crate::book::INDICES;
use crate::keys::{Key, Keys};
use crate::record::Record;
use field_keys::{Field, FieldKeys, Fields, KeyPart, Search, Value, unsigned};
use key_extract::Extract;
use std::alloc::{AllocError, Global};

impl Fields for Record {
    ghost use Rattle.std.specs.Prelude.{◌∷◌, []};
    ghost use Rattle.field_keys.specs.Row.{unsigned};

    ghost row_of = { λ row. unsigned row.id ∷ unsigned row.price ∷ unsigned row.owner ∷ [] };

    fn field(&self, column: usize) -> Option<Field<'_>> {
        match column {
            0 => Some(unsigned(self.id)),
            1 => Some(unsigned(self.price)),
            2 => Some(unsigned(self.owner)),
            _ => None,
        }
    }
}

const ID: &[KeyPart] = &[KeyPart::Rising(0)];

const PRICE: &[KeyPart] = &[KeyPart::Rising(1)];

const OWNER: &[KeyPart] = &[KeyPart::Rising(2)];

const OWNER_AND_PRICE: &[KeyPart] = &[KeyPart::Rising(2), KeyPart::Falling(1)];

// The keys of the indices of books.
const COLUMNS: &[&[KeyPart]] = &[
    &[],
    &[],
    PRICE,
    ID,
    OWNER,
    ID,
    OWNER_AND_PRICE,
    &[],
    OWNER,
    OWNER,
];

/// Keys that can be searched by those of a record.
pub(crate) trait Seek: Extract<Record> + Drop + 'static {
    /// The keys of so many of the indices of books, from one on.
    fn of_indices(alloc: Global, first: usize, count: usize) -> Result<Self, AllocError>;

    /// A search for the records that have the key of this one. It fits each index.
    fn sought(key: Key, record: &Record) -> Self::Probe
        ensures fits { (keys : Self) (index : ℕ) → IsTrue (Self.does_fit keys index result) }
        ensures whole { (keys : Self) (index : ℕ) → IsTrue (Self.is_whole keys index result) };
}

impl Seek for Keys {
    fn of_indices(alloc: Global, first: usize, count: usize) -> Result<Keys, AllocError> {
        let mut keys = Vec::new(alloc);
        for (_, _, key) in INDICES.iter().copied().skip(first).take(count) {
            keys.push(key)?;
        }
        Ok(Keys::new(keys))
    }

    fn sought(key: Key, record: &Record) -> (u64, u64) {
        key.numbers(record)
    }
}

impl Seek for FieldKeys {
    fn of_indices(_alloc: Global, first: usize, count: usize) -> Result<FieldKeys, AllocError> {
        let end = first.saturating_add(count);
        Ok(FieldKeys::new(COLUMNS.get(first..end).unwrap_or(&[])))
    }

    fn sought(key: Key, record: &Record) -> Search {
        match key {
            Key::Nothing => Search::of(Value::Absent),
            Key::Id => Search::unsigned(record.id),
            Key::Price => Search::unsigned(record.price),
            Key::Owner => Search::unsigned(record.owner),
            Key::OwnerAndPrice => {
                Search::unsigned(record.owner).and(Value::Number(record.price.into()))
            }
        }
    }
}
