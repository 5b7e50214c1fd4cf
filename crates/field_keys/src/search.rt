//! Searches by keys, and by leading parts of them.
ghost use Rattle.std.specs.Prelude.{◌≡◌, ◌<◌, ◌≤◌, ◌++◌, ◌∷◌, [], true, false, length, map, slice_index_or};
ghost use Rattle.key_extract.specs.declared.cell.Cell.TheVariants.{Null};
ghost use Rattle.field_keys.specs.Fields.{cell_of};
ghost use Rattle.field_keys.specs.Values.{value_cell};

use crate::field::Field;
use arrayvec::ArrayVec;
use key_extract::Text;
use std::marker::Model;

/// A value to search for in one column, which owns its text.
#[derive(Debug, Default, Drop)]
pub enum Value {
    /// No value.
    #[default]
    Absent,
    /// A whole number.
    Number(i128),
    /// A text.
    Text(Text),
    /// A truth value.
    Truth(bool),
}

impl Value {
    // The value as a field, as long as it is borrowed.
    pub(crate) fn field(&self) -> Field<'_>
        ensures { cell_of result ≡ value_cell self.now }
    {
        match self {
            Value::Absent => Field::Absent,
            Value::Number(number) => Field::Number(*number),
            Value::Text(text) => Field::Text(text.as_str()),
            Value::Truth(truth) => Field::Truth(*truth),
        }
    }
}

/// A search for the records whose key has these values, one to four, one for each part, in their order. It is for a whole key, in
/// which the parts that have no value are absent, or for leading parts alone. Values that the key has no part for do not count.
#[derive(Drop)]
pub struct Search {
    values: ArrayVec<Value, 4>,
    leading: bool,
}

impl Model for Search {
    ghost use Rattle.std.specs.Prelude.{map};
    ghost use Rattle.field_keys.specs.Values.{value_cell};
    ghost use Rattle.field_keys.specs.Sought.{Sought};

    ghost Value = { Sought };

    ghost view = { λ s. record { leading = s.leading; cells = map value_cell s.values.items } };
}

impl Search {
    /// A search for a whole key, whose first part has this value. O(1).
    pub fn of(value: Value) -> Search
        ensures { result ≡ record { leading = false; cells = value_cell value ∷ [] } }
    {
        let mut values = ArrayVec::new();
        values.push(value);
        Search {
            values,
            leading: false,
        }
    }

    /// The search for one value more, that of the next part. A search has room for four. O(1).
    pub fn and(self, value: Value) -> Search
        requires { length self.cells < 4 }
        ensures { result ≡ record self { cells = self.cells ++ value_cell value ∷ [] } }
    {
        let mut values = self.values;
        values.push(value);
        Search {
            values,
            leading: self.leading,
        }
    }

    /// The search for all keys whose leading parts have these values. O(1).
    pub fn leading(self) -> Search
        ensures { result ≡ record self { leading = true } }
    {
        Search {
            values: self.values,
            leading: true,
        }
    }

    /// Whether it is for leading parts alone. O(1).
    pub fn is_leading(&self) -> bool
        ensures { result ≡ self.now.leading }
    {
        self.leading
    }

    /// The values, in the order of the parts. O(1).
    pub fn values(&self) -> &[Value]
        ensures value { map value_cell result.now ≡ self.now.cells }
        ensures few { length self.now.cells ≤ 4 }
    {
        self.values.as_slice()
    }
}

// The value of a part, from 0. One that is left out is absent.
pub(crate) fn field_at(values: &[Value], place: usize) -> Field<'_>
    ensures { cell_of result ≡ slice_index_or (map value_cell values.now) place Null }
{
    if place < values.len() {
        values[place].field()
    } else {
        Field::Absent
    }
}
