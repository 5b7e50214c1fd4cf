//! Names of a first row, and the columns that they name.

ghost use Rattle.std.specs.Prelude.{◌≡◌};
ghost use Rattle.table_rows.specs.Header.{has_column, has_twice, missing_in, place_in, unknown_in};

use table_schema::{Column, Text};

/// The place of the first of these names that is this one. O(names).
pub fn place_in(names: &[Text], name: &str) -> Option<usize>
    ensures { result ≡ place_in names.now name.now }
{
    names.iter().position(|other| other.as_str() == name)
}

// Whether a column has this name.
fn has_column(columns: &[Column], name: &str) -> bool
    ensures { result ≡ has_column columns.now name.now }
{
    columns.iter().any(|column| column.name.as_str() == name)
}

/// The place of the first name that is that of no column. O(names · columns).
pub fn unknown_in(columns: &[Column], names: &[Text]) -> Option<usize>
    ensures { result ≡ unknown_in columns.now names.now }
{
    names
        .iter()
        .position(|name| !has_column(columns, name.as_str()))
}

/// The place of the first column that can't be null and is not named. O(names · columns).
pub fn missing_in(columns: &[Column], names: &[Text]) -> Option<usize>
    ensures { result ≡ missing_in columns.now names.now }
{
    columns.iter().position(|column| !column.null
        && place_in(names, column.name.as_str()).is_none())
}

/// Whether there are more names than columns that are named: where each is that of a column, one stands twice. O(names · columns).
pub fn has_twice(columns: &[Column], names: &[Text]) -> bool
    ensures { result ≡ has_twice columns.now names.now }
{
    let named = columns
        .iter()
        .filter(|column| place_in(names, column.name.as_str()).is_some())
        .count();
    names.len() > named
}
