//! Cells as fields of a row.

ghost use Rattle.std.specs.Prelude.{◌≡◌, ◌++◌, ◌∷◌, [], OnOk};
ghost use Rattle.csv.specs.Records.{fields_of, partial_of};
ghost use Rattle.table_rows.specs.Csv.{field_of, field_of_text, is_marked};

use csv::ByteRecord;
use itoa::Buffer;
use key_extract::Cell;
use std::alloc::{AllocError, Global};
use table_schema::Column;

/// What stands before a text that begins so itself, or is empty, in a column that may be null.
const MARK: &str = "\\";

// Whether a text gets a mark.
fn is_marked(text: &str) -> bool
    ensures { result ≡ is_marked text.now }
{
    text.is_empty() || text.starts_with('\\')
}

// Puts the field of a text behind those that are there.
fn push_text(alloc: Global, row: &mut ByteRecord, null: bool, text: &str) -> Result<(), AllocError>
    requires { partial_of row.old ≡ [] }
    ensures fields { OnOk result (fields_of row.new ≡ fields_of row.old ++ field_of_text null text.now ∷ []) }
    ensures partial { OnOk result (partial_of row.new ≡ []) }
{
    if !(null && is_marked(text)) {
        return row.push_field(text.as_bytes());
    }
    let mut marked = String::from_str(alloc, MARK)?;
    marked.push_str(text)?;
    row.push_field(marked.as_bytes())
}

/// Puts the field of a cell behind those that are there.
pub(crate) fn push_cell(
    alloc: Global,
    row: &mut ByteRecord,
    column: &Column,
    cell: &Cell,
) -> Result<(), AllocError>
    requires { partial_of row.old ≡ [] }
    ensures fields { OnOk result (fields_of row.new ≡ fields_of row.old ++ field_of column.now cell.now ∷ []) }
    ensures partial { OnOk result (partial_of row.new ≡ []) }
{
    match cell {
        Cell::Null => row.push_field(b""),
        Cell::Int(number) => row.push_field(Buffer::new().format(*number).as_bytes()),
        Cell::Bool(true) => row.push_field(b"true"),
        Cell::Bool(false) => row.push_field(b"false"),
        Cell::Text(text) => push_text(alloc, row, column.null, text.as_str()),
    }
}
