//! A record's cells, moved out.

ghost use Rattle.std.specs.Prelude.{◌≡◌};
ghost use Rattle.tables_c.specs.Rows.{get_got, row_got};

use crate::cells::{RowCell, texts_length, write_cells, write_texts};
use crate::status::{OK, ROOM, STALE};
use container_model::Handle;
use key_extract::Cell;
use table_records::Records;

// Moves cells and their texts to the fronts of two rooms, where both fit, and tells how many they are.
fn row_got(row: &[Cell], cells: &mut [RowCell], texts: &mut [u8]) -> (u8, usize, usize)
    ensures { row_got row.now cells.old texts.old ≡ record { status = result.0; cells = cells.new; texts = texts.new; cell_count = result.1; text_length = result.2 } }
{
    let Some(length) = texts_length(row) else {
        return (ROOM, row.len(), usize::MAX);
    };
    if row.len() <= cells.len() && length <= texts.len() {
        write_cells(row, cells);
        write_texts(row, texts);
        (OK, row.len(), length)
    } else {
        (ROOM, row.len(), length)
    }
}

/// Moves a record's cells and their texts to the fronts of two rooms, where both fit, and tells how many they are.
pub(crate) fn get_got(
    records: &Records,
    handle: Handle,
    cells: &mut [RowCell],
    texts: &mut [u8],
) -> (u8, usize, usize)
    ensures { get_got records.now handle cells.old texts.old ≡ record { status = result.0; cells = cells.new; texts = texts.new; cell_count = result.1; text_length = result.2 } }
{
    match records.container().get(handle) {
        Ok(row) => row_got(row.cells(), cells, texts),
        Err(_) => (STALE, 0, 0),
    }
}
