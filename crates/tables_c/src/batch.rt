//! Many records put in by one call.

ghost use Rattle.std.specs.Prelude.{◌≡◌, ◌==◌};
ghost use Rattle.tables_c.specs.Batch.{InsertsAll, cells_cut, next_one, texts_cut};
ghost use Rattle.tables_c.specs.Rows.{Inserts};

use crate::cells::{RowCell, behind};
use crate::change::insert_one;
use crate::status::OK;
use crate::told::{RowHandle, Told};
use container_model::Handle;
use std::alloc::Global;
use table_records::Records;

// The cells of the next record, before so many others, and the cells behind it. The last one has all that are left.
fn cells_cut(left: usize, width: usize, cells: &[RowCell]) -> (&[RowCell], &[RowCell])
    ensures { (result.0.now, result.1.now) ≡ cells_cut (left == 0) width cells.now }
{
    if left == 0 {
        (cells, &[])
    } else {
        cells.split_at(width.min(cells.len()))
    }
}

// The bytes of its texts, and those behind them.
fn texts_cut<'t>(left: usize, row: &[RowCell], texts: &'t [u8]) -> (&'t [u8], &'t [u8])
    ensures { (result.0.now, result.1.now) ≡ texts_cut (left == 0) row.now texts.now }
{
    if left == 0 {
        return (texts, &[]);
    }
    let rest = behind(row, texts);
    let (front, _) = texts.split_at(texts.len().saturating_sub(rest.len()));
    (front, rest)
}

// What came of a record, and the cells and bytes behind it.
struct Next<'c> {
    inserted: Result<Handle, Told>,
    cells: &'c [RowCell],
    texts: &'c [u8],
}

// Puts the next record in, before so many others.
fn insert_next<'c>(
    alloc: Global,
    records: &mut Records,
    left: usize,
    width: usize,
    cells: &'c [RowCell],
    texts: &'c [u8],
) -> Next<'c>
    ensures inserted { Inserts records.old (next_one width left records.old cells.now texts.now) result.inserted records.new }
    ensures cells { result.cells.now ≡ (cells_cut (left == 0) width cells.now).1 }
    ensures texts { result.texts.now ≡ (texts_cut (left == 0) (cells_cut (left == 0) width cells.now).0 texts.now).1 }
{
    let (row, next_cells) = cells_cut(left, width, cells);
    let (bytes, next_texts) = texts_cut(left, row, texts);
    Next {
        inserted: insert_one(alloc, records, row, bytes),
        cells: next_cells,
        texts: next_texts,
    }
}

/// Puts in as many records as there are handles, each as a call for it alone, until one is refused. Tells how the last one went, and
/// how many are in. Costs what these calls do.
pub(crate) fn insert_all(
    alloc: Global,
    records: &mut Records,
    cells: &[RowCell],
    texts: &[u8],
    handles: &mut [RowHandle],
) -> (Told, usize)
    ensures { InsertsAll records.old cells.now texts.now handles.old handles.new result.0 result.1 records.new }
{
    let width = records.spec().columns().len();
    let many = handles.len();
    let mut cells = cells;
    let mut texts = texts;
    for place in 0..many {
        let Next {
            inserted,
            cells: next_cells,
            texts: next_texts,
        } = insert_next(alloc, records, many - place - 1, width, cells, texts);
        match inserted {
            Ok(handle) => handles[place] = RowHandle::of(handle),
            Err(told) => return (told, place),
        }
        cells = next_cells;
        texts = next_texts;
    }
    (Told::status(OK), many)
}
