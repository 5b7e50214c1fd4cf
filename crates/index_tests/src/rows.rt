//! Rows of one number, their order, and search keys for them.
ghost use Rattle.std.specs.Prelude.{◌≡◌, [], ◌∷◌, false, length, IfOk, Some};

use arrayvec::ArrayVec;
use key_extract::{Cell, KeySpec, Part, Probe, Row, RowKeys};
use std::alloc::{AllocError, Global};

/// The number is the key of the one index.
pub(crate) fn keys(alloc: Global) -> Result<RowKeys, AllocError>
    ensures { IfOk result (λ made. made ≡ Some (record { column = 0; falling = false } ∷ []) ∷ []) }
{
    let mut parts = ArrayVec::new();
    parts.push(Part {
        column: 0,
        falling: false,
    });
    RowKeys::new(alloc, &[Some(KeySpec::new(parts))])
}

/// The row of a number.
pub(crate) fn row(alloc: Global, number: i64) -> Result<Row, AllocError> {
    let mut cells = Vec::new(alloc);
    cells.push(Cell::Int(number))?;
    Ok(Row::new(cells))
}

/// The search key of a number.
pub(crate) fn probe(alloc: Global, number: i64) -> Result<Probe, AllocError>
    ensures { IfOk result (λ made. length made ≡ 1) }
{
    let mut cells = Vec::new(alloc);
    cells.push(Cell::Int(number))?;
    Ok(Probe::new(cells))
}
