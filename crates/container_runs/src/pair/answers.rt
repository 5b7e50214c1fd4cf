//! What the container answers, without the rows: nothing where a row that it hands out or back is not the right one.

use container_model::{Handle, Refused, Why};
use key_extract::Row;
use multi_index::{Erased, Modified};

/// Whether this is the row, if there is one.
pub(super) fn is_row(row: &Row, wanted: Result<&Row, Why>) -> bool {
    match wanted {
        Ok(wanted) => row.cells() == wanted.cells(),
        Err(_) => false,
    }
}

fn has_back(refused: &Refused<Row>, row: &Row) -> bool {
    match &refused.row {
        Some(back) => is_row(back, Ok(row)),
        None => false,
    }
}

/// The answer to an insertion, which hands this row back where it is refused.
pub(super) fn inserted(
    answer: &Result<Handle, Refused<Row>>,
    row: &Row,
) -> Option<Result<Handle, Why>> {
    match answer {
        Ok(handle) => Some(Ok(*handle)),
        Err(refused) if has_back(refused, row) => Some(Err(refused.why)),
        Err(_) => None,
    }
}

/// The answer to a replacement, which hands the old row out, or the new one back.
pub(super) fn replaced(
    answer: &Result<Row, Refused<Row>>,
    old: Result<&Row, Why>,
    new: &Row,
) -> Option<Result<(), Why>> {
    match answer {
        Ok(row) if is_row(row, old) => Some(Ok(())),
        Err(refused) if has_back(refused, new) => Some(Err(refused.why)),
        _ => None,
    }
}

/// The answer to a modification, which hands the new row out where the record is lost to a ban.
pub(super) fn modified(
    answer: &Result<Modified<Row>, Refused<Row>>,
    new: &Row,
) -> Option<Result<Option<(usize, Handle)>, Why>> {
    match answer {
        Ok(Modified::Kept) => Some(Ok(None)),
        Ok(Modified::Erased { row, index, by }) if is_row(row, Ok(new)) => {
            Some(Ok(Some((*index, *by))))
        }
        Err(refused) if refused.row.is_none() => Some(Err(refused.why)),
        _ => None,
    }
}

/// The answer to an erasure, which hands this row out.
pub(super) fn erased(
    answer: &Result<Erased<Row>, Refused<Row>>,
    row: Result<&Row, Why>,
) -> Option<Result<Option<Handle>, Why>> {
    match answer {
        Ok(erased) if is_row(&erased.row, row) => Some(Ok(erased.next)),
        Err(refused) if refused.row.is_none() => Some(Err(refused.why)),
        _ => None,
    }
}

/// The answer to a call that takes no row, which hands none back.
pub(super) fn without_row<T: Copy>(answer: &Result<T, Refused<Row>>) -> Option<Result<T, Why>> {
    match answer {
        Ok(told) => Some(Ok(*told)),
        Err(refused) if refused.row.is_none() => Some(Err(refused.why)),
        Err(_) => None,
    }
}
