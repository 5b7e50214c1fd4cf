//! An edit that shows what was done with it.

use super::answers::is_row;
use container_model::Why;
use key_extract::Row;
use modify_ops::Edit;
use std::mem::swap;

/// Puts its row in the place of a record's, which it then holds; undone, it gives that one back.
#[derive(Drop)]
pub(super) struct Swap {
    row: Row,
    was_applied: bool,
    was_undone: bool,
}

impl Swap {
    pub(super) fn new(row: Row) -> Swap {
        Swap {
            row,
            was_applied: false,
            was_undone: false,
        }
    }

    /// Whether it was applied and undone, or not, and holds the old row where it stays applied, and else the new one.
    pub(super) fn is_left(
        &self,
        applied: bool,
        undone: bool,
        old: Result<&Row, Why>,
        new: &Row,
    ) -> bool {
        let held = if applied && !undone { old } else { Ok(new) };
        self.was_applied == applied && self.was_undone == undone && is_row(&self.row, held)
    }
}

impl Edit<Row> for Swap {
    ghost use Rattle.std.specs.Prelude.{true};

    ghost applied = { λ edit row. edit.row };

    ghost after_apply = { λ edit row. record edit { row = row; was_applied = true } };

    ghost undone = { λ edit row. edit.row };

    ghost after_undo = { λ edit row. record edit { row = row; was_undone = true } };

    fn apply(&mut self, row: &mut Row) {
        swap(&mut self.row, row);
        self.was_applied = true;
    }

    fn undo(&mut self, row: &mut Row) {
        swap(&mut self.row, row);
        self.was_undone = true;
    }
}
