//! Changes of a record in place, and how they are undone.
ghost use Rattle.std.specs.Prelude.{◌≡◌, Some};
ghost use Rattle.std.specs.Option.{option_copied};

use std::marker::Model;
use std::mem::swap;

/// A change of a record in place, with what undoes it.
pub trait Edit<R> {
    /// What the change makes of a record.
    ghost applied: { Self → R → R };

    /// What it makes of the edit, which may keep what it takes to undo it.
    ghost after_apply: { Self → R → Self };

    /// What undoing makes of a record.
    ghost undone: { Self → R → R };

    /// What it makes of the edit.
    ghost after_undo: { Self → R → Self };

    /// Changes the record.
    fn apply(&mut self, row: &mut R)
        ensures row { row.new ≡ applied self.old row.old }
        ensures edit { self.new ≡ after_apply self.old row.old };

    /// The record as it was before the change, where an applied edit has kept it. Where it has not, nobody knows which of the
    /// record's keys have changed.
    fn replaced(&self) -> Option<&R>
        ensures was { (old : Self) (r row : R) → self.now ≡ after_apply old r →
            option_copied result ≡ Some row → row ≡ r }
    {
        None
    }

    /// Undoes the change.
    fn undo(&mut self, row: &mut R)
        ensures row { row.new ≡ undone self.old row.old }
        ensures edit { self.new ≡ after_undo self.old row.old };
}

/// An edit that puts another record in a record's place, and undone puts the old one back.
#[derive(Drop)]
pub struct RowEdit<R> {
    row: R,
}

impl<R> Model for RowEdit<R> {
    ghost Value = { R };

    ghost view = { λ edit. edit.row };
}

impl<R> RowEdit<R> {
    /// The edit that puts this record in. O(1).
    pub fn new(row: R) -> RowEdit<R>
        ensures { result ≡ row }
    {
        RowEdit { row }
    }
}

impl<R> Edit<R> for RowEdit<R> {
    ghost applied = { λ edit row. edit };

    ghost after_apply = { λ edit row. row };

    ghost undone = { λ edit row. edit };

    ghost after_undo = { λ edit row. row };

    fn apply(&mut self, row: &mut R) {
        swap(&mut self.row, row);
    }

    fn replaced(&self) -> Option<&R>
        ensures was { (old r row : R) → self.now ≡ r → option_copied result ≡ Some row → row ≡ r }
        ensures kept { option_copied result ≡ Some self.now }
    {
        Some(&self.row)
    }

    fn undo(&mut self, row: &mut R) {
        swap(&mut self.row, row);
    }
}
