//! Which tables can stand.

ghost use Rattle.table_schema.specs.Shape.{TableShape};
ghost use Rattle.table_step.specs.Step.{TableState};
ghost use Rattle.table_state.specs.Staying.{BeginsStanding, LoadsStanding, StaysStanding};

/// A law of every table. The empty table of a valid declaration can stand, so its state is read back as that table. So
/// can what a command leaves of a table that can, and what the lines of a log leave of it.
pub fn stays_standing()
    ensures begins { (shape : TableShape) → BeginsStanding shape }
    ensures command { (t : TableState) → StaysStanding t }
    ensures log { (start : TableState) → LoadsStanding start }
{}
