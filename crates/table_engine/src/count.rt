//! Counts that never turn over.
ghost use Rattle.std.specs.Prelude.{◌≡◌};
ghost use Rattle.table_engine.specs.Devices.{raised};

// Adds one, where the count is not the greatest yet.
pub(crate) fn raise(count: &mut u64)
    ensures { count.new ≡ raised count.old }
{
    *count = count.saturating_add(1);
}
