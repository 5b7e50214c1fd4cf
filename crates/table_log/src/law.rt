//! What a crash leaves.

ghost use Rattle.std.specs.Prelude.{List, ℕ, IsSome};
ghost use Rattle.table_step.specs.Step.{TableState};
ghost use Rattle.table_log.specs.Crash.{KeepsSynced, MayLeave};
ghost use Rattle.table_log.specs.Log.{replayed};

/// A law of every log whose lines are accepted, whatever table it begins with: whatever a crash leaves of it loads, with the first lines of the log, and with
/// all that were whole in the synced bytes.
pub fn crash_keeps_synced()
    ensures { (start : TableState) (bytes : List ℕ) (synced : ℕ) (left : List ℕ) → IsSome (replayed start bytes) → MayLeave bytes synced left
        → KeepsSynced start bytes synced left }
{}
