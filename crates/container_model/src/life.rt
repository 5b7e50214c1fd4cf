//! How long a handle names its record.
ghost use Rattle.std.specs.Prelude.{ℕ, Bool};
ghost use Rattle.std.specs.declared.cmp.Ordering.{Ordering};
ghost use Rattle.container_model.specs.State.{IsState, State};
ghost use Rattle.container_model.specs.Life.{IsOfPastWrite, LivesUntilTakenOut, StaysStale};

/// A law of every container with keys of `E`, records of `R` and search keys of `P`, whatever is written: a live handle
/// stays live until its record is erased, cleared or lost, and from then on it is stale for ever.
pub fn handle_life<E, R, P>()
    ensures live { (order : E → ℕ → R → R → Ordering) (probe_order : E → ℕ → R → P → Ordering) (s : State E R) → LivesUntilTakenOut order probe_order s }
    ensures stale { (order : E → ℕ → R → R → Ordering) (probe_order : E → ℕ → R → P → Ordering) (s : State E R) → StaysStale order probe_order s }
    ensures stamped { (has_key : E → ℕ → Bool) (order : E → ℕ → R → R → Ordering) (s : State E R) → IsState has_key order s → IsOfPastWrite s }
{}
