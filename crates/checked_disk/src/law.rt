//! What holds of all crashes.

ghost use Rattle.std.specs.Prelude.{◌≡◌, ◌-◌, ℕ, List, None, Some, take};
ghost use Rattle.checked_log.specs.Line.{Entry};
ghost use Rattle.checked_log.specs.Mark.{marks_of};
ghost use Rattle.checked_log.specs.Safe.{IsServed, Opens};
ghost use Rattle.checked_log.specs.Whole.{ended};
ghost use Rattle.checked_log.specs.declared.recovery.Link.{Link};
ghost use Rattle.checked_disk.specs.Files.{Left};
ghost use Rattle.checked_disk.specs.Stands.{HasNoStray, Stands, WasSafe};

/// A law of all crashes: of what one leaves of a log that is served, recovery opens with each line that was sure, and the start after it may rely on these.
pub fn what_stands_opens()
    ensures opens { (base : Link) (es : List Entry) (synced : ℕ) (c : Left) → IsServed base None es synced → Stands base es synced c → HasNoStray es synced (ended c.log)
        → Opens base (marks_of c.mark).mark (take (synced - base.number) es) c.log }
    ensures start { (base : Link) (es : List Entry) (synced : ℕ) (c : Left) → IsServed base None es synced → Stands base es synced c → HasNoStray es synced (ended c.log)
        → WasSafe base (marks_of c.mark) (take (synced - base.number) es) (Some c.log) (λ d. d ≡ c) }
{}
