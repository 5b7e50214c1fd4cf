//! What holds of all lines and logs.

ghost use Rattle.std.specs.Prelude.{◌≡◌, ◌+◌, ◌-◌, ◌<◌, ◌≤◌, ◌^◌, ◌++◌, ◌∷◌, [], ℕ, List, None, Ok, Option, Some, length, take};
ghost use Rattle.checked_log.specs.Recover.{judged, recovered_of, walk_from, walked, with_count};
ghost use Rattle.checked_log.specs.Safe.{HasAnswered, IsServed, Keeps, MayBeLeft, Opens, OpensAgain, WasServed};
ghost use Rattle.checked_log.specs.Whole.{ended, joined, last_link};
ghost use Rattle.checked_log.specs.declared.recovery.Link.{Link};
ghost use Rattle.checked_log.specs.declared.recovery.Recovered.{Recovered};
ghost use Rattle.checked_log.specs.Digest.{DifferAt, IsBytes};
ghost use Rattle.checked_log.specs.Json.{line_data, mark_data};
ghost use Rattle.checked_log.specs.Mark.{mark_text};
ghost use Rattle.serde_json.specs.Data.{Data};
ghost use Rattle.serde_json.specs.Written.{compact_text};
ghost use Rattle.checked_log.specs.Line.{Entry, Fits, IsWellFormed, entry_of, line_text};

/// A law of all lines: what is printed of what a line may say is read back.
pub fn line_is_read_back()
    ensures { (e : Entry) → Fits e → entry_of (line_text e) ≡ Some e }
{}

/// A law of all texts: only the text of what a line may say is read as that.
pub fn line_is_well_formed()
    ensures { (text : List ℕ) (e : Entry) → entry_of text ≡ Some e → IsWellFormed text e }
{}

/// A law of all lines that memory can hold: a line with one byte changed is not well formed.
pub fn changed_line_is_found()
    ensures { (place : ℕ) (text changed : List ℕ) (e : Entry) → IsBytes text → IsBytes changed → length text < 2 ^ 64 → DifferAt place text changed → entry_of text ≡ Some e
        → entry_of changed ≡ None }
{}

/// A law of all logs: a walk over a log's lines, judged, is its recovery, and there is room for each line.
pub fn walk_is_recovery()
    ensures answer { (base : Link) (mark : Option Link) (bytes : List ℕ) → let w = walked mark (walk_from base mark) (ended bytes) in
        judged mark w.is_marked (with_count (length bytes) w.so_far) ≡ recovered_of base mark bytes }
    ensures room { (base : Link) (mark : Option Link) (lines : List (List ℕ)) → let w = walked mark (walk_from base mark) lines in
        w.so_far.end + w.so_far.behind.lines ≤ length (joined lines) }
{}

/// A law of all logs: where recovery opens, each write that is known to be durable is there, with the bytes that the log has.
pub fn recovery_keeps()
    ensures { (base : Link) (mark : Option Link) (bytes : List ℕ) (r : Recovered) → recovered_of base mark bytes ≡ Ok r → Keeps base mark bytes r }
{}

/// A law of all logs: where the first lines are those of a log, and no more is told as durable, recovery opens with these lines, whatever bytes follow.
pub fn recovery_opens()
    ensures { (base : Link) (mark : Option Link) (entries : List Entry) (bytes : List ℕ) → HasAnswered base mark entries bytes → Opens base mark entries bytes }
{}

/// A law of all logs: recovery of what recovery left answers the same writes, and cuts nothing, beside the same mark or one of the last write.
pub fn recovery_again()
    ensures { (base : Link) (mark : Option Link) (bytes : List ℕ) (r : Recovered) → recovered_of base mark bytes ≡ Ok r
        → OpensAgain base mark r (take r.end bytes) × OpensAgain base (Some r.last) r (take r.end bytes) }
{}

/// A law of all logs that are served: an append, a sync, a mark of the last line and a start keep what recovery rests on, whatever a crash leaves behind the synced lines.
pub fn serving_keeps()
    ensures append { (base : Link) (mark : Option Link) (entries : List Entry) (synced : ℕ) (e : Entry) → IsServed base mark entries synced → Fits e → e.durable ≤ synced
        → e.number ≡ (last_link base entries).number + 1 → e.before ≡ (last_link base entries).digest → IsServed base mark (entries ++ (e ∷ [])) synced }
    ensures sync { (base : Link) (mark : Option Link) (entries : List Entry) (synced : ℕ) → IsServed base mark entries synced → IsServed base mark entries (base.number + length entries) }
    ensures mark { (base : Link) (mark : Option Link) (entries : List Entry) → IsServed base mark entries (base.number + length entries)
        → IsServed base (Some (last_link base entries)) entries (base.number + length entries) }
    ensures start { (base : Link) (mark : Option Link) (bytes : List ℕ) (r : Recovered) → recovered_of base mark bytes ≡ Ok r → WasServed base mark bytes r }
    ensures crash { (base : Link) (mark : Option Link) (entries : List Entry) (synced : ℕ) (bytes : List ℕ) → IsServed base mark entries synced
        → MayBeLeft base entries synced bytes → HasAnswered base mark (take (synced - base.number) entries) bytes }
{}

/// A law of all lines and marks: each is the compact text of one JSON value, where the write is one.
pub fn texts_are_json()
    ensures line { (e : Entry) (write : Data) → e.write ≡ compact_text write → line_text e ≡ compact_text (line_data e write) }
    ensures mark { (m : Link) → mark_text m ≡ compact_text (mark_data m) }
{}
