//! Which slot of a mark is put next.

ghost use Rattle.std.specs.Prelude.{◌≡◌, ◌≤◌, ℕ, List, length};
ghost use Rattle.checked_log.specs.Mark.{LinkFits, marks_of, slot_mark};
ghost use Rattle.checked_log.specs.declared.recovery.Link.{Link};
ghost use Rattle.checked_disk.specs.Files.{IsSlot, other_slot, slot_at};
ghost use Rattle.checked_disk.specs.Kept.{slot_of};
ghost use Rattle.checked_disk.specs.Slots.{IsOlderSlot, TellsNoLater};
ghost use Rattle.file_disk.specs.File.{over};

/// A law of all marks: the slot that is put next is the one that has not the greater number. A start names that slot, and has the mark of the other one. Once a mark of a write that
/// is no earlier was put there, it is the other slot's turn.
pub fn older_slot_is_put()
    ensures start { (mark : List ℕ) → IsSlot (marks_of mark).next × IsOlderSlot mark (marks_of mark).next }
    ensures kept { (mark : List ℕ) → slot_mark (slot_at (other_slot (marks_of mark).next) mark) ≡ (marks_of mark).mark }
    ensures turn { (mark : List ℕ) (at : ℕ) (link : Link) → 512 ≤ length mark → IsSlot at → LinkFits link → TellsNoLater mark (other_slot at) link.number
        → IsOlderSlot (over at (slot_of link) mark) (other_slot at) }
{}
