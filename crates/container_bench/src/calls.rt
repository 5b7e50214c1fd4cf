//! The calls that are timed, of the container and of what stands beside it.

use crate::keys::Key;

/// A call, with the number of its index where it has one. A key is that of the record that is sought.
#[derive(Clone, Copy)]
pub(crate) enum Call {
    Insert,
    Find(usize, Key),
    Count(usize, Key),
    Lower(usize, Key),
    Upper(usize, Key),
    List(usize),
    Walk(usize),
    /// Along the middle half of the ids.
    WalkRange(usize),
    /// Along the records of each owner.
    WalkGroups(usize),
    Get,
    Nth(usize),
    Place(usize),
    Rank(usize),
    Next(usize),
    Previous(usize),
    /// Moves the record at a place of a row one place on.
    MoveOn(usize),
    MoveToFront(usize),
    Reverse(usize),
    Sort(usize),
    /// Puts an equal record in the place of one.
    Replace,
    /// Gives a record another price.
    Reprice,
    /// Gives a record another id, price and owner.
    Rekey,
    Erase,
    EraseFirst(usize),
    EraseOwner(usize),
    FindOwner(usize),
}
