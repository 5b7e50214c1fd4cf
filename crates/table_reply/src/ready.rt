//! A buffer with room for an answer.

ghost use Rattle.std.specs.Prelude.{◌≡◌, ◌≤◌};
ghost use Rattle.table_reply.specs.declared.out.TheConstants.{READY_ROOM};

use crate::out::{Out, READY_ROOM};

/// A buffer with room for an answer: the next `READY_ROOM` bytes need no memory.
#[derive(Drop)]
pub struct Ready<'a> {
    /// The buffer.
    pub out: &'a mut Out,
    ghost has_room: { READY_ROOM ≤ out.now.room },
}

impl<'a> Ready<'a> {
    /// Gives the buffer back as it is, with what came of the line. O(1).
    pub fn give_back<T>(self, what: T) -> Told<'a, T>
        ensures what { result.what ≡ what }
        ensures same { result.out.ghost_name ≡ self.entry.out.ghost_name }
        ensures left { result.out.now ≡ self.entry.out.now }
    {
        let Ready { out } = self;
        Told { what, out }
    }

    /// Lets the buffer go as it is. O(1).
    pub fn end(self)
        ensures { self.exit.0.now ≡ self.entry.out.now }
    {
        let Ready { out: _ } = self;
    }
}

/// What came of a line, and the buffer behind its answer.
#[derive(Drop)]
pub struct Told<'a, T> {
    /// What came of it.
    pub what: T,
    /// The buffer that was made ready for the answer.
    pub out: &'a mut Out,
}

impl<'a, T> Told<'a, T> {
    /// Lets the buffer go, and says what came of the line. O(1).
    pub fn end(self) -> T
        ensures what { result ≡ self.entry.what }
        ensures left { self.exit.1.0.now ≡ self.entry.out.now }
    {
        let Told { what, out: _ } = self;
        what
    }
}

impl<'a, T: Drop> Told<'a, T> {
    /// The same buffer, with something else that came of the line. O(1).
    pub fn with<U>(self, what: U) -> Told<'a, U>
        ensures what { result.what ≡ what }
        ensures same { result.out.ghost_name ≡ self.entry.out.ghost_name }
        ensures left { result.out.now ≡ self.entry.out.now }
    {
        let Told { what: _, out } = self;
        Told { what, out }
    }
}
