//! What commands are made of.

ghost use Rattle.std.specs.Prelude.{◌≡◌, ◌↔◌, IfOk, IsTrue};

use container_model::Kind;
use key_extract::{Cell, Text};
use std::alloc::AllocError;

/// What a command is made of: it has copies, and is compared with others.
pub trait CommandPart: Sized {
    /// An equal part, newly allocated. O(length of all texts + items).
    fn copy(&self) -> Result<Self, AllocError>
        ensures { IfOk result (λ copy. copy ≡ self.now) };

    /// Whether the parts are the same. O(length of all texts + items).
    fn is_same(&self, other: &Self) -> bool
        ensures { IsTrue result ↔ (self.now ≡ other.now) };
}

impl CommandPart for bool {
    fn copy(&self) -> Result<bool, AllocError> {
        Ok(*self)
    }

    fn is_same(&self, other: &bool) -> bool {
        self == other
    }
}

impl CommandPart for u64 {
    fn copy(&self) -> Result<u64, AllocError> {
        Ok(*self)
    }

    fn is_same(&self, other: &u64) -> bool {
        self == other
    }
}

impl CommandPart for Kind {
    fn copy(&self) -> Result<Kind, AllocError> {
        Ok(*self)
    }

    fn is_same(&self, other: &Kind) -> bool {
        self == other
    }
}

impl CommandPart for Text {
    fn copy(&self) -> Result<Text, AllocError> {
        Text::copy(self)
    }

    fn is_same(&self, other: &Text) -> bool {
        self.as_str() == other.as_str()
    }
}

impl CommandPart for Cell {
    fn copy(&self) -> Result<Cell, AllocError> {
        Cell::copy(self)
    }

    fn is_same(&self, other: &Cell) -> bool {
        match (self, other) {
            (Cell::Null, Cell::Null) => true,
            (Cell::Int(a), Cell::Int(b)) => a == b,
            (Cell::Text(a), Cell::Text(b)) => a.is_same(b),
            (Cell::Bool(a), Cell::Bool(b)) => a == b,
            _ => false,
        }
    }
}

impl<T: CommandPart> CommandPart for Option<T> {
    fn copy(&self) -> Result<Option<T>, AllocError> {
        Ok(match self {
            Some(part) => Some(part.copy()?),
            None => None,
        })
    }

    fn is_same(&self, other: &Option<T>) -> bool {
        match (self, other) {
            (Some(a), Some(b)) => a.is_same(b),
            (None, None) => true,
            _ => false,
        }
    }
}
