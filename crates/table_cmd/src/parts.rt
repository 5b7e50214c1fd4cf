//! Copies of the parts of commands, and whether they are the same.

use crate::command::{Changes, Field, HandleText, KeyBound, Position, Value};
use crate::part::CommandPart;
use std::alloc::AllocError;

impl CommandPart for Value {
    fn copy(&self) -> Result<Value, AllocError> {
        Ok(match self {
            Value::Cell(cell) => Value::Cell(cell.copy()?),
            Value::Other => Value::Other,
        })
    }

    fn is_same(&self, other: &Value) -> bool {
        match (self, other) {
            (Value::Cell(a), Value::Cell(b)) => a.is_same(b),
            (Value::Other, Value::Other) => true,
            _ => false,
        }
    }
}

impl CommandPart for Field {
    fn copy(&self) -> Result<Field, AllocError> {
        Ok(Field {
            name: self.name.copy()?,
            value: self.value.copy()?,
        })
    }

    fn is_same(&self, other: &Field) -> bool {
        self.name.is_same(&other.name) && self.value.is_same(&other.value)
    }
}

impl CommandPart for KeyBound {
    fn copy(&self) -> Result<KeyBound, AllocError> {
        Ok(match self {
            KeyBound::Included(key) => KeyBound::Included(key.copy()?),
            KeyBound::Excluded(key) => KeyBound::Excluded(key.copy()?),
            KeyBound::Unbounded => KeyBound::Unbounded,
        })
    }

    fn is_same(&self, other: &KeyBound) -> bool {
        match (self, other) {
            (KeyBound::Included(a), KeyBound::Included(b)) => a.is_same(b),
            (KeyBound::Excluded(a), KeyBound::Excluded(b)) => a.is_same(b),
            (KeyBound::Unbounded, KeyBound::Unbounded) => true,
            _ => false,
        }
    }
}

impl CommandPart for Changes {
    fn copy(&self) -> Result<Changes, AllocError> {
        Ok(match self {
            Changes::Set(set) => Changes::Set(set.copy()?),
            Changes::Add(add) => Changes::Add(add.copy()?),
            Changes::Both { set, add } => Changes::Both {
                set: set.copy()?,
                add: add.copy()?,
            },
        })
    }

    fn is_same(&self, other: &Changes) -> bool {
        match (self, other) {
            (Changes::Set(a), Changes::Set(b)) => a.is_same(b),
            (Changes::Add(a), Changes::Add(b)) => a.is_same(b),
            (Changes::Both { set, add }, Changes::Both { set: s, add: a }) => {
                set.is_same(s) && add.is_same(a)
            }
            _ => false,
        }
    }
}

impl CommandPart for HandleText {
    fn copy(&self) -> Result<HandleText, AllocError> {
        Ok(*self)
    }

    fn is_same(&self, other: &HandleText) -> bool {
        match (self, other) {
            (HandleText::Handle(a), HandleText::Handle(b)) => {
                a.slot == b.slot && a.stamp == b.stamp
            }
            (HandleText::Bad, HandleText::Bad) => true,
            _ => false,
        }
    }
}

impl CommandPart for Position {
    fn copy(&self) -> Result<Position, AllocError> {
        Ok(Position {
            index: self.index.copy()?,
            place: self.place,
        })
    }

    fn is_same(&self, other: &Position) -> bool {
        self.place == other.place && self.index.is_same(&other.index)
    }
}
