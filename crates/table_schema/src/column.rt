//! The columns and the indices of a table.
ghost use Rattle.std.specs.Prelude.{◌≡◌, IfOk};

use container_model::Kind;
use key_extract::{KeySpec, Text};
use std::alloc::AllocError;

/// The type of a column's cells.
#[derive(Clone, Copy, Debug, PartialEq, Eq)]
pub enum CellKind {
    Int,
    Text,
    Bool,
}

/// A column of a table.
#[derive(Drop)]
pub struct Column {
    pub name: Text,
    pub cell: CellKind,
    /// Whether its cells may be null.
    pub null: bool,
}

impl Column {
    // An equal column, newly allocated.
    pub(crate) fn copy(&self) -> Result<Column, AllocError>
        ensures { IfOk result (λ copy. copy ≡ self.now) }
    {
        Ok(Column {
            name: self.name.copy()?,
            cell: self.cell,
            null: self.null,
        })
    }
}

/// An index of a table. Its key names columns by their places in the table.
#[derive(Drop)]
pub struct IndexSpec {
    pub name: Text,
    pub kind: Kind,
    pub unique: bool,
    pub key: Option<KeySpec>,
}

impl IndexSpec {
    // An equal index, newly allocated.
    pub(crate) fn copy(&self) -> Result<IndexSpec, AllocError>
        ensures { IfOk result (λ copy. copy ≡ self.now) }
    {
        Ok(IndexSpec {
            name: self.name.copy()?,
            kind: self.kind,
            unique: self.unique,
            key: self.key.as_ref().map(|key| key.copy()),
        })
    }
}
