//! Why a schema file is refused.
ghost use Rattle.std.specs.Prelude.{◌≡◌};
ghost use Rattle.table_schema.specs.declared.fault.SchemaFault.TheVariants.{Memory};

use std::alloc::AllocError;
use thiserror::Error;

/// Why a schema file is refused. Each is tested over the whole file before the next; `Memory` may come
/// at any point.
#[derive(Clone, Copy, Debug, PartialEq, Eq, Error)]
pub enum SchemaFault {
    /// The bytes are no TOML.
    #[error("toml")]
    Toml,
    /// A key is missing or unknown, or its value is of another type.
    #[error("shape")]
    Shape,
    /// A number is outside its limits: tables, columns, indices, key parts or `max`.
    #[error("limit")]
    Limit,
    /// A name is not 1 to 32 ASCII letters, digits or `_`, or stands twice.
    #[error("name")]
    Name,
    /// An index has a key that it may not have, or lacks the one that it needs.
    #[error("key")]
    Key,
    #[error("memory")]
    Memory,
}

impl From<AllocError> for SchemaFault {
    ghost from_gives = { λ _ e. e ≡ Memory };

    fn from(_e: AllocError) -> SchemaFault {
        SchemaFault::Memory
    }
}
