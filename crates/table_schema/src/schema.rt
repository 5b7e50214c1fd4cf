//! All tables of a server.
ghost use Rattle.std.specs.Prelude.{◌≡◌};
ghost use Rattle.table_schema.specs.Valid.{IsValidSchema};

use crate::table::TableSpec;
use std::marker::Model;

/// The tables that a server holds. A schema is valid: what it holds is within the limits, its names are
/// good and distinct, and its keys name columns.
#[derive(Drop)]
pub struct Schema {
    tables: Vec<TableSpec>,
}

impl Model for Schema {
    ghost use Rattle.std.specs.Prelude.{List};
    ghost use Rattle.table_schema.specs.Shape.{TableShape};
    ghost use Rattle.table_schema.specs.Valid.{IsValidSchema};

    ghost Value = { List TableShape };

    ghost view = { λ s. s.tables.items };

    ghost invariant = { λ s. IsValidSchema s.tables.items };
}

impl Schema {
    // A schema of these tables.
    pub(crate) fn new(tables: Vec<TableSpec>) -> Schema
        requires { IsValidSchema tables.items }
        ensures { result ≡ tables.items }
    {
        Schema { tables }
    }

    /// The tables, in the order of the schema. O(1).
    pub fn tables(&self) -> &[TableSpec]
        ensures value { result.now ≡ self.now }
        ensures valid { IsValidSchema self.now }
    {
        &self.tables
    }
}
