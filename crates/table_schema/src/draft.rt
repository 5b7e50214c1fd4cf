//! What a schema file says, before it is tested.

use crate::column::Column;
use container_model::Kind;
use key_extract::Text;
use std::marker::Model;

/// An index as the file has it: its key is the texts of its parts.
#[derive(Drop)]
pub struct DraftIndex {
    pub name: Text,
    pub kind: Kind,
    pub unique: bool,
    pub key: Option<Vec<Text>>,
}

impl Model for DraftIndex {
    ghost use Rattle.std.specs.Prelude.{option_map};
    ghost use Rattle.table_schema.specs.Draft.{IndexDraft};

    ghost Value = { IndexDraft };

    ghost view = { λ i. record { name = i.name; kind = i.kind; unique = i.unique; key = option_map (λ texts. texts.items) i.key } };
}

/// A table as the file has it.
#[derive(Drop)]
pub struct DraftTable {
    pub name: Text,
    pub max: i64,
    pub columns: Vec<Column>,
    pub indices: Vec<DraftIndex>,
}

impl Model for DraftTable {
    ghost use Rattle.table_schema.specs.Draft.{TableDraft};

    ghost Value = { TableDraft };

    ghost view = { λ t. record { name = t.name; max = t.max; columns = t.columns.items; indices = t.indices.items } };
}
