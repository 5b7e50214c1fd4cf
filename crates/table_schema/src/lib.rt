//! Schemas: the tables that a server holds, with their columns and indices.
#![tactic(auto)]

mod column;
mod define;
mod draft;
mod fault;
mod kind;
mod limits;
mod names;
mod preset;
mod resolve;
mod schema;
mod table;
mod verdict;

pub use column::{CellKind, Column, IndexSpec};
pub use container_model::Kind;
pub use define::{DefineFault, define_index};
pub use draft::{DraftIndex, DraftTable};
pub use fault::SchemaFault;
pub use key_extract::{KeySpec, Part, Text};
pub use kind::{kind_of, kind_text};
pub use preset::builtin;
pub use resolve::key_of_texts;
pub use schema::Schema;
pub use table::TableSpec;
pub use verdict::schema_of_drafts;
